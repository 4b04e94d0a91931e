// A program that reads all of its input and then writes what a function makes of it.
#![tactic(auto)]

ghost use Rattle.std.specs.Prelude.{OnOk};
ghost use Rattle.filter.specs.Filtering.{Filters};

use std::alloc::{AllocError, Global};
use std::io;
use std::io::{Read, Write};

pub fn run_filter<R: Read, W: Write, F: FnOnce(&mut Vec<u8>, &[u8]) -> Result<(), AllocError>>(
    alloc: Global,
    reader: &mut R,
    writer: &mut W,
    report: F,
) -> io::Result<()>
    requires { F.IsAlwaysCallable report }
    ensures { OnOk result (Filters (F.post report) (R.remaining reader.old) (R.remaining reader.new) (W.contents writer.old) (W.contents writer.new)) }
{
    let mut input = Vec::new(alloc);
    reader.read_to_end(&mut input)?;
    let mut output = Vec::new(alloc);
    report(&mut output, input.as_slice())?;
    writer.write_all(output.as_slice())
}

#[cfg(test)]
mod tests {
    use super::run_filter;
    use std::test::Fail;

    #[test]
    fn what_is_made_of_all_input_is_written(rt: HostRuntime) -> Result<(), Fail> {
        let mut reader: &[u8] = b"two lines\n";
        let mut writer = Vec::new(rt.alloc());
        run_filter(rt.alloc(), &mut reader, &mut writer, |out, bytes| {
            out.extend_from_slice(bytes)?;
            out.extend_from_slice(bytes)
        })?;
        assert_eq!(rt; writer.as_slice(), b"two lines\ntwo lines\n".as_slice());
        Ok(())
    }
}
