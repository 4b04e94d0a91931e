// The report on an input of three parts: a scheme, a level sheet, and a part that is reported on under them.
#![tactic(auto)]

ghost use Rattle.std.specs.Prelude.{ℕ, List};
ghost use Rattle.levels.specs.Scheme.{Levels};
ghost use Rattle.print.specs.Appending.{Appends};
ghost use Rattle.scheme_reader.specs.Reading.{reading};
ghost use Rattle.sheet.specs.declared.LevelSheet.{LevelSheet};
ghost use Rattle.scheme_report.specs.Report.{not_in_parts, by_scheme, under, report};

use fault::{Fault, Reason};
use levels::Scheme;
use parts::{cut_part, is_one_line};
use print::put_fault;
use scheme_reader::{SchemeChoice, read_scheme};
use sheet::LevelSheet;
use sheet_reader::read_sheet;
use std::alloc::AllocError;

// The parts of the input, as refusals count them: 0 is the whole.
const WHOLE: u8 = 0;

const SCHEME_PART: u8 = 1;

const SHEET_PART: u8 = 2;

// What is printed of the third part, under a scheme and a sheet that were read. They are two, as the calls that are made under them test both.
pub trait PartReport {
    ghost text: { Levels → LevelSheet → List ℕ → List ℕ };

    fn report_part<S: Scheme>(
        out: &mut Vec<u8>,
        scheme: &S,
        sheet: &LevelSheet,
        part: &[u8],
    ) -> Result<(), AllocError>
        ensures { Appends out.old (text (S.levels scheme.now) sheet.now part.now) result out.new };
}

// The input is a scheme, a level sheet and the third part, parted by lines `-`.
pub fn report_parts<P: PartReport>(out: &mut Vec<u8>, input: &[u8]) -> Result<(), AllocError>
    ensures { Appends out.old (report P.text input.now) result out.new }
{
    let (line, rest) = cut_part(input);
    let Some(rest) = rest else {
        return put_not_in_parts(out);
    };
    let (text, part) = cut_part(rest);
    let Some(part) = part else {
        return put_not_in_parts(out);
    };
    if !is_one_line(line) {
        return put_not_in_parts(out);
    }
    report_under_scheme::<P>(out, line, text, part)
}

fn put_not_in_parts(out: &mut Vec<u8>) -> Result<(), AllocError>
    ensures { Appends out.old not_in_parts result out.new }
{
    put_fault(out, WHOLE, Fault::unplaced(Reason::Field))
}

fn report_under_scheme<P: PartReport>(
    out: &mut Vec<u8>,
    line: &[u8],
    text: &[u8],
    part: &[u8],
) -> Result<(), AllocError>
    ensures { Appends out.old (by_scheme P.text (reading line.now) text.now part.now) result out.new }
{
    match read_scheme(line) {
        Ok(SchemeChoice::Chain(chain)) => report_under_sheet::<P, _>(out, &chain, text, part),
        Ok(SchemeChoice::Parties(parties)) => report_under_sheet::<P, _>(out, &parties, text, part),
        Err(fault) => put_fault(out, SCHEME_PART, fault),
    }
}

fn report_under_sheet<P: PartReport, S: Scheme>(
    out: &mut Vec<u8>,
    scheme: &S,
    text: &[u8],
    part: &[u8],
) -> Result<(), AllocError>
    ensures { Appends out.old (under P.text (S.levels scheme.now) text.now part.now) result out.new }
{
    let mut sheet = LevelSheet::uniform(0);
    match read_sheet(text, scheme, &mut sheet) {
        Ok(()) => P::report_part(out, scheme, &sheet, part),
        Err(fault) => put_fault(out, SHEET_PART, fault),
    }
}

#[cfg(test)]
mod tests {
    use super::{PartReport, report_parts};
    use levels::Scheme;
    use print::put_bytes;
    use sheet::LevelSheet;
    use std::alloc::AllocError;
    use std::test::Fail;

    // Prints the third part as it is.
    struct Echo;

    impl PartReport for Echo {
        ghost text = { λ _ _ part. part };

        fn report_part<S: Scheme>(
            out: &mut Vec<u8>,
            _scheme: &S,
            _sheet: &LevelSheet,
            part: &[u8],
        ) -> Result<(), AllocError> {
            put_bytes(out, part)
        }
    }

    #[test]
    fn the_third_part_is_reported_on(rt: HostRuntime) -> Result<(), Fail> {
        let mut out = Vec::new(rt.alloc());
        report_parts::<Echo>(&mut out, b"chain,2\n-\nC,0,1\n-\nrest\n")?;
        assert_eq!(rt; out.as_slice(), b"rest\n".as_slice());
        Ok(())
    }
}
