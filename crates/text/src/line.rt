// A line of a text with its number.
ghost use Rattle.std.specs.Prelude.{◌≡◌};
ghost use Rattle.text.specs.Lines.{all_printable, is_clean};
ghost use Rattle.text.specs.Places.{placed};

use crate::{classes, places};
use fault::{Fault, Reason};

// The most bytes of a line before its line feed.
const LINE_LIMIT: usize = 80;

#[derive(Clone, Copy, PartialEq, Eq, Debug)]
pub struct Line<'a> {
    pub bytes: &'a [u8],
    pub number: u16,
}

impl<'a> Line<'a> {
    // Short enough, and each byte printable.
    pub fn is_clean(self) -> bool
        ensures { result ≡ is_clean self.entry.bytes.now }
    {
        self.bytes.len() <= LINE_LIMIT && all_printable(self.bytes)
    }

    // The refusal of a field of this line.
    pub fn fault(self, reason: Reason, field: u8) -> Fault
        ensures { result ≡ placed reason self.entry.number field }
    {
        places::placed(reason, self.number, field)
    }
}

fn all_printable(bytes: &[u8]) -> bool
    ensures { result ≡ all_printable bytes.now }
{
    bytes.iter().all(|byte| classes::is_printable(*byte))
}
