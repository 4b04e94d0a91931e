// A refusal with the line and the field of a text where it was found.
ghost use Rattle.std.specs.Prelude.{◌≡◌};
ghost use Rattle.text.specs.Places.{placed};

use fault::{Fault, Reason};

pub fn placed(reason: Reason, line: u16, field: u8) -> Fault
    ensures { result ≡ placed reason line field }
{
    Fault {
        reason,
        line,
        field,
    }
}
