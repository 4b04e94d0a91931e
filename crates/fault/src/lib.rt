// A refusal: its reason, and the line and field of a text where it was found.
#![tactic(auto)]

ghost use Rattle.std.specs.Prelude.{◌≡◌};
ghost use Rattle.fault.specs.Faults.{number_of, unplaced};

// Why something is refused. The numbers are what users are told; docs/faults.md has the rule of each.
#[derive(Clone, Copy, PartialEq, Eq, Debug)]
pub enum Reason {
    Overlong = 1,
    Ragged = 2,
    Letter = 3,
    Field = 4,
    Nest = 5,
    Twice = 6,
    Full = 7,
    Slip = 8,
    Level = 9,
    Leak = 10,
    Record = 11,
    Channel = 12,
    Halted = 13,
    Allowance = 14,
}

impl Reason {
    // A name tells more than a conversion: it is the number that is printed.
    pub fn number(self) -> u8
        ensures { result ≡ number_of self }
    {
        self as u8
    }
}

// Line and field are numbers, and no Option, as they are printed: 0 outside a text.
#[derive(Clone, Copy, PartialEq, Eq, Debug)]
pub struct Fault {
    pub reason: Reason,
    pub line: u16,
    pub field: u8,
}

impl Fault {
    pub fn unplaced(reason: Reason) -> Fault
        ensures { result ≡ unplaced reason }
    {
        Fault {
            reason,
            line: 0,
            field: 0,
        }
    }
}
