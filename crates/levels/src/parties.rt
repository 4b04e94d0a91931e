// A level for each set of 0 to 4 parties, bit p standing for party p.
ghost use Rattle.std.specs.Prelude.{◌≡◌, ◌≤◌};
ghost use Rattle.fault.specs.declared.Reason.TheVariants as reason;
ghost use Rattle.fault.specs.Faults.{Accepts};
ghost use Rattle.levels.specs.Parties.{parties, is_parties};
ghost use Rattle.levels.specs.Subsets.{parties_lawful};

use super::Scheme;
use fault::{Fault, Reason};

#[derive(Clone, Copy, PartialEq, Eq, Debug)]
pub struct Parties {
    number: u8,
    ghost few: { number ≤ 4 },
}

impl Parties {
    // Not shared with the other schemes: one test, of another limit.
    pub fn new(number: u8) -> Result<Parties, Fault>
        ensures { Accepts (is_parties number) (λ p. p.number ≡ number) reason.Level result }
    {
        if number <= 4 {
            Ok(Parties { number })
        } else {
            Err(Fault::unplaced(Reason::Level))
        }
    }
}

impl Scheme for Parties {
    ghost levels = { λ s. parties s.number };

    ghost lattice = { λ s. parties_lawful s.number s.few };

    fn count(&self) -> u8 {
        1 << self.number
    }

    fn lowest(&self) -> u8 {
        0
    }

    fn at_or_below(&self, a: u8, b: u8) -> bool {
        a & b == a && b < self.count()
    }

    fn join(&self, a: u8, b: u8) -> Option<u8> {
        let n = self.count();
        if a < n && b < n { Some(a | b) } else { None }
    }
}
