// A chain of 1 to 16 levels, ordered as its numbers.
ghost use Rattle.std.specs.Prelude.{◌≡◌, ◌≤◌};
ghost use Rattle.fault.specs.declared.Reason.TheVariants as reason;
ghost use Rattle.fault.specs.Faults.{Accepts};
ghost use Rattle.levels.specs.Chain.{chain, is_chain};
ghost use Rattle.levels.specs.Products.{chain_lawful};

use super::Scheme;
use fault::{Fault, Reason};

#[derive(Clone, Copy, PartialEq, Eq, Debug)]
pub struct Chain {
    count: u8,
    ghost sized: { (1 ≤ count) × (count ≤ 16) },
}

impl Chain {
    // Not shared with the other schemes: one test, of another limit.
    pub fn new(count: u8) -> Result<Chain, Fault>
        ensures { Accepts (is_chain count) (λ c. c.count ≡ count) reason.Level result }
    {
        if 1 <= count && count <= 16 {
            Ok(Chain { count })
        } else {
            Err(Fault::unplaced(Reason::Level))
        }
    }
}

impl Scheme for Chain {
    ghost levels = { λ s. chain s.count };

    ghost lattice = { λ s. chain_lawful s.count s.sized.0 s.sized.1 };

    fn count(&self) -> u8 {
        self.count
    }

    fn lowest(&self) -> u8 {
        0
    }

    fn at_or_below(&self, a: u8, b: u8) -> bool {
        a <= b && b < self.count
    }

    fn join(&self, a: u8, b: u8) -> Option<u8> {
        if a < self.count && b < self.count {
            Some(a.max(b))
        } else {
            None
        }
    }
}
