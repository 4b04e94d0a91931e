// A pair of schemes with a and b levels, a * b at most 16. Level n is the pair of n / b and n % b.
ghost use Rattle.std.specs.Prelude.{◌≡◌, ◌+◌, ◌*◌, ◌<◌, true, ⊤};
ghost use Rattle.fault.specs.declared.Reason.TheVariants as reason;
ghost use Rattle.fault.specs.Faults.{Accepts};
ghost use Rattle.levels.specs.Pair.{pair, is_pair};
ghost use Rattle.levels.specs.Products.{pair_lawful};

use super::Scheme;
use fault::{Fault, Reason};
use std::alloc::AllocError;

#[derive(PartialEq, Eq, Debug)]
pub struct Pair<P: Scheme, Q: Scheme> {
    left: P,
    right: Q,
    ghost small: { is_pair (P.levels left) (Q.levels right) ≡ true },
}

// By hand: Clone cannot be derived for a generic struct with a ghost field.
impl<P: Scheme, Q: Scheme> Clone for Pair<P, Q> {
    ghost is_clone = { λ s r. r ≡ s };

    ghost is_infallible = { λ _. ⊤ };

    fn clone(&self) -> Result<Pair<P, Q>, AllocError> {
        Ok(*self)
    }
}

impl<P: Scheme, Q: Scheme> Copy for Pair<P, Q> {}

impl<P: Scheme, Q: Scheme> Pair<P, Q> {
    pub fn new(left: P, right: Q) -> Result<Pair<P, Q>, Fault>
        ensures { Accepts (is_pair (P.levels left) (Q.levels right)) (λ p. (p.left ≡ left) × (p.right ≡ right)) reason.Level result }
    {
        if left.count() as u16 * right.count() as u16 <= 16 {
            Ok(Pair { left, right })
        } else {
            Err(Fault::unplaced(Reason::Level))
        }
    }

    // The level whose parts are p and q.
    fn level(&self, p: u8, q: u8) -> u8
        requires left { p < (P.levels self.now.left).count }
        requires right { q < (Q.levels self.now.right).count }
        ensures { result ≡ p * (Q.levels self.now.right).count + q }
    {
        p * self.right.count() + q
    }
}

impl<P: Scheme, Q: Scheme> Scheme for Pair<P, Q> {
    ghost levels = { λ s. pair (P.levels s.left) (Q.levels s.right) };

    ghost lattice = { λ s. pair_lawful (P.lattice s.left) (Q.lattice s.right) };

    fn count(&self) -> u8 {
        self.left.count() * self.right.count()
    }

    fn lowest(&self) -> u8 {
        self.level(self.left.lowest(), self.right.lowest())
    }

    fn at_or_below(&self, m: u8, n: u8) -> bool {
        let b = self.right.count();
        self.left.at_or_below(m / b, n / b) && self.right.at_or_below(m % b, n % b)
    }

    fn join(&self, m: u8, n: u8) -> Option<u8> {
        let b = self.right.count();
        let p = self.left.join(m / b, n / b)?;
        let q = self.right.join(m % b, n % b)?;
        Some(self.level(p, q))
    }
}
