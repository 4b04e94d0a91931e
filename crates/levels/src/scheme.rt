// What a scheme of levels answers, and the laws that each scheme shows.
ghost use Rattle.std.specs.Prelude.{◌≡◌};
ghost use Rattle.levels.specs.Scheme.{Levels, Sized, Proper, Reflexive, Antisymmetric, Transitive, Bottom, Joins, Lattice, OrderDeterminesScheme, join_of};

pub trait Scheme: Copy {
    ghost levels: { Self → Levels };

    fn count(&self) -> u8
        ensures { result ≡ (levels self.now).count };

    fn lowest(&self) -> u8
        ensures { result ≡ (levels self.now).lowest };

    fn at_or_below(&self, a: u8, b: u8) -> bool
        ensures { result ≡ (levels self.now).below a b };

    // None where one of the two is no level.
    fn join(&self, a: u8, b: u8) -> Option<u8>
        ensures { result ≡ join_of (levels self.now) a b };

    // All the laws as one record, which an impl gives and lemmas take.
    ghost lattice: { (s : Self) → Lattice (levels s) };

    ghost sized: { (s : Self) → Sized (levels s) } = { λ s. (lattice s).sized };

    ghost proper: { (s : Self) → Proper (levels s) } = { λ s. (lattice s).proper };

    ghost reflexive: { (s : Self) → Reflexive (levels s) } = { λ s. (lattice s).reflexive };

    ghost antisymmetric: { (s : Self) → Antisymmetric (levels s) } = { λ s. (lattice s).antisymmetric };

    ghost transitive: { (s : Self) → Transitive (levels s) } = { λ s. (lattice s).transitive };

    ghost bottom: { (s : Self) → Bottom (levels s) } = { λ s. (lattice s).bottom };

    ghost joins: { (s : Self) → Joins (levels s) } = { λ s. (lattice s).joins };
}

// A theorem: the count and the order of a scheme leave one choice for its lowest level and its joins.
#[tactic(auto, using(crate::specs::Lattices::order_determines_scheme))]
pub fn order_determines_scheme()
    ensures { OrderDeterminesScheme }
{}
