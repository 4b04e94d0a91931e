// Reactive machines: fed one in-ticket, a machine makes out-tickets and keeps its state in words.
#![tactic(auto)]

ghost use Rattle.machine.specs.Meaning.{Meaning, Lawful};
ghost use Rattle.machine.specs.Reacting.{Reacts};

use ticket::Ticket;

// The state of a run.
pub type Words = [u32; 16];

// Room for the tickets of one reaction. An array, since a machine has no heap and leaves what lies beyond its tickets.
pub type Slip = [Ticket; 16];

// How a reaction went: the tickets made and the steps taken, which stand either way, and whether it stalled before its end.
#[derive(Clone, Copy, PartialEq, Eq, Debug)]
pub struct Reaction {
    pub made: usize,
    pub steps: u16,
    pub stalled: bool,
}

pub trait Machine {
    ghost meaning: { Self → Meaning };

    // What each implementation has to show of its meaning.
    ghost lawful: { (m : Self) → Lawful (meaning m) };

    // Never refuses. The slip holds the tickets made, and beyond them what it held: it is lent, as the words are.
    fn react(&self, words: &mut Words, ticket: Ticket, allowance: u16, slip: &mut Slip) -> Reaction
        ensures { Reacts (meaning self.now words.old ticket allowance) slip.old result words.new slip.new };
}
