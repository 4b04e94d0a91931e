// Runs site programs: what becomes of a ticket, row by row, within an allowance of steps.
#![tactic(auto)]

ghost use Rattle.interpreter.specs.Laws.{FlatIsSound, SoundIsLawful};

mod evaluate;
mod expression;
mod fold;
mod job;
mod react;
mod tables;

pub use expression::Expression;
pub use fold::{Algebra, fold_expression};
pub use tables::Tables;

// A theorem: the flat form of every program within the limits is sound.
#[tactic(auto, using(crate::proofs::Flat::flat_is_sound))]
pub fn flat_is_sound()
    ensures { FlatIsSound }
{}

// A theorem: sound tables make at most sixteen tickets, and only out-tickets.
#[tactic(auto, using(crate::proofs::Outputs::sound_is_lawful))]
pub fn sound_is_lawful()
    ensures { SoundIsLawful }
{}
