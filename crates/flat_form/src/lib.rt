// Whether tables hold the flat form of a program: their rows are built once more and compared.
#![tactic(auto)]

mod extent;
mod fit;
mod rebuild;

pub use extent::extents_of;
