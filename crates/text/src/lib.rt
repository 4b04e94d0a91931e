// What every reader of a text shares: classes of bytes, lines, fields, decimal numbers, and refusals with their place.
#![tactic(auto)]

mod classes;
mod field;
mod fields;
mod line;
mod lines;
mod numbers;
mod pieces;
mod places;

pub use classes::{Class, class_of};
pub use field::Field;
pub use fields::Fields;
pub use line::Line;
pub use lines::{Lines, TEXT_LIMIT, next_line};
pub use numbers::number;
pub use pieces::cut;
pub use places::placed;
