// The flat form of a site program, and the reader of its text.
#![tactic(auto)]

mod add;
mod laws;
mod line;
mod nest;
mod reader;
mod rows;
mod terms;

pub use add::{ROW_LIMIT, TERM_LIMIT};
pub use laws::{flat_form_tells_the_program, reading_inverts_writing, text_tells_the_program};
pub use nest::Nesting;
pub use reader::read_program;
pub use rows::{Kind, Row, Term};
pub use terms::EXPRESSION_LIMIT;
