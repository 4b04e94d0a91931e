// A day's hand-ins: its lines, and the reader of its text into the records that a hand-in carries.
#![tactic(auto)]

mod error;
mod hand_in;
mod reader;

pub use error::DayError;
pub use hand_in::HandIn;
pub use reader::{read_day, reading_counts_lines, reading_inverts_writing};
