// The switch sheet: its lines, and the reader of its text.
#![tactic(auto)]

mod line;
mod reader;

pub use line::SwitchLine;
pub use reader::{SHEET_LIMIT, read_switch, reading_inverts_writing};
