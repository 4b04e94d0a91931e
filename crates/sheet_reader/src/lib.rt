// The reader of a level sheet: its lines, and the levels that they give.
#![tactic(auto)]

mod line;
mod reader;

pub use line::{Name, SheetLine};
pub use reader::{lines_give_levels, read_sheet, reading_inverts_writing};
