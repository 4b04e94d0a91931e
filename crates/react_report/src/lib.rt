// The report on a machine that is fed in-tickets.
#![tactic(auto)]

ghost use Rattle.std.specs.Prelude.{◌≡◌};
ghost use Rattle.print.specs.Appending.{Appends};
ghost use Rattle.react_report.specs.Report.{is_switch_sheet, report};

mod feed;
mod switch_sheet;

use crate::feed::{WHOLE, report_machine};
use crate::switch_sheet::load_switch;
use fault::{Fault, Reason};
use parts::cut_part;
use print::put_fault;
use program::{ROW_LIMIT, Row, TERM_LIMIT, Term};
use program_loader::load_program;
use std::alloc::AllocError;
use switch::{SHEET_LIMIT, SwitchLine};

// The input is the text of a machine, a line `-`, and in-tickets as bytes.
pub fn report_react(out: &mut Vec<u8>, input: &[u8]) -> Result<(), AllocError>
    ensures { Appends out.old (report input.now) result out.new }
{
    let (text, rest) = cut_part(input);
    let Some(bytes) = rest else {
        return put_fault(out, WHOLE, Fault::unplaced(Reason::Field));
    };
    if is_switch_sheet(text) {
        let mut lines = [SwitchLine::BLANK; SHEET_LIMIT];
        report_machine(out, load_switch(text, &mut lines), bytes)
    } else {
        let mut rows = [Row::BLANK; ROW_LIMIT];
        let mut terms = [Term::BLANK; TERM_LIMIT];
        report_machine(out, load_program(text, &mut rows, &mut terms), bytes)
    }
}

fn is_switch_sheet(text: &[u8]) -> bool
    ensures { result ≡ is_switch_sheet text.now }
{
    text.starts_with(b"T")
}
