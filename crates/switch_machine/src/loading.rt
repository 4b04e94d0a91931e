// Putting the lines of a switch sheet into a machine.
ghost use Rattle.std.specs.Prelude.{◌≡◌, ◌≤◌, true, [], length};
ghost use Rattle.std.specs.List.{All};
ghost use Rattle.switch.specs.Reading.{sheet_limit};
ghost use Rattle.switch.specs.Writing.{Fit};
ghost use Rattle.switch_machine.specs.Loading.{loading, Holds, LeftByText};
ghost use Rattle.switch_machine.specs.Sound.{is_made, is_fit, all_fit, all_blank, is_left};

use crate::Switch;
use fault::{Fault, Reason};
use switch::{SHEET_LIMIT, SwitchLine};

impl<'a> Switch<'a> {
    // A machine of no lines.
    pub fn empty() -> Switch<'a>
        ensures { result.lines.now ≡ [] }
    {
        Switch { lines: &[] }
    }

    // Takes the lines that a text left. Blanks behind them do no harm: a blank line leads from state 0 to state 0.
    pub fn load(&mut self, lines: &'a [SwitchLine]) -> Result<(), Fault>
        ensures value { result ≡ loading lines.now }
        ensures machine { Holds result lines.now self.old self.new }
        ensures exactly { LeftByText result lines.now }
    {
        if lines.len() < SHEET_LIMIT {
            return Err(Fault::unplaced(Reason::Slip));
        }
        if !is_left(lines) {
            return Err(Fault::unplaced(Reason::Nest));
        }
        self.lines = lines;
        Ok(())
    }
}

// Lines of a sheet, and blanks past the most that a sheet has.
fn is_left(lines: &[SwitchLine]) -> bool
    requires { sheet_limit ≤ length lines.now }
    ensures value { result ≡ is_left lines.now }
    ensures fit { result ≡ true → All Fit lines.now }
{
    all_fit(lines) && all_blank(&lines[SHEET_LIMIT..])
}

fn all_fit(lines: &[SwitchLine]) -> bool
    ensures value { result ≡ all_fit lines.now }
    ensures fit { result ≡ true → All Fit lines.now }
{
    lines.iter().all(|line| is_fit(*line))
}

// One line, as of other tables elsewhere: a generic one would have no crate of its own.
fn all_blank(lines: &[SwitchLine]) -> bool
    ensures { result ≡ all_blank lines.now }
{
    lines.iter().all(|line| *line == SwitchLine::BLANK)
}

// A line that a sheet may hold.
fn is_fit(line: SwitchLine) -> bool
    ensures value { result ≡ is_fit line }
    ensures fit { result ≡ true → Fit line }
{
    line.channel < 16 && line.low <= line.high && is_made(line.out, line.value)
}

fn is_made(out: Option<u8>, value: u32) -> bool
    ensures { result ≡ is_made out value }
{
    match out {
        None => value == 0,
        Some(channel) => (16..=31).contains(&channel),
    }
}
