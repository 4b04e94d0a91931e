// The reader of a site program: lines `H,channel`, `A,variable,expression`, `O,channel,expression`, `S`, `I,expression`, `W,expression`, `E` and `X`.
ghost use Rattle.std.specs.Prelude.{◌≡◌, ◌+◌, ◌≤◌, length, drop, replicate, OnOk};
ghost use Rattle.text.specs.Building.{two_steps};
ghost use Rattle.program.specs.Lines.{parse};
ghost use Rattle.program.specs.Building.{blank_row, blank_term, build};
ghost use Rattle.program.specs.Laws.{Accepts};
ghost use Rattle.program.specs.Progress.{so_far, GoesOn};
ghost use Rattle.program.specs.Reading.{reading, answer, rows_after, terms_after, Filled};

use crate::add::{ROW_LIMIT, TERM_LIMIT};
use crate::line::read_line;
use crate::nest::Nesting;
use crate::rows::{Row, Term};
use crate::terms::Expression;
use fault::{Fault, Reason};
use text::{Line, Lines, placed};

// How far lent rows and terms are filled. A struct that held the tables too would promise with each method that they are still the same.
#[derive(Drop)]
struct Progress {
    nesting: Nesting,
    // How many terms there are.
    used: usize,
}

impl Progress {
    // One more line, into the next places.
    fn put(&mut self, line: Line<'_>, rows: &mut [Row], terms: &mut [Term]) -> Result<(), Fault>
        requires few { self.old.used ≤ 512 }
        // At least so many: rows and terms are lent in any length from there on.
        requires room { (128 ≤ length rows.old) × (512 ≤ length terms.old) }
        ensures value { GoesOn (two_steps parse build (so_far self.old rows.old terms.old) line.entry.number line.entry.bytes.now) result (so_far self.new rows.new terms.new) }
        ensures count { OnOk result (self.new.nesting.count ≡ self.old.nesting.count + 1) }
        ensures rows { drop (self.old.nesting.count + 1) rows.new ≡ drop (self.old.nesting.count + 1) rows.old }
        ensures terms { drop self.new.used terms.new ≡ drop self.new.used terms.old }
        ensures room { OnOk result ((self.old.used ≤ self.new.used) × (self.new.used ≤ 512)) }
    {
        let mut expression = Expression::new();
        let kind = read_line(line, &mut expression)?;
        let row = Row {
            kind,
            first: self.used as u16,
            count: expression.len() as u8,
            partner: 0,
        };
        self.nesting.add(rows, row, line.number)?;
        let end = self.used + expression.len();
        terms[self.used..end].copy_from_slice(&expression);
        self.used = end;
        Ok(())
    }
}

// The lines of a text, each into its places of blank tables.
fn fill_tables(text: &[u8], rows: &mut [Row], terms: &mut [Term]) -> Result<usize, Fault>
    requires room { (128 ≤ length rows.old) × (512 ≤ length terms.old) }
    requires blank { (rows.old ≡ replicate (length rows.old) blank_row) × (terms.old ≡ replicate (length terms.old) blank_term) }
    ensures { Filled (reading text.now) result rows.new terms.new }
{
    let mut progress = Progress {
        nesting: Nesting::new(),
        used: 0,
    };
    for line in Lines::new(text)? {
        progress.put(line?, rows, terms)?;
    }
    let count = progress.nesting.count();
    if progress.nesting.is_open() {
        return Err(placed(Reason::Nest, count as u16 + 1, 0));
    }
    Ok(count)
}

// The program that a text is the writing of, as its flat form in at least 128 lent rows and 512 lent terms; the answer counts the rows, since more rows may be lent than it has.
pub fn read_program(text: &[u8], rows: &mut [Row], terms: &mut [Term]) -> Result<usize, Fault>
    ensures value { result ≡ answer text.now rows.old terms.old }
    ensures rows { rows.new ≡ rows_after text.now rows.old terms.old }
    ensures terms { terms.new ≡ terms_after text.now rows.old terms.old }
    ensures accepts { Accepts text.now rows.old terms.old result rows.new terms.new }
{
    if rows.len() < ROW_LIMIT || terms.len() < TERM_LIMIT {
        return Err(Fault::unplaced(Reason::Slip));
    }
    rows.fill(Row::BLANK);
    terms.fill(Term::BLANK);
    let read = fill_tables(text, rows, terms);
    // Each reader wipes what it was lent, in a line for each place.
    if read.is_err() {
        rows.fill(Row::BLANK);
        terms.fill(Term::BLANK);
    }
    read
}
