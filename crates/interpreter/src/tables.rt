// A site program's rows, run by functions that call each other: a block, a row with the blocks that it opens, a repeat.
ghost use Rattle.interpreter.specs.Sound.{Sound};
ghost use Rattle.interpreter.specs.OneProof.{sound_prop};

use crate::expression::Expression;
use crate::job::{Job, Stalled};
use program::{Kind, Row, Term};

// Rows and terms whose expressions are whole, and whose partners are where blocks end.
#[derive(Clone, Copy)]
pub struct Tables<'a> {
    pub rows: &'a [Row],
    pub terms: &'a [Term],
    pub ghost sound: { Sound rows.now terms.now } by { sound_prop rows.now terms.now },
}

// A place is a plain number: in a type of its own, each step to the next would be a proof that it is inside a block.
impl Tables<'_> {
    ghost use Rattle.std.specs.Prelude.{◌≡◌, ◌+◌, ◌<◌, length};
    ghost use Rattle.program.specs.Trees.{expression_of};
    ghost use Rattle.interpreter.specs.Jobs.{Runs};
    ghost use Rattle.interpreter.specs.Places.{frames_at, next_at, block_at, row_at, repeat_at};

    // The row behind a row and the blocks that it opens.
    fn after(&self, at: usize) -> usize
        requires { at < length self.now.rows.now }
        ensures { result ≡ next_at self.now.rows.now at }
    {
        let row = self.rows[at];
        let end = row.partner as usize;
        match row.kind {
            Kind::If if self.rows[end].kind == Kind::Else => self.rows[end].partner as usize + 1,
            Kind::If | Kind::While => end + 1,
            _ => at + 1,
        }
    }

    // Runs what is left of a block, from a row on.
    #[cycle(run)]
    pub(crate) fn block(&self, from: usize, job: &mut Job) -> Result<(), Stalled>
        requires within { from < length self.now.rows.now }
        requires inside { 0 < length (frames_at self.now.rows.now self.now.terms.now from) }
        ensures { Runs job.old (block_at self.now.rows.now self.now.terms.now from) result job.new }
    {
        // By place: the row behind a row may be blocks away.
        let mut at = from;
        while !matches!(self.rows[at].kind, Kind::Else | Kind::Close) {
            self.row(at, job)?;
            at = self.after(at);
        }
        Ok(())
    }

    // Runs a row, with the blocks that it opens.
    #[cycle(run)]
    fn row(&self, at: usize, job: &mut Job) -> Result<(), Stalled>
        requires within { at < length self.now.rows.now }
        requires inside { 0 < length (frames_at self.now.rows.now self.now.terms.now at) }
        ensures { Runs job.old (row_at self.now.rows.now self.now.terms.now at) result job.new }
    {
        let row = self.rows[at];
        match row.kind {
            Kind::Skip => job.spend(),
            Kind::Assign(variable) => job.store(variable, self.expression(row)),
            Kind::Output(channel) => job.send(channel, self.expression(row)),
            Kind::If => {
                job.spend()?;
                let end = row.partner as usize;
                if job.evaluate(self.expression(row)) != 0 {
                    self.block(at + 1, job)
                } else if self.rows[end].kind == Kind::Else {
                    self.block(end + 1, job)
                } else {
                    Ok(())
                }
            }
            Kind::While => self.turns(self.expression(row), at + 1, job),
            Kind::Handler(_) | Kind::Else | Kind::Close => Ok(()),
        }
    }

    // Runs what is left of a block, from a row on, again and again, while a test holds.
    #[cycle(run)]
    fn turns(&self, test: Expression<'_>, from: usize, job: &mut Job) -> Result<(), Stalled>
        requires within { from < length self.now.rows.now }
        requires inside { 0 < length (frames_at self.now.rows.now self.now.terms.now from) }
        ensures { Runs job.old (repeat_at self.now.rows.now self.now.terms.now (expression_of test.entry.terms.now) from) result job.new }
    {
        loop {
            job.spend()?;
            if job.evaluate(test) == 0 {
                return Ok(());
            }
            self.block(from, job)?;
        }
    }
}
