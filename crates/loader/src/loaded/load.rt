// Filled tables are put into a lent machine.
ghost use Rattle.std.specs.Prelude.{◌≡◌, []};
ghost use Rattle.loader.specs.Laws.{EveryProgramKeepsItsForm};
ghost use Rattle.loader.specs.Loading.{rows_of, terms_of, answer, Holds, Accepts};

use crate::loaded::Program;
use fault::{Fault, Reason};
use flat_form::extents_of;
use program::{ROW_LIMIT, Row, TERM_LIMIT, Term};

impl<'a> Program<'a> {
    // The program that has no handler.
    pub fn empty() -> Program<'a>
        ensures rows { rows_of result ≡ [] }
        ensures terms { terms_of result ≡ [] }
    {
        Program {
            rows: &[],
            terms: &[],
        }
    }

    pub fn rows(&self) -> &'a [Row]
        ensures { result.now ≡ rows_of self.now }
    {
        self.rows
    }

    pub fn terms(&self) -> &'a [Term]
        ensures { result.now ≡ terms_of self.now }
    {
        self.terms
    }

    // Takes at least 128 lent rows and 512 lent terms for a program; a refusal leaves the one before.
    pub fn load(&mut self, rows: &'a [Row], terms: &'a [Term]) -> Result<(), Fault>
        ensures value { result ≡ answer rows.now terms.now }
        ensures holds { Holds rows.now terms.now self.old result self.new }
        ensures accepts { Accepts rows.now terms.now result self.new }
    {
        if rows.len() < ROW_LIMIT || terms.len() < TERM_LIMIT {
            return Err(Fault::unplaced(Reason::Slip));
        }
        let Some((count, used)) = extents_of(rows, terms) else {
            return Err(Fault::unplaced(Reason::Nest));
        };
        *self = Program {
            rows: &rows[..count],
            terms: &terms[..used],
        };
        Ok(())
    }
}

// A theorem: every loaded program keeps its limits, and its rows and terms are its flat form.
pub fn every_program_keeps_its_form()
    ensures { EveryProgramKeepsItsForm }
{}
