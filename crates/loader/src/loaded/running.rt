// A loaded program as a reactive machine.
ghost use Rattle.std.specs.Prelude.{◌≡◌};
ghost use Rattle.language.specs.Step.{reaction};
ghost use Rattle.loader.specs.Loading.{rows_of, terms_of, program_in};
ghost use Rattle.loader.specs.Lawful.{program_lawful};

use super::Program;
use interpreter::Tables;
use machine::{Machine, Reaction, Slip, Words};
use ticket::Ticket;

impl<'a> Program<'a> {
    // Its rows and terms, which are sound.
    pub fn tables(&self) -> Tables<'a>
        ensures rows { result.rows.now ≡ rows_of self.now }
        ensures terms { result.terms.now ≡ terms_of self.now }
    {
        Tables {
            rows: self.rows,
            terms: self.terms,
        }
    }
}

impl<'a> Machine for Program<'a> {
    ghost meaning = { λ m. reaction (program_in m) };

    ghost lawful = { λ m. program_lawful m };

    fn react(
        &self,
        words: &mut Words,
        ticket: Ticket,
        allowance: u16,
        slip: &mut Slip,
    ) -> Reaction {
        self.tables().react(words, ticket, allowance, slip)
    }
}
