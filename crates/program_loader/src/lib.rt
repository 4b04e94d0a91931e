// The text of a site program, read into lent tables and loaded from them.
#![tactic(auto)]

ghost use Rattle.std.specs.Prelude.{◌≡◌};
ghost use Rattle.program.specs.Reading.{reading};
ghost use Rattle.program_loader.specs.Loading.{told};

use fault::Fault;
use loader::Program;
use program::{ROW_LIMIT, Row, TERM_LIMIT, Term, read_program};

// The program that the text is read as, in the lent tables. They go into the answer, so that no clause can say what a refusal leaves there.
pub fn load_program<'a>(
    text: &[u8],
    rows: &'a mut [Row; ROW_LIMIT],
    terms: &'a mut [Term; TERM_LIMIT],
) -> Result<Program<'a>, Fault>
    ensures { told result ≡ reading text.now }
{
    read_program(text, rows, terms)?;
    let mut program = Program::empty();
    program.load(rows, terms)?;
    Ok(program)
}
