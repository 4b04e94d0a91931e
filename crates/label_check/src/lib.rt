// The label check: whether a loaded program keeps the label rule, in any scheme of levels.
#![tactic(auto)]

ghost use Rattle.std.specs.Prelude.{◌≡◌};
ghost use Rattle.loader.specs.Loading.{rows_of, terms_of, program_in};
ghost use Rattle.label_check.specs.Checked.{checked, Exact};

mod check;
mod joins;
mod level;
mod raise;
mod table;

use check::check_rows;
use fault::{Fault, Reason};
use levels::Scheme;
use loader::Program;
use sheet::LevelSheet;
use table::Table;

// Checks a program against the label rule. A refusal names the first row that breaks it.
// Scheme and sheet are two parameters, since a sheet that the scheme lacks levels for is refused here.
pub fn check_labels<S: Scheme>(
    scheme: &S,
    sheet: &LevelSheet,
    program: &Program<'_>,
) -> Result<(), Fault>
    ensures value { result ≡ checked (S.levels scheme.now) sheet.now (rows_of program.now) (terms_of program.now) }
    ensures exact { Exact (S.levels scheme.now) sheet.now (program_in program.now) result }
{
    let table = Table::new(scheme, sheet)?;
    match check_rows(&table, &program.tables()) {
        Ok(()) => Ok(()),
        Err(leak) => Err(Fault {
            reason: Reason::Leak,
            line: leak.row as u16 + 1,
            field: 0,
        }),
    }
}
