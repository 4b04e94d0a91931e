// The scan of a program's rows: a block, and a row with the block that it opens, call each other.
ghost use Rattle.std.specs.Prelude.{◌≡◌, ◌+◌, ◌<◌, ◌≤◌, ◌≢◌, length, slice_index_or};
ghost use Rattle.program.specs.declared.rows.Kind.TheVariants as kind;
ghost use Rattle.program.specs.Building.{blank_row, lines_from};
ghost use Rattle.program.specs.Trees.{expression_of};
ghost use Rattle.label_check.specs.Rows.{first_leak};
ghost use Rattle.label_check.specs.Tables.{labels_in, found, told, ChecksBlock, ChecksRow, Onward, Among};

use crate::level::Level;
use crate::table::Table;
use interpreter::{Expression, Tables};
use program::Kind;

// A row that breaks the rule.
#[derive(Clone, Copy, PartialEq, Eq, Debug)]
pub struct Leak {
    pub row: usize,
}

// The check of a handler, whose input has a level.
#[derive(Clone, Copy)]
pub struct Check<'a> {
    pub table: &'a Table,
    pub program: Tables<'a>,
    pub input: Level,
}

// pc is the program counter level of a row or block: the join of the levels of the handler's channel and of the tests around it.
impl Check<'_> {
    // Checks what a row tells its target by its expression. Returns the row behind it.
    fn tell(
        &self,
        at: usize,
        expression: Expression<'_>,
        pc: Level,
        target: Level,
    ) -> Result<usize, Leak>
        requires { at < usize.MAX }
        ensures { result ≡ told self.now (expression_of expression.entry.terms.now) pc.number target.number at }
    {
        let told = self.raised(expression, pc);
        if self.table.at_or_below(told, target) {
            Ok(at + 1)
        } else {
            Err(Leak { row: at })
        }
    }

    // Checks what is left of a block, from a row on. Returns the row behind it.
    #[cycle(check)]
    fn block(&self, from: usize, pc: Level) -> Result<usize, Leak>
        requires { from ≤ length self.now.program.rows.now }
        ensures leak { ChecksBlock self.now pc.number from result }
        ensures place { Onward from (length self.now.program.rows.now) result }
    {
        // By place: the row behind a row may be a block away.
        let mut at = from;
        while at < self.program.rows.len() {
            if self.program.rows[at].kind == Kind::Close {
                return Ok(at + 1);
            }
            at = self.row(at, pc)?;
        }
        Ok(at)
    }

    // Checks a row, with the block that it opens. Returns the row behind it.
    #[cycle(check)]
    fn row(&self, at: usize, pc: Level) -> Result<usize, Leak>
        requires within { at < length self.now.program.rows.now }
        requires inside { (slice_index_or self.now.program.rows.now at blank_row).kind ≢ kind.Close }
        ensures leak { ChecksRow self.now pc.number at result }
        ensures place { Onward (at + 1) (length self.now.program.rows.now) result }
    {
        let row = self.program.rows[at];
        match row.kind {
            Kind::Assign(variable) => self.tell(
                at,
                self.program.expression(row),
                pc,
                self.table.variable(variable),
            ),
            Kind::Output(channel) => self.tell(
                at,
                self.program.expression(row),
                pc,
                self.table.channel(channel),
            ),
            Kind::If | Kind::While => self.block(
                at + 1,
                self.raised(self.program.expression(row), pc),
            ),
            Kind::Skip | Kind::Handler(_) | Kind::Else | Kind::Close => Ok(at + 1),
        }
    }
}

// Checks all rows. A refusal has the first that breaks the rule.
pub fn check_rows(table: &Table, program: &Tables<'_>) -> Result<(), Leak>
    ensures value { found result ≡ first_leak (labels_in table.now) (lines_from program.now.rows.now program.now.terms.now) }
    ensures place { Among (length program.now.rows.now) result }
{
    // By place: the row behind a handler is a block away.
    let mut at = 0;
    while at < program.rows.len() {
        match program.rows[at].kind {
            Kind::Handler(channel) => {
                let input = table.channel(channel);
                let check = Check {
                    table,
                    program: *program,
                    input,
                };
                at = check.block(at + 1, input)?;
            }
            _ => at += 1,
        }
    }
    Ok(())
}
