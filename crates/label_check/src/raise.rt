// The levels of expressions in a handler's check.
ghost use Rattle.std.specs.Prelude.{◌≡◌};
ghost use Rattle.program.specs.Trees.{expression_of};
ghost use Rattle.typing.specs.Rule.{level_of, raised};
ghost use Rattle.label_check.specs.Tables.{labels_in};

use crate::check::Check;
use crate::level::Level;
use interpreter::{Algebra, Expression, fold_expression};
use language::Operator;

impl Algebra for Check<'_> {
    type Value = Level;

    ghost means = { λ c e r. r.number ≡ level_of (labels_in c.table.now) c.input.number e };

    fn input(&self) -> Level {
        self.input
    }

    fn constant(&self, _number: u32) -> Level {
        self.table.lowest()
    }

    fn variable(&self, number: u8) -> Level {
        self.table.variable(number)
    }

    fn operator(&self, _operator: Operator, left: Level, right: Level) -> Level {
        self.table.join(left, right)
    }
}

impl Check<'_> {
    // The program counter level pc, raised by an expression.
    pub fn raised(&self, expression: Expression<'_>, pc: Level) -> Level
        ensures { result.number ≡ raised (labels_in self.now.table.now) self.now.input.number pc.number (expression_of expression.entry.terms.now) }
    {
        let level = fold_expression(expression, self);
        self.table.join(pc, level)
    }
}
