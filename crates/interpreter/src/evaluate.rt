// The values of expressions in a reaction under way.
ghost use Rattle.std.specs.Prelude.{◌≡◌};
ghost use Rattle.program.specs.Trees.{expression_of};
ghost use Rattle.interpreter.specs.Jobs.{worth};

use crate::expression::Expression;
use crate::fold::{Algebra, fold_expression};
use crate::job::Job;
use language::Operator;

impl Algebra for Job {
    type Value = u32;

    ghost means = { λ j e r. r ≡ worth j e };

    fn input(&self) -> u32 {
        self.input
    }

    fn constant(&self, number: u32) -> u32 {
        number
    }

    fn variable(&self, number: u8) -> u32 {
        self.words[number as usize]
    }

    fn operator(&self, operator: Operator, left: u32, right: u32) -> u32 {
        operator.apply(left, right)
    }
}

impl Job {
    // The value of an expression.
    pub fn evaluate(&self, expression: Expression<'_>) -> u32
        ensures { result ≡ worth self.now (expression_of expression.entry.terms.now) }
    {
        fold_expression(expression, self)
    }
}
