// Folds the terms of an expression, which stand in prefix order, by what an algebra makes of each.
ghost use Rattle.std.specs.Prelude.{◌≡◌, ◌<◌, ◌≤◌, length, drop};
ghost use Rattle.language.specs.Expression.{Expr, input, constant, variable, binary};
ghost use Rattle.program.specs.Trees.{expressions, expression_of};
ghost use Rattle.program.specs.Writing.{InRange};
ghost use Rattle.interpreter.specs.Places.{rest_expressions};

use crate::expression::Expression;
use language::Operator;
use program::Term;

// What the parts of an expression come to.
pub trait Algebra {
    type Value: Copy;

    // A value is what an expression comes to.
    ghost means: { Self → Expr → Self.Value → Type 0 };

    fn input(&self) -> Self::Value
        ensures { means self.now input result };

    fn constant(&self, number: u32) -> Self::Value
        ensures { means self.now (constant number) result };

    fn variable(&self, number: u8) -> Self::Value
        requires { number < 16 }
        ensures { means self.now (variable number) result };

    fn operator(&self, operator: Operator, left: Self::Value, right: Self::Value) -> Self::Value
        ensures { (l r : Expr) → means self.now l left → means self.now r right → means self.now (binary operator l r) result };
}

// Folds the first expression from a place on, and returns the place behind it too.
fn fold_first<A: Algebra>(terms: &[Term], at: usize, algebra: &A) -> (A::Value, usize)
    requires whole { 0 < length (expressions (drop at terms.now)) }
    requires ranged { InRange (expression_of (drop at terms.now)) }
    ensures value { A.means algebra.now (expression_of (drop at terms.now)) result.0 }
    ensures rest { expressions (drop result.1 terms.now) ≡ rest_expressions (expressions (drop at terms.now)) }
    ensures onward { at < result.1 }
    ensures within { result.1 ≤ length terms.now }
{
    match terms[at] {
        Term::Input => (algebra.input(), at + 1),
        Term::Constant(number) => (algebra.constant(number), at + 1),
        Term::Variable(number) => (algebra.variable(number), at + 1),
        Term::Operator(operator) => {
            let (left, middle) = fold_first(terms, at + 1, algebra);
            let (right, end) = fold_first(terms, middle, algebra);
            (algebra.operator(operator, left, right), end)
        }
    }
}

// Folds a whole expression.
pub fn fold_expression<A: Algebra>(expression: Expression<'_>, algebra: &A) -> A::Value
    ensures { A.means algebra.now (expression_of expression.entry.terms.now) result }
{
    let (value, _) = fold_first(expression.terms, 0, algebra);
    value
}
