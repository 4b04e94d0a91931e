// The terms of one whole expression, in prefix order, and which they are for a row of tables.
ghost use Rattle.interpreter.specs.Sound.{OneExpression};
ghost use Rattle.interpreter.specs.OneProof.{one_expression_prop};

use crate::tables::Tables;
use program::{Row, Term};

#[derive(Clone, Copy)]
pub struct Expression<'a> {
    pub terms: &'a [Term],
    pub ghost whole: { OneExpression terms.now } by { one_expression_prop terms.now },
}

impl<'a> Tables<'a> {
    ghost use Rattle.std.specs.Prelude.{◌≡◌};
    ghost use Rattle.interpreter.specs.Places.{terms_at};
    ghost use Rattle.interpreter.specs.Sound.{Expressed};

    // The expression of a row.
    pub fn expression(&self, row: Row) -> Expression<'a>
        requires { Expressed self.now.terms.now row }
        ensures { result.terms.now ≡ terms_at self.now.terms.now row }
    {
        let first = row.first as usize;
        let end = first + row.count as usize;
        Expression {
            terms: &self.terms[first..end],
        }
    }
}
