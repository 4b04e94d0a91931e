// Terms and expressions, read from the fields of a line.
ghost use Rattle.std.specs.Prelude.{◌≡◌, ◌≤◌, []};
ghost use Rattle.text.specs.Fields.{bytes_of, Formed};
ghost use Rattle.text.specs.Reading.{left_of, line_of, head_of, Taken};
ghost use Rattle.program.specs.Terms.{term_in, term_in_head, arity_of, expression_from, unless_refused};

use crate::rows::Term;
use arrayvec::ArrayVec;
use fault::Fault;
use language::Operator;
use text::{Field, Fields, number};

// The most terms of an expression.
pub const EXPRESSION_LIMIT: usize = 15;

pub type Expression = ArrayVec<Term, EXPRESSION_LIMIT>;

fn term(field: Field<'_>) -> Option<Term>
    requires { Formed field }
    ensures { result ≡ term_in (bytes_of field.entry) }
{
    match field {
        Field::Term('x', []) => Some(Term::Input),
        Field::Term('k', digits) => number(digits, 0, u32::MAX).map(Term::Constant),
        Field::Term('v', digits) => number(digits, 0, 15).map(|n| Term::Variable(n as u8)),
        Field::Operator(c) => Operator::try_from(c).ok().map(Term::Operator),
        _ => None,
    }
}

impl Term {
    // How many parts a term wants.
    pub fn arity(self) -> usize
        ensures { result ≡ arity_of self }
    {
        match self {
            Term::Operator(_) => 2,
            _ => 0,
        }
    }
}

// The term that the next field is.
fn next_term(fields: &mut Fields<'_>) -> Option<Term>
    ensures value { result ≡ term_in_head (head_of (left_of fields.old)) }
    ensures taken { Taken fields.old fields.new }
{
    fields.take().and_then(term)
}

// One expression, of which the first field has a place, into lent terms. It counts the lacking parts itself, as the test of filled tables does: fields may end, terms do not.
pub fn expression(fields: &mut Fields<'_>, place: u8, terms: &mut Expression) -> Result<(), Fault>
    requires small { place ≤ 100 }
    requires empty { terms.old.items ≡ [] }
    ensures value { unless_refused result (terms.new.items, left_of fields.new) ≡ expression_from (line_of fields.old) place 1 [] (left_of fields.old) }
    ensures line { line_of fields.new ≡ line_of fields.old }
{
    let mut lacking: usize = 1;
    while lacking > 0 {
        let at = place + terms.len() as u8;
        match next_term(fields) {
            Some(term) if !terms.is_full() => {
                terms.push(term);
                lacking = lacking - 1 + term.arity();
            }
            _ => return Err(fields.fault(at)),
        }
    }
    Ok(())
}
