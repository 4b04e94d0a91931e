// Whether a row's terms are those that its kind wants.
ghost use Rattle.std.specs.Prelude.{◌≡◌};
ghost use Rattle.flat_form.specs.Fitting.{fits_term, expressed, fits_kind};

use program::{EXPRESSION_LIMIT, Kind, Term};

fn fits_term(term: Term) -> bool
    ensures { result ≡ fits_term term }
{
    match term {
        Term::Variable(v) => v <= 15,
        _ => true,
    }
}

// The terms are one expression, in prefix order. It counts the lacking parts itself, as the reader of a line does: a line's fields may end, terms do not.
#[tactic(auto, using(crate::proofs::Expressed::stops))]
fn is_expression(terms: &[Term]) -> bool
    ensures { result ≡ expressed terms.now }
{
    if terms.len() > EXPRESSION_LIMIT {
        return false;
    }
    let mut lacking: usize = 1;
    for &term in terms {
        if lacking == 0 || !fits_term(term) {
            return false;
        }
        lacking = lacking - 1 + term.arity();
    }
    lacking == 0
}

pub fn fits(kind: Kind, terms: &[Term]) -> bool
    ensures { result ≡ fits_kind kind terms.now }
{
    match kind {
        Kind::Skip | Kind::Else | Kind::Close | Kind::Handler(0..=15) => terms.is_empty(),
        Kind::If | Kind::While | Kind::Assign(0..=15) | Kind::Output(16..=31) => {
            is_expression(terms)
        }
        _ => false,
    }
}
