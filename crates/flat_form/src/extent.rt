// How far lent tables are filled.
ghost use Rattle.std.specs.Prelude.{◌≡◌, ◌≤◌, not, length, IfSome};
ghost use Rattle.flat_form.specs.Extents.{is_blank, extent, all_blank, extents};

use crate::rebuild::used_by;
use program::{ROW_LIMIT, Row, Term};

fn is_filled(row: &Row) -> bool
    ensures { result ≡ not (is_blank row.now) }
{
    *row != Row::BLANK
}

// How many rows there are up to the last that is not blank.
fn extent_of(rows: &[Row]) -> usize
    ensures value { result ≡ extent rows.now }
    ensures within { result ≤ length rows.now }
{
    // Not `map_or`: the proof that the rows behind the last are blank does not close there.
    match rows.iter().rposition(is_filled) {
        Some(last) => last + 1,
        None => 0,
    }
}

// One line, as of other tables elsewhere: a generic one would have no crate of its own.
fn is_all_blank(terms: &[Term]) -> bool
    ensures { result ≡ all_blank terms.now }
{
    terms.iter().all(|term| *term == Term::BLANK)
}

// How many rows and terms of the tables are a program's, where they hold the flat form of one, and blanks behind it.
pub fn extents_of(rows: &[Row], terms: &[Term]) -> Option<(usize, usize)>
    ensures value { result ≡ extents rows.now terms.now }
    ensures within { IfSome result (λ e. (e.0 ≤ length rows.now) × (e.1 ≤ length terms.now)) }
{
    let count = extent_of(rows);
    if count > ROW_LIMIT {
        return None;
    }
    let used = used_by(&rows[..count], terms)?;
    is_all_blank(&terms[used..]).then_some((count, used))
}
