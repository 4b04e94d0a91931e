// Rows built once more from their own kinds and terms, and compared with what comes out.
ghost use Rattle.std.specs.Prelude.{◌≡◌, ◌≤◌, length, IfSome};
ghost use Rattle.flat_form.specs.Rebuilding.{fitted, same_partners, used_by};

use crate::fit::fits;
use program::{Nesting, ROW_LIMIT, Row, Term};

// The row's terms begin where those of the row before end, are there, and are those that its kind wants.
fn is_fitted(row: Row, used: usize, terms: &[Term]) -> bool
    ensures { result ≡ fitted terms.now used row }
{
    let first = row.first as usize;
    let end = first + row.count as usize;
    first == used && end <= terms.len() && fits(row.kind, &terms[first..end])
}

fn has_same_partners(rows: &[Row], own: &[Row]) -> bool
    requires { length rows.now ≤ length own.now }
    ensures { result ≡ same_partners rows.now own.now }
{
    rows.iter()
        .zip(own)
        .all(|(row, made)| row.partner == made.partner)
}

// How many of the terms the rows use, where they are the rows of a program.
pub fn used_by(rows: &[Row], terms: &[Term]) -> Option<usize>
    requires { length rows.now ≤ 128 }
    ensures value { result ≡ used_by rows.now terms.now }
    ensures within { IfSome result (λ m. m ≤ length terms.now) }
{
    let mut own = [Row::BLANK; ROW_LIMIT];
    let mut nesting = Nesting::new();
    let mut used = 0;
    // Not `zip(1..)`: a row is told by its place, and behind a zip each exit wants a proof of that place.
    for (j, &row) in rows.iter().enumerate() {
        if !is_fitted(row, used, terms) {
            return None;
        }
        let bare = Row { partner: 0, ..row };
        nesting.add(&mut own, bare, j as u16 + 1).ok()?;
        used += row.count as usize;
    }
    if nesting.is_open() || !has_same_partners(rows, &own[..rows.len()]) {
        return None;
    }
    Some(used)
}
