// A program in lent tables: no value of it exists with an open block, a wrong partner or a broken expression.
ghost use Rattle.std.specs.Prelude.{◌≡◌, true};
ghost use Rattle.flat_form.specs.Extents.{is_program};

use program::{Row, Term};

pub mod load;
pub mod running;

#[derive(Clone, Copy)]
pub struct Program<'a> {
    rows: &'a [Row],
    terms: &'a [Term],
    ghost flat: { is_program rows.now terms.now ≡ true },
}
