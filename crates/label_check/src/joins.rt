// The joins of all levels of a scheme, as a table.
ghost use Rattle.label_check.specs.Joins.{Filled};

use levels::Scheme;

pub fn join_table<S: Scheme>(scheme: &S) -> [[u8; 16]; 16]
    ensures { Filled (S.levels scheme.now) result (S.levels scheme.now).count 0 }
{
    let mut joins = [[0; 16]; 16];
    let count = scheme.count();
    // By index: the scheme is asked of the levels a and b.
    for a in 0..count {
        for b in 0..count {
            if let Some(join) = scheme.join(a, b) {
                joins[a as usize][b as usize] = join;
            }
        }
    }
    joins
}
