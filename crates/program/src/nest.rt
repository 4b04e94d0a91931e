// Which rows are open, and the partners that are written where one closes.
ghost use Rattle.std.specs.Prelude.{◌≡◌, ◌+◌, ◌≤◌, ◌==◌, not, [], reverse, length, OnOk};
ghost use Rattle.program.specs.Building.{nested};
ghost use Rattle.program.specs.Nesting.{Nests};
ghost use Rattle.program.specs.Open.{Among};

use crate::rows::{Kind, Row};
use arrayvec::ArrayVec;
use std::marker::Model;

// A row of a kind that may not come where it does.
#[derive(Clone, Copy, PartialEq, Eq, Debug)]
pub(crate) struct Misplaced;

// How many rows there are, and which of them are open: a handler and at most eight blocks in it.
#[derive(Drop)]
pub struct Nesting {
    pub(crate) count: usize,
    pub(crate) open: ArrayVec<u8, 9>,
}

impl Model for Nesting {
    ghost use Rattle.std.specs.Prelude.{◌≤◌, reverse};
    ghost use Rattle.program.specs.Open.{Open, Among};

    ghost Value = { Open };

    ghost view = { λ n. record { count = n.count; stack = reverse n.«open».items } };

    ghost invariant = { λ n. (n.count ≤ 128) × Among n.count (reverse n.«open».items) };
}

impl Nesting {
    pub fn new() -> Nesting
        ensures { result ≡ record { count = 0; stack = [] } }
    {
        Nesting {
            count: 0,
            open: ArrayVec::new(),
        }
    }

    pub(crate) fn count(&self) -> usize
        ensures value { result ≡ self.now.count }
        ensures few { result ≤ 128 }
    {
        self.count
    }

    // A row is open.
    pub fn is_open(&self) -> bool
        ensures { result ≡ not (length self.now.stack == 0) }
    {
        !self.open.is_empty()
    }
}

// The rows that are open behind one more row, of a kind, in place of those that were. A refused row may leave any of them.
pub(crate) fn nest(
    open: &mut ArrayVec<u8, 9>,
    rows: &mut [Row],
    kind: Kind,
) -> Result<(), Misplaced>
    requires few { length rows.old ≤ 128 }
    requires among { Among (length rows.old) (reverse «open».old.items) }
    ensures value { Nests (nested rows.old (reverse «open».old.items) (length rows.old) kind) result rows.new (reverse «open».new.items) }
    ensures among { OnOk result (Among (length rows.old + 1) (reverse «open».new.items)) }
{
    let at = rows.len() as u8;
    match kind {
        Kind::Skip | Kind::Assign(_) | Kind::Output(_) if !open.is_empty() => {}
        Kind::Handler(_) if open.is_empty() => open.push(at),
        Kind::If | Kind::While if !open.is_empty() && !open.is_full() => open.push(at),
        Kind::Else => {
            let top = open.pop().ok_or(Misplaced)? as usize;
            if rows[top].kind != Kind::If {
                return Err(Misplaced);
            }
            rows[top].partner = at;
            open.push(at);
        }
        Kind::Close => rows[open.pop().ok_or(Misplaced)? as usize].partner = at,
        // Also a row whose guard above failed.
        _ => return Err(Misplaced),
    }
    Ok(())
}
