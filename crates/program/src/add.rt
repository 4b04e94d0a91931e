// One more row behind those before it.
ghost use Rattle.std.specs.Prelude.{◌≡◌, ◌+◌, ◌<◌, ◌≤◌, length, take, drop, [], OnOk, OnErr};
ghost use Rattle.program.specs.Building.{has_handler, is_twice};
ghost use Rattle.program.specs.Nesting.{Builds};

use crate::nest::{Misplaced, Nesting, nest};
use crate::rows::{Kind, Row};
use fault::{Fault, Reason};
use text::placed;

// The most rows and terms of a program.
pub const ROW_LIMIT: usize = 128;

pub const TERM_LIMIT: usize = 512;

// A handler of a channel is among the rows.
fn has_handler(rows: &[Row], channel: u8) -> bool
    ensures { result ≡ has_handler channel rows.now }
{
    rows.iter().any(|row| row.kind.is_handler_of(channel))
}

// The kind is a handler of a channel that has one already.
fn is_second(kind: Kind, rows: &[Row]) -> bool
    ensures { result ≡ is_twice kind rows.now }
{
    match kind {
        Kind::Handler(channel) => has_handler(rows, channel),
        _ => false,
    }
}

impl Nesting {
    // One more row, whose partner is not known yet, from the given line.
    pub fn add(&mut self, rows: &mut [Row], row: Row, line: u16) -> Result<(), Fault>
        // At least 128: rows are lent in any length from there on.
        requires room { 128 ≤ length rows.old }
        requires bare { row.partner ≡ 0 }
        ensures value { Builds rows.old self.old line row result rows.new self.new }
        ensures count { OnOk result (self.new.count ≡ self.old.count + 1) }
        ensures refused { OnErr result (self.new ≡ record { count = self.old.count; stack = [] }) }
        ensures room { OnOk result ((self.old.count < 128) × (row.first + row.count ≤ 512)) }
        ensures rest { drop (self.old.count + 1) rows.new ≡ drop (self.old.count + 1) rows.old }
    {
        let at = self.count;
        let second = is_second(row.kind, &rows[..at]);
        let end = row.first as usize + row.count as usize;
        let fault = match nest(&mut self.open, &mut rows[..at], row.kind) {
            Err(Misplaced) => placed(Reason::Nest, line, 1),
            Ok(()) if second => placed(Reason::Twice, line, 2),
            Ok(()) if at >= ROW_LIMIT || end > TERM_LIMIT => placed(Reason::Full, line, 1),
            Ok(()) => {
                rows[at] = row;
                self.count += 1;
                return Ok(());
            }
        };
        // A refused row leaves none open.
        self.open.clear();
        Err(fault)
    }
}
