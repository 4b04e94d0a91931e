// The lines of a text, one after the other.
ghost use Rattle.std.specs.Prelude.{◌+◌, ◌≤◌, length};
ghost use Rattle.text.specs.Lines.{text_limit, NextLine};

use crate::line::Line;
use crate::pieces;
use fault::{Fault, Reason};

// The most bytes of a text.
pub const TEXT_LIMIT: usize = 8192;

// What is left of a text behind `count` lines. Each line takes at least one byte, so that its number fits.
#[derive(Drop)]
pub struct Lines<'a> {
    left: &'a [u8],
    count: u16,
    ghost short: { count + length left.now ≤ text_limit },
}

impl<'a> Lines<'a> {
    ghost use Rattle.text.specs.Numbered.{Begun};

    pub fn new(text: &'a [u8]) -> Result<Lines<'a>, Fault>
        ensures { Begun text.now result }
    {
        if text.len() > TEXT_LIMIT {
            return Err(Fault::unplaced(Reason::Overlong));
        }
        Ok(Lines {
            left: text,
            count: 0,
        })
    }
}

impl<'a> Iterator for Lines<'a> {
    ghost use Rattle.std.specs.Iterator.{item_count};
    ghost use Rattle.text.specs.Numbered.{GivesLine, bytes_left};

    type Item = Result<Line<'a>, Fault>;

    ghost next_gives = { GivesLine };

    ghost remaining = { item_count bytes_left };

    // A line that is refused is the last.
    fn next(&mut self) -> Option<Result<Line<'a>, Fault>> {
        let number = self.count + 1;
        match next_line(self.left, number) {
            Ok(Some((bytes, rest))) => {
                self.left = rest;
                self.count = number;
                Some(Ok(Line { bytes, number }))
            }
            Ok(None) => None,
            Err(fault) => {
                self.left = &[];
                Some(Err(fault))
            }
        }
    }
}

// The first line of what is left of a text, and what follows it; none where nothing is left.
pub fn next_line<'a>(left: &'a [u8], number: u16) -> Result<Option<(&'a [u8], &'a [u8])>, Fault>
    ensures { NextLine number left.now result }
{
    if left.is_empty() {
        return Ok(None);
    }
    let (bytes, rest) = pieces::cut(left, b'\n');
    let line = Line { bytes, number };
    match rest {
        Some(rest) if line.is_clean() => Ok(Some((bytes, rest))),
        _ => Err(line.fault(Reason::Ragged, 0)),
    }
}
