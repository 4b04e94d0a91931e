// The fields of a line, taken from the left.
ghost use Rattle.std.specs.Prelude.{◌≡◌, ◌≤◌, IfOk};
ghost use Rattle.text.specs.Fields.{bytes_if_any, FormedIfAny};
ghost use Rattle.text.specs.Pieces.{pieces};
ghost use Rattle.text.specs.Places.{field_at};
ghost use Rattle.text.specs.Reading.{left_of, line_of, head_of, Taken, read_letter, read_number, read_end};

use crate::field::Field;
use crate::line::Line;
use crate::{pieces, places};
use fault::{Fault, Reason};

#[derive(Drop)]
pub struct Fields<'a> {
    rest: Option<&'a [u8]>,
    line: u16,
}

impl<'a> Fields<'a> {
    pub fn new(line: Line<'a>) -> Fields<'a>
        ensures left { left_of result ≡ pieces 44 line.entry.bytes.now }
        ensures line { line_of result ≡ line.entry.number }
    {
        Fields {
            rest: Some(line.bytes),
            line: line.number,
        }
    }

    // The next field, where the line has one more.
    pub fn take(&mut self) -> Option<Field<'a>>
        ensures bytes { bytes_if_any result ≡ head_of (left_of self.old) }
        ensures formed { FormedIfAny result }
        ensures taken { Taken self.old self.new }
    {
        let (part, rest) = pieces::cut(self.rest?, b',');
        self.rest = rest;
        Some(Field::of(part))
    }

    // The refusal of the field at a place; the letter has the place 1. A call names its place, as the tables of formats do.
    pub fn fault(&self, place: u8) -> Fault
        ensures { result ≡ field_at (line_of self.now) place }
    {
        places::placed(Reason::Field, self.line, place)
    }

    // The first field, which is one letter.
    pub fn letter(&mut self) -> Result<char, Fault>
        ensures value { result ≡ read_letter (line_of self.old) (left_of self.old) }
        ensures taken { Taken self.old self.new }
    {
        let letter = self.take().and_then(Field::letter);
        letter.ok_or(places::placed(Reason::Letter, self.line, 1))
    }

    // The field at a place, which is a number from `low` to `high`.
    #[tactic(auto, using(crate::proofs::Forms::number_is_by_bytes))]
    pub fn number(&mut self, place: u8, low: u32, high: u32) -> Result<u32, Fault>
        ensures value { result ≡ read_number (line_of self.old) place low high (left_of self.old) }
        ensures range { IfOk result (λ n. (low ≤ n) × (n ≤ high)) }
        ensures taken { Taken self.old self.new }
    {
        let number = self.take().and_then(|field| field.number(low, high));
        number.ok_or(self.fault(place))
    }

    // The same, in one byte.
    pub fn byte(&mut self, place: u8, low: u8, high: u8) -> Result<u8, Fault>
        ensures value { result ≡ read_number (line_of self.old) place low high (left_of self.old) }
        ensures taken { Taken self.old self.new }
    {
        let n = self.number(place, low as u32, high as u32)?;
        Ok(n as u8)
    }

    // No field is left; `place` is the first surplus one.
    pub fn end(&self, place: u8) -> Result<(), Fault>
        ensures { result ≡ read_end (line_of self.now) place (left_of self.now) }
    {
        if self.rest.is_some() {
            return Err(self.fault(place));
        }
        Ok(())
    }
}
