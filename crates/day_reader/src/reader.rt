// The reader of a day: text lines `D,channel,value`.
ghost use Rattle.std.specs.Prelude.{◌≡◌, ◌+◌, ◌*◌, ◌≤◌, vec_len, vec_capacity};
ghost use Rattle.parts.specs.Parts.{feeds};
ghost use Rattle.text.specs.Pieces.{pieces};
ghost use Rattle.day_reader.specs.Reading.{line_in, reading};
ghost use Rattle.day_reader.specs.Writing.{ReadingInvertsWriting, ReadingCountsLines};
ghost use Rattle.day_reader.specs.Appending.{answer, Appended, Reads, Accepts};

use crate::error::DayError;
use crate::hand_in::HandIn;
use fault::{Fault, Reason};
use text::{Fields, Line, Lines};

fn read_line(line: Line<'_>) -> Result<HandIn, Fault>
    ensures { result ≡ line_in line.entry.number (pieces 44 line.entry.bytes.now) }
{
    let mut fields = Fields::new(line);
    let 'D' = fields.letter()? else {
        return Err(line.fault(Reason::Letter, 1));
    };
    let channel = fields.byte(2, 0, 255)?;
    let value = fields.number(3, 0, u32::MAX)?;
    fields.end(4)?;
    Ok(HandIn { channel, value })
}

// The records of the lines of a text; where it stops, those before that line stay.
fn append_records(text: &[u8], records: &mut Vec<u8>) -> Result<(), DayError>
    ensures records { Appended text.now records.old result records.new }
    ensures capacity { vec_capacity records.old ≤ vec_capacity records.new }
{
    for line in Lines::new(text)? {
        let hand_in = read_line(line?)?;
        records.extend_from_slice(&hand_in.record())?;
    }
    Ok(())
}

// Appends the record of each line of the day that a text is the writing of; else the records are as they were.
pub fn read_day(text: &[u8], records: &mut Vec<u8>) -> Result<(), DayError>
    ensures reads { Reads text.now records.old result records.new }
    ensures answer { vec_len records.old + 8 * feeds text.now ≤ vec_capacity records.old → result ≡ answer (reading text.now) }
    ensures accepts { Accepts text.now records.old result records.new }
    ensures capacity { vec_capacity records.old ≤ vec_capacity records.new }
{
    let before = records.len();
    let read = append_records(text, records);
    if read.is_err() {
        records.truncate(before);
    }
    read
}

// A theorem: a text is read as some hand-ins exactly if it is the writing of them, and they make a day.
pub fn reading_inverts_writing()
    ensures { ReadingInvertsWriting }
{}

// A theorem: a day has as many hand-ins as its text has line feeds.
#[tactic(auto, using(crate::proofs::Days::reading_counts_lines))]
pub fn reading_counts_lines()
    ensures { ReadingCountsLines }
{}
