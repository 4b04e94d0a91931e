// The reader of a switch sheet: text lines `T,state,channel,low,high,next,out,value`.
ghost use Rattle.std.specs.Prelude.{◌≡◌, ◌≤◌, length, replicate};
ghost use Rattle.text.specs.Pieces.{pieces};
ghost use Rattle.text.specs.Reading.{left_of, line_of, Taken};
ghost use Rattle.switch.specs.Reading.{sheet_limit, blank, read_out, read_rest, line_in, reading, Filled, answer, lines_after};
ghost use Rattle.switch.specs.Writing.{Accepts, ReadingInvertsWriting};

use crate::line::SwitchLine;
use fault::{Fault, Reason};
use text::{Fields, Line, Lines};

// The most lines of a sheet.
pub const SHEET_LIMIT: usize = 64;

// An out channel, 16 to 31, or `-` for none.
#[tactic(auto, using(text::proofs::Forms::dash_is_by_bytes, text::proofs::Forms::number_is_by_bytes))]
fn read_out(fields: &mut Fields<'_>) -> Result<Option<u8>, Fault>
    ensures value { result ≡ read_out (line_of fields.old) (left_of fields.old) }
    ensures taken { Taken fields.old fields.new }
{
    let refused = fields.fault(7);
    let field = fields.take().ok_or(refused)?;
    if field.is_dash() {
        return Ok(None);
    }
    let channel = field.number(16, 31).ok_or(refused)?;
    Ok(Some(channel as u8))
}

// The fields after the letter.
fn read_rest(fields: &mut Fields<'_>) -> Result<SwitchLine, Fault>
    ensures { result ≡ read_rest (line_of fields.old) (left_of fields.old) }
{
    let state = fields.byte(2, 0, 255)?;
    let channel = fields.byte(3, 0, 15)?;
    let low = fields.number(4, 0, u32::MAX)?;
    let high = fields.number(5, low, u32::MAX)?;
    let next = fields.byte(6, 0, 255)?;
    let out = read_out(fields)?;
    let most = match out {
        Some(_) => u32::MAX,
        None => 0,
    };
    let value = fields.number(8, 0, most)?;
    fields.end(9)?;
    Ok(SwitchLine {
        state,
        channel,
        low,
        high,
        next,
        out,
        value,
    })
}

fn read_line(line: Line<'_>) -> Result<SwitchLine, Fault>
    ensures { result ≡ line_in line.entry.number (pieces 44 line.entry.bytes.now) }
{
    let mut fields = Fields::new(line);
    match fields.letter()? {
        'T' => read_rest(&mut fields),
        _ => Err(line.fault(Reason::Letter, 1)),
    }
}

// The lines of a text, each into its place of blank lines; what a refusal leaves there is open.
fn fill_lines(text: &[u8], lines: &mut [SwitchLine]) -> Result<usize, Fault>
    requires room { sheet_limit ≤ length lines.old }
    requires blank { lines.old ≡ replicate (length lines.old) blank }
    ensures { Filled (reading text.now) result lines.new }
{
    // By hand: the count of filled lines is the answer too.
    let mut count = 0;
    for line in Lines::new(text)? {
        let line = line?;
        let read = read_line(line)?;
        if count >= SHEET_LIMIT {
            return Err(line.fault(Reason::Full, 1));
        }
        lines[count] = read;
        count += 1;
    }
    Ok(count)
}

// The sheet that a text is the writing of, in at least 64 lent lines; the answer counts its lines, since more may be lent than it has.
pub fn read_switch(text: &[u8], lines: &mut [SwitchLine]) -> Result<usize, Fault>
    ensures value { result ≡ answer (length lines.old) text.now }
    ensures lines { lines.new ≡ lines_after text.now lines.old }
    ensures accepts { Accepts text.now lines.old result lines.new }
{
    if lines.len() < SHEET_LIMIT {
        return Err(Fault::unplaced(Reason::Slip));
    }
    lines.fill(SwitchLine::BLANK);
    let read = fill_lines(text, lines);
    // Each reader wipes what it was lent, in a line for each place.
    if read.is_err() {
        lines.fill(SwitchLine::BLANK);
    }
    read
}

// A theorem: a text is read as some lines exactly if it is the writing of them, and they make a sheet.
pub fn reading_inverts_writing()
    ensures { ReadingInvertsWriting }
{}
