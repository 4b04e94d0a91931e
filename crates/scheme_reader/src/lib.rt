// The reader of a scheme: a text of one line, `chain,n` or `parties,n`.
#![tactic(auto)]

ghost use Rattle.std.specs.Prelude.{◌≡◌, IfOk};
ghost use Rattle.text.specs.Pieces.{pieces};
ghost use Rattle.text.specs.Reading.{line_of, left_of};
ghost use Rattle.scheme_reader.specs.Reading.{told, size_in, line_in, only_line, seen, reading};
ghost use Rattle.scheme_reader.specs.Writing.{ReadingInvertsWriting, Accepts};

use fault::{Fault, Reason};
use levels::{Chain, Parties};
use text::{Field, Fields, Line, Lines};

#[derive(Clone, Copy, PartialEq, Eq, Debug)]
pub enum SchemeChoice {
    Chain(Chain),
    Parties(Parties),
}

// The field behind the word, which is the last one.
fn read_size(fields: &mut Fields<'_>) -> Result<u8, Fault>
    requires { line_of fields.old ≡ 1 }
    ensures { result ≡ size_in (left_of fields.old) }
{
    let size = fields.byte(2, 0, 255)?;
    fields.end(3)?;
    Ok(size)
}

fn read_line(line: Line<'_>) -> Result<SchemeChoice, Fault>
    requires { line.number ≡ 1 }
    ensures { told result ≡ line_in (pieces 44 line.entry.bytes.now) }
{
    let mut fields = Fields::new(line);
    let word = fields.take();
    let choice = if word == Some(Field::Other(b"chain")) {
        Chain::new(read_size(&mut fields)?).map(SchemeChoice::Chain)
    } else if word == Some(Field::Other(b"parties")) {
        Parties::new(read_size(&mut fields)?).map(SchemeChoice::Parties)
    } else {
        return Err(line.fault(Reason::Letter, 1));
    };
    choice.or(Err(line.fault(Reason::Level, 2)))
}

// The one line of a text. Where there are fewer lines or more, the refusal has no place.
fn only_line(text: &[u8]) -> Result<Line<'_>, Fault>
    ensures value { seen result ≡ only_line text.now }
    ensures first { IfOk result (λ line. line.number ≡ 1) }
{
    let mut lines = Lines::new(text)?;
    let line = lines.next().ok_or(Fault::unplaced(Reason::Field))??;
    if lines.next().is_some() {
        return Err(Fault::unplaced(Reason::Field));
    }
    Ok(line)
}

// The scheme that a text of one line names.
pub fn read_scheme(text: &[u8]) -> Result<SchemeChoice, Fault>
    ensures value { told result ≡ reading text.now }
    ensures accepts { Accepts text.now result }
{
    read_line(only_line(text)?)
}

// A theorem: a text is read as a scheme exactly if it is the writing of it, and there is one of that size.
pub fn reading_inverts_writing()
    ensures { ReadingInvertsWriting }
{}
