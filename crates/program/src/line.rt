// A line of a site program: its letter, a variable or channel, and an expression.
ghost use Rattle.std.specs.Prelude.{◌≡◌, ◌≤◌, []};
ghost use Rattle.text.specs.Pieces.{pieces};
ghost use Rattle.text.specs.Reading.{left_of, line_of};
ghost use Rattle.program.specs.Lines.{whole_from, told, aimed_from, alone, line_in};
ghost use Rattle.program.specs.Terms.{unless_refused};

use crate::rows::Kind;
use crate::terms::{Expression, expression};
use fault::{Fault, Reason};
use text::{Fields, Line};

// An expression, and then no field.
fn whole(fields: &mut Fields<'_>, place: u8, terms: &mut Expression) -> Result<(), Fault>
    requires small { place ≤ 100 }
    requires empty { terms.old.items ≡ [] }
    ensures { unless_refused result terms.new.items ≡ whole_from (line_of fields.old) place (left_of fields.old) }
{
    expression(fields, place, terms)?;
    fields.end(place + terms.len() as u8)
}

// A variable or channel, and an expression for it.
fn aimed(fields: &mut Fields<'_>, low: u8, high: u8, terms: &mut Expression) -> Result<u8, Fault>
    requires { terms.old.items ≡ [] }
    ensures { told result terms.new.items ≡ aimed_from (line_of fields.old) low high (left_of fields.old) }
{
    let target = fields.byte(2, low, high)?;
    whole(fields, 3, terms)?;
    Ok(target)
}

// A line of its letter alone.
fn bare(fields: &Fields<'_>, kind: Kind) -> Result<Kind, Fault>
    ensures { told result [] ≡ alone (line_of fields.now) kind (left_of fields.now) }
{
    fields.end(2)?;
    Ok(kind)
}

// One line: its kind, and its expression into lent terms.
pub fn read_line(line: Line<'_>, terms: &mut Expression) -> Result<Kind, Fault>
    requires { terms.old.items ≡ [] }
    ensures { told result terms.new.items ≡ line_in line.entry.number (pieces 44 line.entry.bytes.now) }
{
    let mut fields = Fields::new(line);
    match fields.letter()? {
        'H' => {
            let channel = fields.byte(2, 0, 15)?;
            fields.end(3)?;
            Ok(Kind::Handler(channel))
        }
        'A' => {
            let variable = aimed(&mut fields, 0, 15, terms)?;
            Ok(Kind::Assign(variable))
        }
        'O' => {
            let channel = aimed(&mut fields, 16, 31, terms)?;
            Ok(Kind::Output(channel))
        }
        'S' => bare(&fields, Kind::Skip),
        'I' => {
            whole(&mut fields, 2, terms)?;
            Ok(Kind::If)
        }
        'W' => {
            whole(&mut fields, 2, terms)?;
            Ok(Kind::While)
        }
        'E' => bare(&fields, Kind::Else),
        'X' => bare(&fields, Kind::Close),
        _ => Err(line.fault(Reason::Letter, 1)),
    }
}
