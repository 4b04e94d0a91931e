// The reader of a level sheet: text lines `C,channel,level` and `V,variable,level`.
ghost use Rattle.std.specs.Prelude.{◌≡◌, IfOk};
ghost use Rattle.text.specs.Pieces.{pieces};
ghost use Rattle.sheet_reader.specs.Naming.{FitName, given};
ghost use Rattle.sheet_reader.specs.Reading.{line_in, reading, answer, sheet_after, Filled};
ghost use Rattle.sheet_reader.specs.Writing.{Fit, LinesGiveLevels, Accepts, ReadingInvertsWriting};

use crate::line::{NAMES, Name, SheetLine};
use fault::{Fault, Reason};
use levels::Scheme;
use sheet::LevelSheet;
use text::{Fields, Line, Lines};

fn read_line(line: Line<'_>) -> Result<SheetLine, Fault>
    ensures value { result ≡ line_in line.entry.number (pieces 44 line.entry.bytes.now) }
    ensures fit { IfOk result Fit }
{
    let mut fields = Fields::new(line);
    let name = match fields.letter()? {
        'C' => Name::Channel(fields.byte(2, 0, 31)?),
        'V' => Name::Variable(fields.byte(2, 0, 15)?),
        _ => return Err(line.fault(Reason::Letter, 1)),
    };
    let level = fields.byte(3, 0, 255)?;
    fields.end(4)?;
    Ok(SheetLine { name, level })
}

// The level of one name.
fn give(sheet: &mut LevelSheet, name: Name, level: u8)
    requires { FitName name }
    ensures { sheet.new ≡ given sheet.old name level }
{
    match name {
        Name::Channel(channel) => sheet.channels[channel as usize] = level,
        Name::Variable(variable) => sheet.variables[variable as usize] = level,
    }
}

// The levels of the lines of a text; what a refusal leaves in the sheet is open.
fn fill_sheet<S: Scheme>(text: &[u8], scheme: &S, sheet: &mut LevelSheet) -> Result<(), Fault>
    ensures { Filled (S.levels scheme.now).lowest (reading (S.levels scheme.now) text.now) result sheet.new }
{
    let lowest = scheme.lowest();
    *sheet = LevelSheet::uniform(lowest);
    let levels = scheme.count();
    // named[p]: a line named the place p already. An array, as the reader has no heap.
    let mut named = [false; NAMES];
    for line in Lines::new(text)? {
        let line = line?;
        let SheetLine { name, level } = read_line(line)?;
        let place = name.place();
        if named[place] {
            return Err(line.fault(Reason::Twice, 2));
        }
        if level >= levels {
            return Err(line.fault(Reason::Level, 3));
        }
        named[place] = true;
        give(sheet, name, level);
    }
    Ok(())
}

// The sheet that a text is the writing of, with the scheme's lowest level for each name that it lacks.
pub fn read_sheet<S: Scheme>(text: &[u8], scheme: &S, sheet: &mut LevelSheet) -> Result<(), Fault>
    ensures value { result ≡ answer (reading (S.levels scheme.now) text.now) }
    ensures sheet { sheet.new ≡ sheet_after (S.levels scheme.now).lowest (reading (S.levels scheme.now) text.now) }
    ensures accepts { Accepts (S.levels scheme.now) text.now result sheet.new }
{
    let read = fill_sheet(text, scheme, sheet);
    // Each reader wipes what it was lent, in a line for each place.
    if read.is_err() {
        *sheet = LevelSheet::uniform(0);
    }
    read
}

// A theorem: a text is read as some lines exactly if it is the writing of them, and they make a sheet for the scheme.
pub fn reading_inverts_writing()
    ensures { ReadingInvertsWriting }
{}

// A theorem: in the sheet of some lines that have a name each, a line's name has its level, and every other name the lowest.
pub fn lines_give_levels()
    ensures { LinesGiveLevels }
{}
