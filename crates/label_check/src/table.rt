// The levels that a check reads: the joins of a scheme, copied into a table, and a sheet.
ghost use Rattle.std.specs.Prelude.{ℕ, ◌<◌, slice_index};
ghost use Rattle.sheet.specs.Sheets.{channel_level};
ghost use Rattle.label_check.specs.Joins.{entry};

use crate::joins::join_table;
use crate::level::Level;
use fault::Fault;
use levels::Scheme;
use sheet::LevelSheet;

#[derive(Clone, Copy)]
pub struct Table {
    lowest: u8,
    joins: [[u8; 16]; 16],
    sheet: LevelSheet,
    ghost low: { lowest < 16 },
    ghost small: { (a b : ℕ) → a < 16 → b < 16 → entry joins a b < 16 },
    ghost channels: { (c : ℕ) → channel_level sheet c < 16 },
    ghost variables: { (v : ℕ) → slice_index sheet.variables v < 16 },
}

impl Table {
    ghost use Rattle.std.specs.Prelude.{◌≡◌};
    ghost use Rattle.label_check.specs.Tables.{labels_in, levels_in, Copies};

    // Refused where the scheme lacks a level of the sheet.
    pub fn new<S: Scheme>(scheme: &S, sheet: &LevelSheet) -> Result<Table, Fault>
        ensures { Copies (S.levels scheme.now) sheet.now result }
    {
        sheet.check(scheme)?;
        Ok(Table {
            lowest: scheme.lowest(),
            joins: join_table(scheme),
            sheet: *sheet,
        })
    }

    pub fn lowest(&self) -> Level
        ensures { result.number ≡ (levels_in self.now).lowest }
    {
        Level {
            number: self.lowest,
        }
    }

    pub fn channel(&self, channel: u8) -> Level
        ensures { result.number ≡ (labels_in self.now).of_channel channel }
    {
        Level {
            number: self.sheet.channel_level(channel),
        }
    }

    // A variable is a plain number, as lent rows and terms have it.
    pub fn variable(&self, variable: u8) -> Level
        requires { variable < 16 }
        ensures { result.number ≡ (labels_in self.now).of_variable variable }
    {
        Level {
            number: self.sheet.variables[variable as usize],
        }
    }

    pub fn join(&self, a: Level, b: Level) -> Level
        ensures { result.number ≡ (levels_in self.now).join a.number b.number }
    {
        Level {
            number: self.joins[a.number as usize][b.number as usize],
        }
    }

    // A level is at or below another if their join is the other.
    pub fn at_or_below(&self, a: Level, b: Level) -> bool
        ensures { result ≡ (levels_in self.now).below a.number b.number }
    {
        self.join(a, b) == b
    }
}
