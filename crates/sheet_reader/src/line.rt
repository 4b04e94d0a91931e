// A line of a level sheet.
ghost use Rattle.std.specs.Prelude.{◌≡◌, ◌<◌};
ghost use Rattle.sheet_reader.specs.Naming.{place_of, FitName};

// The places of names: those of the channels, and then those of the 16 variables.
const CHANNELS: usize = 32;

pub const NAMES: usize = 48;

#[derive(Clone, Copy, PartialEq, Eq, Debug)]
pub enum Name {
    Channel(u8),
    Variable(u8),
}

impl Name {
    // The place of a name among all.
    pub(crate) fn place(self) -> usize
        requires { FitName self }
        ensures value { result ≡ place_of self }
        ensures below { result < NAMES }
    {
        match self {
            Name::Channel(channel) => channel as usize,
            Name::Variable(variable) => CHANNELS + variable as usize,
        }
    }
}

#[derive(Clone, Copy, PartialEq, Eq, Debug)]
pub struct SheetLine {
    pub name: Name,
    pub level: u8,
}
