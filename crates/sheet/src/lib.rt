// The levels of channels and variables.
#![tactic(auto)]

ghost use Rattle.std.specs.Prelude.{◌≡◌};
ghost use Rattle.sheet.specs.Sheets.{uniform, channel_level, each_below, checked};

use fault::{Fault, Reason};
use levels::Scheme;

#[derive(Clone, Copy, PartialEq, Eq, Debug)]
pub struct LevelSheet {
    pub channels: [u8; 32],
    pub variables: [u8; 16],
}

impl LevelSheet {
    // Every channel and every variable at one level.
    pub fn uniform(level: u8) -> LevelSheet
        ensures { result ≡ uniform level }
    {
        LevelSheet {
            channels: [level; 32],
            variables: [level; 16],
        }
    }

    // A number that is no channel has level 0, so that every call has an answer.
    pub fn channel_level(&self, channel: u8) -> u8
        ensures { result ≡ channel_level self.now channel }
    {
        self.channels.get(channel as usize).copied().unwrap_or(0)
    }

    // Refused where the scheme lacks a level of the sheet.
    pub fn check<S: Scheme>(&self, scheme: &S) -> Result<(), Fault>
        ensures { result ≡ checked (S.levels scheme.now) self.now }
    {
        let count = scheme.count();
        if each_below(count, &self.channels) && each_below(count, &self.variables) {
            Ok(())
        } else {
            Err(Fault::unplaced(Reason::Level))
        }
    }
}

fn each_below(count: u8, levels: &[u8]) -> bool
    ensures { result ≡ each_below count levels.now }
{
    levels.iter().all(|level| *level < count)
}
