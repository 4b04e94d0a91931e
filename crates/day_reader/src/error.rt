// Why no day was read.
ghost use Rattle.std.specs.Prelude.{◌≡◌};
ghost use Rattle.day_reader.specs.declared.error.DayError.TheVariants.{Refused, NoMemory};

use fault::Fault;
use std::alloc::AllocError;

#[derive(Clone, Copy, PartialEq, Eq, Debug)]
pub enum DayError {
    // The text is the writing of no day.
    Refused(Fault),
    // There was no room for the records.
    NoMemory,
}

impl From<Fault> for DayError {
    ghost from_gives = { λ fault r. r ≡ Refused fault };

    fn from(fault: Fault) -> DayError {
        DayError::Refused(fault)
    }
}

impl From<AllocError> for DayError {
    ghost from_gives = { λ _ r. r ≡ NoMemory };

    fn from(_error: AllocError) -> DayError {
        DayError::NoMemory
    }
}
