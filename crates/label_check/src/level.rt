// A level of a scheme, by its number.
ghost use Rattle.std.specs.Prelude.{◌<◌};

// A scheme has at most sixteen levels.
#[derive(Clone, Copy, PartialEq, Eq, Debug)]
pub struct Level {
    pub number: u8,
    pub ghost small: { number < 16 },
}
