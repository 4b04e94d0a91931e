// The class of a byte, from one table.
ghost use Rattle.std.specs.Prelude.{◌≡◌};
ghost use Rattle.text.specs.Classes.{class_of, is_digit, is_printable};

use Class::{Digit, Letter, Operand, Operator, Other, Outside};

// What a byte may be or begin in a line.
#[derive(Clone, Copy, PartialEq, Eq, Debug)]
pub enum Class {
    // No line holds it.
    Outside,
    Other,
    Digit,
    // `A` to `Z`.
    Letter,
    // `x`, `k` and `v`, which begin a term.
    Operand,
    // `+`, `-`, `*`, `=`, `<` and `r`.
    Operator,
}

// Byte 0 first, eight bytes to a line.
#[rattlefmt::skip]
static TABLE: [Class; 256] = [
    Outside, Outside, Outside, Outside, Outside, Outside, Outside, Outside,
    Outside, Outside, Outside, Outside, Outside, Outside, Outside, Outside,
    Outside, Outside, Outside, Outside, Outside, Outside, Outside, Outside,
    Outside, Outside, Outside, Outside, Outside, Outside, Outside, Outside,
    Other, Other, Other, Other, Other, Other, Other, Other,
    Other, Other, Operator, Operator, Other, Operator, Other, Other,
    Digit, Digit, Digit, Digit, Digit, Digit, Digit, Digit,
    Digit, Digit, Other, Other, Operator, Operator, Other, Other,
    Other, Letter, Letter, Letter, Letter, Letter, Letter, Letter,
    Letter, Letter, Letter, Letter, Letter, Letter, Letter, Letter,
    Letter, Letter, Letter, Letter, Letter, Letter, Letter, Letter,
    Letter, Letter, Letter, Other, Other, Other, Other, Other,
    Other, Other, Other, Other, Other, Other, Other, Other,
    Other, Other, Other, Operand, Other, Other, Other, Other,
    Other, Other, Operator, Other, Other, Other, Operand, Other,
    Operand, Other, Other, Other, Other, Other, Other, Outside,
    Outside, Outside, Outside, Outside, Outside, Outside, Outside, Outside,
    Outside, Outside, Outside, Outside, Outside, Outside, Outside, Outside,
    Outside, Outside, Outside, Outside, Outside, Outside, Outside, Outside,
    Outside, Outside, Outside, Outside, Outside, Outside, Outside, Outside,
    Outside, Outside, Outside, Outside, Outside, Outside, Outside, Outside,
    Outside, Outside, Outside, Outside, Outside, Outside, Outside, Outside,
    Outside, Outside, Outside, Outside, Outside, Outside, Outside, Outside,
    Outside, Outside, Outside, Outside, Outside, Outside, Outside, Outside,
    Outside, Outside, Outside, Outside, Outside, Outside, Outside, Outside,
    Outside, Outside, Outside, Outside, Outside, Outside, Outside, Outside,
    Outside, Outside, Outside, Outside, Outside, Outside, Outside, Outside,
    Outside, Outside, Outside, Outside, Outside, Outside, Outside, Outside,
    Outside, Outside, Outside, Outside, Outside, Outside, Outside, Outside,
    Outside, Outside, Outside, Outside, Outside, Outside, Outside, Outside,
    Outside, Outside, Outside, Outside, Outside, Outside, Outside, Outside,
    Outside, Outside, Outside, Outside, Outside, Outside, Outside, Outside,
];

pub fn class_of(byte: u8) -> Class
    ensures { result ≡ class_of byte }
{
    TABLE[byte as usize]
}

pub fn is_digit(byte: u8) -> bool
    ensures { result ≡ is_digit byte }
{
    class_of(byte) == Class::Digit
}

pub fn is_printable(byte: u8) -> bool
    ensures { result ≡ is_printable byte }
{
    class_of(byte) != Class::Outside
}
