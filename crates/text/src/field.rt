// A field of a line, which borrows the part of the line that it is.
ghost use Rattle.std.specs.Prelude.{◌≡◌, ◌≤◌, IfSome};
ghost use Rattle.text.specs.Fields.{bytes_of, form_of, form_in, letter_of, number_of, is_dash};

use crate::classes::Class;
use crate::{classes, numbers};

// Letters stay characters: what they mean is for each reader to say.
#[derive(Clone, Copy, PartialEq, Eq, Debug)]
pub enum Field<'a> {
    Letter(char),
    // All its bytes, of which the first is a digit.
    Number(&'a [u8]),
    // `x`, `k` or `v`, and the bytes after it.
    Term(char, &'a [u8]),
    Operator(char),
    Other(&'a [u8]),
}

impl<'a> Field<'a> {
    #[tactic(auto, using(crate::proofs::Forms::alone, crate::proofs::Forms::split_first))]
    pub fn of(part: &'a [u8]) -> Field<'a>
        ensures bytes { bytes_of result ≡ part.now }
        ensures form { form_of result ≡ form_in part.now }
    {
        let [first, rest @ ..] = part else {
            return Field::Other(part);
        };
        match classes::class_of(*first) {
            Class::Digit => Field::Number(part),
            Class::Operand => Field::Term(*first as char, rest),
            Class::Letter if rest.is_empty() => Field::Letter(*first as char),
            Class::Operator if rest.is_empty() => Field::Operator(*first as char),
            _ => Field::Other(part),
        }
    }

    pub fn letter(self) -> Option<char>
        ensures { result ≡ letter_of self.entry }
    {
        match self {
            Field::Letter(letter) => Some(letter),
            _ => None,
        }
    }

    pub fn is_dash(self) -> bool
        ensures { result ≡ is_dash self.entry }
    {
        matches!(self, Field::Operator('-'))
    }

    pub fn number(self, low: u32, high: u32) -> Option<u32>
        ensures value { result ≡ number_of low high self.entry }
        ensures range { IfSome result (λ n. (low ≤ n) × (n ≤ high)) }
    {
        match self {
            Field::Number(digits) => numbers::number(digits, low, high),
            _ => None,
        }
    }
}
