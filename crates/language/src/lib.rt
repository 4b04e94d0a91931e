// The language of site programs: its operators. Its trees and their run are definitions in specs/.
#![tactic(auto)]

ghost use Rattle.std.specs.Prelude.{◌≡◌};
ghost use Rattle.std.specs.Result.{result_ok};
ghost use Rattle.language.specs.Laws.{RunIsIteratedStep, StallsOnlyWhenSpent};
ghost use Rattle.language.specs.Operators.{rounded, applied, operator_of, Rounds};

#[derive(Clone, Copy, PartialEq, Eq, Debug)]
pub enum Operator {
    Plus,
    Minus,
    Times,
    Equal,
    Less,
    Round,
}

impl Operator {
    // The value of an operator, from the values of its two parts.
    pub fn apply(self, left: u32, right: u32) -> u32
        ensures { result ≡ applied self left right }
    {
        match self {
            Operator::Plus => left.wrapping_add(right),
            Operator::Minus => left.wrapping_sub(right),
            Operator::Times => left.wrapping_mul(right),
            Operator::Equal => u32::from(left == right),
            Operator::Less => u32::from(left < right),
            Operator::Round => round(left, right),
        }
    }
}

// A character that writes no operator.
#[derive(Clone, Copy, PartialEq, Eq, Debug)]
pub struct NotAnOperator;

impl TryFrom<char> for Operator {
    type Error = NotAnOperator;

    ghost try_from_gives = { λ c r. result_ok r ≡ operator_of c };

    fn try_from(c: char) -> Result<Operator, NotAnOperator> {
        match c {
            '+' => Ok(Operator::Plus),
            '-' => Ok(Operator::Minus),
            '*' => Ok(Operator::Times),
            '=' => Ok(Operator::Equal),
            '<' => Ok(Operator::Less),
            'r' => Ok(Operator::Round),
            _ => Err(NotAnOperator),
        }
    }
}

// To the nearest multiple, a half upward; past the largest value the lower one. No multiple of 0 is tried.
pub fn round(value: u32, unit: u32) -> u32
    ensures value { result ≡ rounded value unit }
    ensures law { Rounds value unit result }
{
    if unit == 0 {
        return value;
    }
    let over = value % unit;
    let below = value - over;
    if over < unit - over {
        return below;
    }
    below.checked_add(unit).unwrap_or(below)
}

// A theorem: telling a run by blocks is iterating the step of commands.
#[tactic(auto, using(crate::proofs::Blocks::run_is_iterated_step))]
pub fn run_is_iterated_step()
    ensures { RunIsIteratedStep }
{}

// A theorem: no reaction stalls with a step and a ticket left, or takes more steps than it is allowed.
#[tactic(auto, using(crate::proofs::Stalls::stalls_only_when_spent))]
pub fn stalls_only_when_spent()
    ensures { StallsOnlyWhenSpent }
{}
