// One reaction under way: what it has made so far, and what is left to it.
ghost use Rattle.std.specs.Prelude.{◌≤◌, length};

use crate::expression::Expression;
use machine::{Slip, Words};
use ticket::Ticket;

// No step was left, or no room for a ticket.
#[derive(Clone, Copy, PartialEq, Eq, Debug)]
pub struct Stalled;

// The words and the slip are copies, which the caller writes back.
#[derive(Drop)]
pub struct Job {
    pub words: Words,
    pub slip: Slip,
    // How many tickets are made: a slip is lent whole, and keeps beyond them what it held.
    pub made: usize,
    // The steps left.
    pub left: u16,
    // The value of the ticket.
    pub input: u32,
    ghost room: { made ≤ length slip },
}

impl Job {
    ghost use Rattle.std.specs.Prelude.{◌≡◌, ◌<◌, ◌==◌};
    ghost use Rattle.language.specs.Block.{assign, output};
    ghost use Rattle.program.specs.Trees.{expression_of};
    ghost use Rattle.interpreter.specs.Jobs.{due, spent, Runs};

    fn is_full(&self) -> bool
        ensures { result ≡ (self.now.made == 16) }
    {
        self.made == 16
    }

    // Takes one step off, if there is one.
    pub fn spend(&mut self) -> Result<(), Stalled>
        ensures due { result ≡ due self.old.left }
        ensures job { self.new ≡ spent self.old }
    {
        if self.left == 0 {
            return Err(Stalled);
        }
        self.left -= 1;
        Ok(())
    }

    // Gives a variable the value of an expression, in a step. A variable is a plain number, as lent rows and terms have it.
    pub fn store(&mut self, variable: u8, expression: Expression<'_>) -> Result<(), Stalled>
        requires { variable < 16 }
        ensures { Runs self.old (assign variable (expression_of expression.entry.terms.now)) result self.new }
    {
        self.spend()?;
        self.words[variable as usize] = self.evaluate(expression);
        Ok(())
    }

    // Makes a ticket of the value of an expression, in a step.
    pub fn send(&mut self, channel: u8, expression: Expression<'_>) -> Result<(), Stalled>
        ensures { Runs self.old (output channel (expression_of expression.entry.terms.now)) result self.new }
    {
        if self.is_full() {
            return Err(Stalled);
        }
        self.spend()?;
        let value = self.evaluate(expression);
        self.slip[self.made] = Ticket { channel, value };
        self.made += 1;
        Ok(())
    }
}
