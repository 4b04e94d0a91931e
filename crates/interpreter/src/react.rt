// What a program does with a ticket: its handler's block is run.
use crate::job::{Job, Stalled};
use crate::tables::Tables;
use machine::{Reaction, Slip, Words};
use ticket::Ticket;

impl Tables<'_> {
    ghost use Rattle.std.specs.Prelude.{◌≡◌};
    ghost use Rattle.language.specs.Step.{reaction};
    ghost use Rattle.machine.specs.Reacting.{Reacts};
    ghost use Rattle.program.specs.Trees.{tree_of};
    ghost use Rattle.interpreter.specs.Handlers.{Begins, handled_at};
    ghost use Rattle.interpreter.specs.Jobs.{Runs};

    // The row that opens the handler of a channel.
    fn handler(&self, channel: u8) -> Option<usize>
        ensures { Begins self.now.rows.now channel result }
    {
        self.rows
            .iter()
            .position(|row| row.kind.is_handler_of(channel))
    }

    // Runs the block of a channel's handler, if it has one.
    fn run_handler(&self, channel: u8, job: &mut Job) -> Result<(), Stalled>
        ensures { Runs job.old (handled_at self.now.rows.now self.now.terms.now channel) result job.new }
    {
        match self.handler(channel) {
            Some(at) => self.block(at + 1, job),
            None => Ok(()),
        }
    }

    // Without a handler the reaction is empty.
    pub fn react(
        &self,
        words: &mut Words,
        ticket: Ticket,
        allowance: u16,
        slip: &mut Slip,
    ) -> Reaction
        ensures { Reacts (reaction (tree_of self.now.rows.now self.now.terms.now) words.old ticket allowance) slip.old result words.new slip.new }
    {
        let mut job = Job {
            words: *words,
            slip: *slip,
            made: 0,
            left: allowance,
            input: ticket.value,
        };
        let ended = self.run_handler(ticket.channel, &mut job);
        *words = job.words;
        *slip = job.slip;
        Reaction {
            made: job.made,
            steps: allowance - job.left,
            stalled: ended.is_err(),
        }
    }
}
