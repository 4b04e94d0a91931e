// The reaction of a switch machine: the first line that fits sets the state and makes its ticket.
ghost use Rattle.std.specs.Prelude.{◌≡◌};
ghost use Rattle.switch_machine.specs.Switching.{fits, first_fit, switched};
ghost use Rattle.switch_machine.specs.Lawful.{switched_lawful};

use crate::Switch;
use machine::{Machine, Reaction, Slip, Words};
use switch::SwitchLine;
use ticket::Ticket;

impl<'a> Machine for Switch<'a> {
    ghost meaning = { λ m. switched m.lines.now };

    ghost lawful = { λ m. switched_lawful m.lines.now m.sound };

    fn react(
        &self,
        words: &mut Words,
        ticket: Ticket,
        _allowance: u16,
        slip: &mut Slip,
    ) -> Reaction {
        let mut made = 0;
        if let Some(line) = first_fit(self.lines, words[0], ticket) {
            words[0] = line.next as u32;
            if let Some(channel) = line.out {
                slip[0] = Ticket {
                    channel,
                    value: line.value,
                };
                made = 1;
            }
        }
        Reaction {
            made,
            steps: 1,
            stalled: false,
        }
    }
}

fn first_fit(lines: &[SwitchLine], state: u32, ticket: Ticket) -> Option<SwitchLine>
    ensures { result ≡ first_fit state ticket lines.now }
{
    lines.iter().find(|line| fits(line, state, ticket)).copied()
}

// A state above 255 fits no line.
fn fits(line: &SwitchLine, state: u32, ticket: Ticket) -> bool
    ensures { result ≡ fits state ticket line.now }
{
    line.state as u32 == state
        && line.channel == ticket.channel
        && line.low <= ticket.value
        && ticket.value <= line.high
}
