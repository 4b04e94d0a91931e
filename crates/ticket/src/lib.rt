// A ticket, and the eight bytes that carry it.
#![tactic(auto)]

ghost use Rattle.std.specs.Prelude.{◌≡◌, ◌<◌, Ok};
ghost use Rattle.ticket.specs.Tickets.{is_in, encoded, decoded, decoded_in, Decodes};

use fault::{Fault, Reason};

#[derive(Clone, Copy, PartialEq, Eq, Debug)]
pub struct Ticket {
    pub channel: u8,
    pub value: u32,
}

impl Ticket {
    // What a lent place holds where no ticket was put into it.
    pub const BLANK: Ticket = Ticket {
        channel: 0,
        value: 0,
    };

    // In-tickets have the channels 0 to 15, out-tickets 16 to 31.
    pub fn is_in(&self) -> bool
        ensures { result ≡ is_in self.now.channel }
    {
        self.channel < 16
    }

    pub fn encode(&self) -> [u8; 8]
        ensures value { result ≡ encoded self.now }
        ensures undone { self.now.channel < 32 → decoded result ≡ Ok self.now }
    {
        let mark = if self.is_in() { b'I' } else { b'O' };
        let [a, b, c, d] = self.value.to_be_bytes();
        [self.channel, mark, a, b, c, d, 0, 0]
    }

    // No TryFrom, as there are two readings of bytes: this and decode_in.
    pub fn decode(bytes: &[u8]) -> Result<Ticket, Fault>
        ensures value { result ≡ decoded bytes.now }
        ensures undoes { Decodes bytes.now result }
    {
        match bytes {
            [channel @ 0..=15, b'I', a, b, c, d, 0, 0]
            | [channel @ 16..=31, b'O', a, b, c, d, 0, 0] => Ok(Ticket {
                channel: *channel,
                value: u32::from_be_bytes([*a, *b, *c, *d]),
            }),
            [_, b'I' | b'O', _, _, _, _, 0, 0] => Err(Fault::unplaced(Reason::Channel)),
            _ => Err(Fault::unplaced(Reason::Record)),
        }
    }

    // Where only in-tickets are wanted, the mark of an out-ticket is wrong.
    pub fn decode_in(bytes: &[u8]) -> Result<Ticket, Fault>
        ensures { result ≡ decoded_in bytes.now }
    {
        match bytes {
            [_, b'O', ..] => Err(Fault::unplaced(Reason::Record)),
            _ => Ticket::decode(bytes),
        }
    }
}
