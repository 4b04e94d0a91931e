// A line of a day, and the record that carries it.
ghost use Rattle.std.specs.Prelude.{◌≡◌};
ghost use Rattle.ticket.specs.Tickets.{decoded_in};
ghost use Rattle.day_reader.specs.HandIns.{record_of, ticket_if_known};

use ticket::Ticket;

#[derive(Clone, Copy, PartialEq, Eq, Debug)]
pub struct HandIn {
    pub channel: u8,
    pub value: u32,
}

impl HandIn {
    // The mark is that of an in-ticket on every channel: it is the hand-in that refuses the others.
    pub fn record(&self) -> [u8; 8]
        ensures value { result ≡ record_of self.now }
        ensures decoded { decoded_in result ≡ ticket_if_known self.now }
    {
        let ticket = Ticket {
            channel: self.channel,
            value: self.value,
        };
        let mut record = ticket.encode();
        record[1] = b'I';
        record
    }
}
