// A batch of tickets as lines to print.
#![tactic(auto)]

ghost use Rattle.std.specs.Prelude.{◌≡◌};
ghost use Rattle.print.specs.Appending.{Appends};
ghost use Rattle.ticket.specs.Tickets.{decoded};
ghost use Rattle.listing.specs.Listing.{ticket_line, record_line, record_lines, level_line, listing};

use batch::level_of_batch;
use levels::Scheme;
use print::{Entry, Keyword, put_fault, put_line};
use sheet::LevelSheet;
use std::alloc::AllocError;
use ticket::Ticket;

// The part of the input that holds the tickets.
const TICKETS_PART: u8 = 3;

// A line for each ticket and then the level of the batch, or the refusal alone. Scheme and sheet are told apart, as the batch call tests them.
pub fn list_batch<S: Scheme>(
    out: &mut Vec<u8>,
    scheme: &S,
    sheet: &LevelSheet,
    bytes: &[u8],
) -> Result<(), AllocError>
    ensures { Appends out.old (listing (S.levels scheme.now) sheet.now bytes.now) result out.new }
{
    match level_of_batch(scheme, sheet, bytes) {
        Ok(level) => {
            put_tickets(out, bytes)?;
            put_level(out, level)
        }
        Err(fault) => put_fault(out, TICKETS_PART, fault),
    }
}

fn put_tickets(out: &mut Vec<u8>, bytes: &[u8]) -> Result<(), AllocError>
    ensures { Appends out.old (record_lines bytes.now) result out.new }
{
    for record in bytes.chunks_exact(8) {
        put_record(out, record)?;
    }
    Ok(())
}

// Nothing where the record is no ticket.
fn put_record(out: &mut Vec<u8>, record: &[u8]) -> Result<(), AllocError>
    ensures { Appends out.old (record_line (decoded «record».now)) result out.new }
{
    match Ticket::decode(record) {
        Ok(ticket) => put_ticket(out, ticket),
        Err(_) => Ok(()),
    }
}

// By its direction; the line of a reaction's ticket has other entries.
fn put_ticket(out: &mut Vec<u8>, ticket: Ticket) -> Result<(), AllocError>
    ensures { Appends out.old (ticket_line ticket) result out.new }
{
    let word = if ticket.is_in() {
        Keyword::In
    } else {
        Keyword::Out
    };
    let entries = [
        Entry::Number(ticket.channel as u64),
        Entry::Number(ticket.value as u64),
    ];
    put_line(out, word, &entries)
}

fn put_level(out: &mut Vec<u8>, level: u8) -> Result<(), AllocError>
    ensures { Appends out.old (level_line level) result out.new }
{
    put_line(out, Keyword::Batch, &[Entry::Number(level as u64)])
}
