// A machine fed one ticket after another, as lines to print.
#![tactic(auto)]

ghost use Rattle.std.specs.Prelude.{◌≡◌};
ghost use Rattle.std.specs.List.{flat_map};
ghost use Rattle.print.specs.Appending.{Appends};
ghost use Rattle.ticket.specs.Tickets.{decoded_in};
ghost use Rattle.reactions.specs.Reactions.{made_line, end_line, refused_line, turn_lines, turn_words, reaction_lines};

use fault::Fault;
use machine::{Machine, Reaction, Words};
use print::{Entry, Keyword, put_line};
use std::alloc::AllocError;
use ticket::Ticket;

// For the n-th record the tickets made, and how the reaction went; or its refusal.
pub fn list_reactions<M: Machine>(
    out: &mut Vec<u8>,
    machine: &M,
    allowance: u16,
    bytes: &[u8],
) -> Result<(), AllocError>
    ensures { Appends out.old (reaction_lines (M.meaning machine.now) allowance bytes.now) result out.new }
{
    let mut words = [0; 16];
    for (record, n) in bytes.chunks_exact(8).zip(1..) {
        put_turn(out, machine, &mut words, allowance, n, record)?;
    }
    Ok(())
}

// The printer and the number stay two parameters here and below: each line's function begins with what it prints into.
fn put_turn<M: Machine>(
    out: &mut Vec<u8>,
    machine: &M,
    words: &mut Words,
    allowance: u16,
    n: u64,
    record: &[u8],
) -> Result<(), AllocError>
    ensures text { Appends out.old (turn_lines (M.meaning machine.now) allowance n words.old (decoded_in «record».now)) result out.new }
    ensures words { words.new ≡ turn_words (M.meaning machine.now) allowance words.old (decoded_in «record».now) }
{
    match Ticket::decode_in(record) {
        Ok(ticket) => {
            let mut slip = [Ticket::BLANK; 16];
            let reaction = machine.react(words, ticket, allowance, &mut slip);
            put_made(out, n, &slip[..reaction.made])?;
            put_end(out, n, reaction)
        }
        Err(fault) => put_refused(out, n, fault),
    }
}

fn put_made(out: &mut Vec<u8>, n: u64, tickets: &[Ticket]) -> Result<(), AllocError>
    ensures { Appends out.old (flat_map (made_line n) tickets.now) result out.new }
{
    for ticket in tickets {
        put_ticket(out, n, *ticket)?;
    }
    Ok(())
}

// Behind the number of the record that made it; a line of a batch has its direction, and no number.
fn put_ticket(out: &mut Vec<u8>, n: u64, ticket: Ticket) -> Result<(), AllocError>
    ensures { Appends out.old (made_line n ticket) result out.new }
{
    let entries = [
        Entry::Number(n),
        Entry::Number(ticket.channel as u64),
        Entry::Number(ticket.value as u64),
    ];
    put_line(out, Keyword::Out, &entries)
}

fn put_end(out: &mut Vec<u8>, n: u64, reaction: Reaction) -> Result<(), AllocError>
    ensures { Appends out.old (end_line n reaction.stalled reaction.steps) result out.new }
{
    let word = if reaction.stalled {
        Keyword::Stalled
    } else {
        Keyword::Ended
    };
    let entries = [
        Entry::Number(n),
        Entry::Word(word),
        Entry::Number(reaction.steps as u64),
    ];
    put_line(out, Keyword::Turn, &entries)
}

fn put_refused(out: &mut Vec<u8>, n: u64, fault: Fault) -> Result<(), AllocError>
    ensures { Appends out.old (refused_line n fault) result out.new }
{
    let entries = [
        Entry::Number(n),
        Entry::Word(Keyword::Refused),
        Entry::Number(fault.reason.number() as u64),
    ];
    put_line(out, Keyword::Turn, &entries)
}
