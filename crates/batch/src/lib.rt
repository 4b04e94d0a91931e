// The level of a batch of tickets: the join of the levels of their channels.
#![tactic(auto)]

ghost use Rattle.std.specs.Prelude.{◌≡◌, true};
ghost use Rattle.sheet.specs.Sheets.{has_sheet};
ghost use Rattle.batch.specs.Level.{join_tickets, batch_level, Levelled};

use fault::{Fault, Reason};
use levels::Scheme;
use sheet::LevelSheet;
use ticket::Ticket;

// The least level at or above every ticket in the bytes, and the lowest level for none.
// Scheme and sheet are two parameters, since a sheet that the scheme lacks levels for is refused here.
pub fn level_of_batch<S: Scheme>(scheme: &S, sheet: &LevelSheet, bytes: &[u8]) -> Result<u8, Fault>
    ensures value { result ≡ batch_level (S.levels scheme.now) sheet.now bytes.now }
    ensures least { Levelled (S.levels scheme.now) sheet.now bytes.now result }
{
    sheet.check(scheme)?;
    // The same test stands where tickets are fed, and is answered by a printed line there.
    if bytes.len() % 8 != 0 {
        return Err(Fault::unplaced(Reason::Record));
    }
    join_tickets(scheme, sheet, bytes)
}

fn join_tickets<S: Scheme>(scheme: &S, sheet: &LevelSheet, bytes: &[u8]) -> Result<u8, Fault>
    requires { has_sheet (S.levels scheme.now) sheet.now ≡ true }
    ensures { result ≡ join_tickets (S.levels scheme.now) sheet.now (S.levels scheme.now).lowest bytes.now }
{
    let mut level = scheme.lowest();
    for record in bytes.chunks_exact(8) {
        let ticket = Ticket::decode(record)?;
        let join = scheme.join(level, sheet.channel_level(ticket.channel));
        // Both are levels, so there is a join.
        level = join.unwrap();
    }
    Ok(level)
}
