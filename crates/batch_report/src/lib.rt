// The report on a batch of tickets, under a scheme and a level sheet that are texts.
#![tactic(auto)]

ghost use Rattle.listing.specs.Listing.{listing};
ghost use Rattle.print.specs.Appending.{Appends};
ghost use Rattle.batch_report.specs.Report.{report};

use levels::Scheme;
use listing::list_batch;
use scheme_report::{PartReport, report_parts};
use sheet::LevelSheet;
use std::alloc::AllocError;

// The third part is tickets as bytes.
struct Tickets;

impl PartReport for Tickets {
    ghost text = { listing };

    fn report_part<S: Scheme>(
        out: &mut Vec<u8>,
        scheme: &S,
        sheet: &LevelSheet,
        bytes: &[u8],
    ) -> Result<(), AllocError> {
        list_batch(out, scheme, sheet, bytes)
    }
}

// The input is a scheme, a level sheet and tickets as bytes, parted by lines `-`.
pub fn report_batch(out: &mut Vec<u8>, input: &[u8]) -> Result<(), AllocError>
    ensures { Appends out.old (report input.now) result out.new }
{
    report_parts::<Tickets>(out, input)
}
