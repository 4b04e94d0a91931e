// Any machine that was loaded from the first part, fed the tickets of the second.
ghost use Rattle.print.specs.Appending.{Appends};
ghost use Rattle.react_report.specs.Report.{fed_lines, machine_lines};

use fault::{Fault, Reason};
use machine::Machine;
use print::put_fault;
use reactions::list_reactions;
use std::alloc::AllocError;

// The parts of the input, as refusals count them: 0 is the whole.
pub const WHOLE: u8 = 0;

const MACHINE_PART: u8 = 1;

const TICKETS_PART: u8 = 2;

// The steps that a reaction may take.
const ALLOWANCE: u16 = 1000;

pub fn report_machine<M: Machine + Drop>(
    out: &mut Vec<u8>,
    loaded: Result<M, Fault>,
    bytes: &[u8],
) -> Result<(), AllocError>
    ensures { Appends out.old (machine_lines M.meaning loaded bytes.now) result out.new }
{
    match loaded {
        Ok(machine) => feed(out, &machine, bytes),
        Err(fault) => put_fault(out, MACHINE_PART, fault),
    }
}

fn feed<M: Machine>(out: &mut Vec<u8>, machine: &M, bytes: &[u8]) -> Result<(), AllocError>
    ensures { Appends out.old (fed_lines (M.meaning machine.now) bytes.now) result out.new }
{
    // The same test stands before a batch, and is answered by a refusal there.
    if bytes.len() % 8 != 0 {
        return put_fault(out, TICKETS_PART, Fault::unplaced(Reason::Record));
    }
    list_reactions(out, machine, ALLOWANCE, bytes)
}
