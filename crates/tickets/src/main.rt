// Lists a batch of tickets: reads a scheme, a level sheet and the tickets, parted by lines `-`, and prints each ticket and the level of them all.
#![tactic(auto)]

use batch_report::report_batch;
use filter::run_filter;
use std::io;

fn main(rt: HostRuntime) -> io::Result<()> {
    run_filter(rt.alloc(), &mut rt.stdin(), &mut rt.stdout(), report_batch)
}
