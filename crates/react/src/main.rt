// Feeds a machine with in-tickets: reads its text, a line `-` and the tickets, and prints what each is answered by.
#![tactic(auto)]

use filter::run_filter;
use react_report::report_react;
use std::io;

fn main(rt: HostRuntime) -> io::Result<()> {
    run_filter(rt.alloc(), &mut rt.stdin(), &mut rt.stdout(), report_react)
}
