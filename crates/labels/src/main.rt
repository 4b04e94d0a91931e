// Checks a site program against the label rule: reads a scheme, a level sheet and the program, and prints the answer.
#![tactic(auto)]

use filter::run_filter;
use label_report::report_labels;
use std::io;

fn main(rt: HostRuntime) -> io::Result<()> {
    run_filter(rt.alloc(), &mut rt.stdin(), &mut rt.stdout(), report_labels)
}
