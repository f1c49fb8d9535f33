// Prints what a single step answers and changes: each line, each range of a state, each outcome out of range, and whole runs by steps, of CC-Synch; then the like of DSM-Synch. 0 is no refusal.
#![tactic(auto)]

mod dsm;
mod lines;
mod make;
mod outcomes;
mod ranges;
mod runs;
mod script;
mod show;

use console::Output;
use std::io;

fn main(rt: HostRuntime) -> io::Result<()> {
    let mut output = Output::new(rt.stdout());
    lines::run(&mut output);
    ranges::run(&mut output);
    outcomes::run(&mut output);
    runs::run(&mut output);
    dsm::run(&mut output);
    output.finish()
}
