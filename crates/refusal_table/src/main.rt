// Prints what the judge and the writer answer at the examples of the papers' refusal table, and at the limits of each field. 0 is no refusal.
#![tactic(auto)]

mod examples;
mod fields;
mod rows;
mod show;

use console::Output;
use std::io;

fn main(rt: HostRuntime) -> io::Result<()> {
    let mut output = Output::new(rt.stdout());
    examples::run(&mut output);
    fields::run(&mut output);
    rows::run(&mut output);
    output.finish()
}
