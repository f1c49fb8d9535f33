// Prints the pages of the bench file on standard input.
#![tactic(auto)]

ghost use Rattle.std.specs.Prelude.{ℕ, ◌≤◌, ◌≡◌, List, length, take};
ghost use Rattle.bench_file.specs.Layout.{judge_of};
ghost use Rattle.page.specs.Promise.{enough_for_pages};
ghost use Rattle.ccs_page.specs.Output.{output_of};

use std::io;

// Prints an input of which the first bytes were read: all, or as many as the buffer holds. Answers the length of what is printed.
fn page_start(start: &[u8], read: usize, text: &mut [u8]) -> usize
    requires { (read ≤ length start.now) × (length start.now ≡ 34077) × (enough_for_pages ≤ length text.old) }
    ensures by_index { (input : List ℕ) → take (length start.now) input ≡ take read start.now → take result text.new ≡ output_of (judge_of input) }
    ensures upper_bound { result ≤ length text.old }
{
    match page::page(&start[..read], text) {
        Ok(length) => length,
        Err(refusal) => cells::give_refusal(refusal.number(), text).unwrap_or(0),
    }
}

// The main of `ccs_list` differs in the function and the buffer: a closure for them would need a clause longer than what is shared.
fn main(rt: HostRuntime) -> io::Result<()> {
    let mut start = [0u8; console::DECIDING];
    let mut text = [0u8; page::ENOUGH];
    let read = console::read_start(&mut rt.stdin(), &mut start)?;
    let length = page_start(&start, read, &mut text);
    rt.stdout().write_all(&text[..length])
}
