// Lists the bench file on standard input.
#![tactic(auto)]

ghost use Rattle.std.specs.Prelude.{ℕ, ◌≤◌, ◌≡◌, List, length, take};
ghost use Rattle.bench_file.specs.Layout.{judge_of};
ghost use Rattle.listing.specs.Listing.{listing_of};
ghost use Rattle.listing.specs.Promise.{enough_bytes};

use std::io;

// Lists an input of which the first bytes were read: all, or as many as the buffer holds. Answers the length of the listing.
fn list_start(start: &[u8], read: usize, text: &mut [u8]) -> usize
    requires { (read ≤ length start.now) × (length start.now ≡ 34077) × (enough_bytes ≤ length text.old) }
    ensures by_index { (input : List ℕ) → take (length start.now) input ≡ take read start.now → take result text.new ≡ listing_of (judge_of input) }
    ensures upper_bound { result ≤ length text.old }
{
    listing::list(&start[..read], text).unwrap_or(0)
}

// The main of `ccs_page` differs in the function and the buffer: a closure for them would need a clause longer than what is shared.
fn main(rt: HostRuntime) -> io::Result<()> {
    let mut start = [0u8; console::DECIDING];
    let mut text = [0u8; listing::ENOUGH];
    let read = console::read_start(&mut rt.stdin(), &mut start)?;
    let length = list_start(&start, read, &mut text);
    rt.stdout().write_all(&text[..length])
}
