// What the programs do with standard input and output: text written, and an input's first bytes read.
#![tactic(auto)]

ghost use Rattle.std.specs.Prelude.{◌≤◌, ◌≡◌, length, IfOk};
ghost use Rattle.std.specs.Result.{IsErr};

use std::fmt::Display;
use std::io;
use std::io::{Read, Stdout};

// Standard output, which `write!` writes to.
#[derive(Drop)]
pub struct Output {
    stdout: Stdout,
    written: io::Result<()>,
}

impl Output {
    pub fn new(stdout: Stdout) -> Output {
        Output {
            stdout,
            written: Ok(()),
        }
    }

    // After a write that failed nothing more is written.
    pub fn write_fmt<D: Display + Drop>(&mut self, text: D)
        ensures { IsErr self.old.written → self.new ≡ self.old }
    {
        if self.written.is_ok() {
            self.written = self.stdout.print(text);
        }
    }

    // The failure, if a write failed.
    pub fn finish(self) -> io::Result<()> {
        self.written
    }
}

// So many first bytes of an input decide what is printed of it as a bench file: an accepted file has at most 34,076.
pub const DECIDING: usize = 34077;

// Reads an input's first bytes: all, or as many as the buffer holds. Answers how many.
pub fn read_start<R: Read>(input: &mut R, start: &mut [u8]) -> io::Result<usize>
    ensures { IfOk result (λ read. read ≤ length start.new) }
{
    let mut read = 0;
    for _ in 0..start.len() {
        let more = input.read(&mut start[read..])?;
        if more == 0 {
            break;
        }
        read += more;
    }
    Ok(read)
}
