// The examples of the refusal table, the file of 64 bytes in both versions, and files at a limit, each judged whole and cut at each byte.
use crate::show;
use crate::show::{cuts, first};
use console::Output;

fn judged(output: &mut Output, name: &str, file: &[u8]) {
    write!(output, "{name}:");
    show::judged(output, file);
    writeln!(output);
}

// One thread without requests, and a schedule whose length has a given low byte, with 32,769 bytes behind it.
fn schedule(low: u8) -> [u8; 32781] {
    let mut file = [0; 32781];
    file[..12].copy_from_slice(b"CCS\x01\0\x02\x01\x01\0\0\0\x80");
    file[10] = low;
    file
}

// As many entries as a schedule may have, and one more.
fn entries(output: &mut Output) {
    judged(output, "32,769 entries", &schedule(1));
    let most = schedule(0);
    judged(output, "32,768 entries", first(&most, 32780));
    judged(output, "32,768 entries and a byte", &most);
}

// Version 2: the method's byte stands behind the capacity, and is judged where it is read.
fn second(output: &mut Output) {
    cuts(output, "version 0", b"CCS\0\0");
    cuts(output, "version 2, no more", b"CCS\x02\0");
    cuts(output, "version 257", b"CCS\x01\x01");
    cuts(output, "version 258", b"CCS\x02\x01");
    cuts(output, "no method", b"CCS\x02\0\x02\x01\x01\0");
    cuts(
        output,
        "method 2, rows",
        b"CCS\x02\0\x02\x01\x01\0\x02\0\0\0",
    );
    cuts(output, "method 1", b"CCS\x02\0\x02\x01\x01\0\x01");
    cuts(
        output,
        "method 1, rows",
        b"CCS\x02\0\x02\x01\x01\0\x01\0\0\0",
    );
    cuts(output, "method 0, rows", b"CCS\x02\0\x02\x01\x01\0\0\0\0\0");
    cuts(
        output,
        "a byte more",
        b"CCS\x02\0\x02\x01\x01\0\x01\0\0\0\0",
    );
    cuts(output, "capacity 5", b"CCS\x02\0\x02\x01\x01\x05");
    cuts(
        output,
        "capacity 5, method 255",
        b"CCS\x02\0\x02\x01\x01\x05\xFF",
    );
    cuts(
        output,
        "65 bytes, method 0",
        b"CCS\x02\0\x02\x01\x01\0\0\x02\x02\x05\0\0\0\x02\x07\0\0\0\x2A\0\
            \0\0\0\0\0\0\0\0\0\0\0\0\0\0\0\0\0\0\0\0\0\
            \0\0\0\0\0\0\0\0\0\0\0\0\0\0\0\0\0\0\0\0\0",
    );
    cuts(
        output,
        "65 bytes, method 1",
        b"CCS\x02\0\x02\x01\x01\0\x01\x02\x02\x05\0\0\0\x02\x07\0\0\0\x2A\0\
            \0\0\0\0\0\0\0\0\0\0\0\0\0\0\0\0\0\0\0\0\0\
            \0\0\0\0\0\0\0\0\0\0\0\0\0\0\0\0\0\0\0\0\0",
    );
}

pub(crate) fn run(output: &mut Output) {
    cuts(output, "example 1", b"CC");
    cuts(output, "example 2", b"CCT");
    cuts(output, "example 3", b"CCS\x03\0");
    cuts(output, "example 4", b"CCS\x01\0\x03");
    cuts(output, "example 5", b"CCS\x01\0\x02\0");
    cuts(output, "example 6", b"CCS\x01\0\x02\x01\0");
    cuts(output, "example 7", b"CCS\x01\0\x02\x01\x01\x05");
    cuts(output, "example 8", b"CCS\x01\0\x02\x01\x01\0\x11");
    cuts(output, "example 9", b"CCS\x01\0\x02\x01\x01\0\x01\x01");
    cuts(output, "example 10", b"CCS\x01\0\x02\x01\x01\0\0\x01\x80");
    cuts(output, "example 11", b"CCS\x01\0\x02\x01\x01\0\0\x01\0\x01");
    cuts(output, "example 12", b"CCS\x01\0\x02\x01\x01\0\0\0\0\xFF");
    cuts(output, "example 15", b"CCS\x02\0\x02\x01\x01\0\x02");
    cuts(
        output,
        "64 bytes",
        b"CCS\x01\0\x02\x01\x01\0\x02\x02\x05\0\0\0\x02\x07\0\0\0\x2A\0\
            \0\0\0\0\0\0\0\0\0\0\0\0\0\0\0\0\0\0\0\0\0\
            \0\0\0\0\0\0\0\0\0\0\0\0\0\0\0\0\0\0\0\0\0",
    );
    cuts(output, "length 32,768", b"CCS\x01\0\x02\x01\x01\0\0\0\x80");
    cuts(
        output,
        "length 65,535",
        b"CCS\x01\0\x02\x01\x01\0\0\xFF\xFF",
    );
    cuts(
        output,
        "length 2, entry 0",
        b"CCS\x01\0\x02\x01\x01\0\0\x02\0\0",
    );
    cuts(
        output,
        "length 2, entry 1",
        b"CCS\x01\0\x02\x01\x01\0\0\x02\0\x01",
    );
    cuts(
        output,
        "n 16, entry 15",
        b"CCS\x01\0\x01\x10\xFF\x40\0\0\0\0\0\0\0\0\0\0\0\0\0\0\0\0\x02\0\0\x0F",
    );
    cuts(
        output,
        "n 16, entry 16",
        b"CCS\x01\0\x01\x10\xFF\x40\0\0\0\0\0\0\0\0\0\0\0\0\0\0\0\0\x02\0\0\x10",
    );
    entries(output);
    second(output);
}
