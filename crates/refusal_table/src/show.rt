// What the judge and the writer answer, as words and numbers on standard output.
use bench_file::Judged;
use bench_writer::Given;
use console::Output;
use refusal::Refusal;

// The number of the judge's refusal, 0 for none.
fn refusal(file: &[u8]) -> u8 {
    bench_file::judge(file).err().map_or(0, Refusal::number)
}

// The first bytes of a slice, or all of them where it has fewer.
pub(crate) fn first(s: &[u8], count: usize) -> &[u8] {
    &s[..count.min(s.len())]
}

// Refusal 0 with the version, the object, n, h, the capacity, the method, the requests and the entries that the judge found; or the
// refusal.
pub(crate) fn judged(output: &mut Output, file: &[u8]) {
    write!(output, " judged");
    match bench_file::judge(file) {
        Ok(judged) => {
            let Judged {
                head,
                requests,
                entries,
            } = judged;
            let version = head.version;
            let object = u8::from(head.object);
            let n = head.n;
            let h = head.h;
            let capacity = head.capacity;
            let method = u8::from(head.method);
            write!(
                output,
                " 0 {version} {object} {n} {h} {capacity} {method} {requests} {entries}"
            );
        }
        Err(refusal) => write!(output, " {}", refusal.number()),
    }
}

// A file judged whole, and cut at each byte.
pub(crate) fn cuts(output: &mut Output, name: &str, file: &[u8]) {
    write!(output, "{name}:");
    judged(output, file);
    write!(output, " cuts");
    for cut in 0..file.len() {
        write!(output, " {}", refusal(&file[..cut]));
    }
    writeln!(output);
}

// How many bytes of a buffer hold 0xAA, and the sum of the sums of all its beginnings, which tells bytes that have changed places.
fn held(output: &mut Output, out: &[u8]) {
    let mut kept = 0u64;
    let mut sum = 0u64;
    let mut sums = 0u64;
    for byte in out {
        if *byte == 0xAA {
            kept = kept.wrapping_add(1);
        }
        sum = sum.wrapping_add(u64::from(*byte));
        sums = sums.wrapping_add(sum);
    }
    write!(output, " kept {kept} sums {sums}");
}

// Lends the writer the first bytes of a buffer that holds 0xAA only, or all of them where it has fewer. Shows its refusal, the length
// written and what the whole buffer holds then.
pub(crate) fn written(output: &mut Output, given: Given, out: &mut [u8], room: usize) {
    out.fill(0xAA);
    let lent = room.min(out.len());
    let answer = bench_writer::write(given, &mut out[..lent]);
    let length = answer.unwrap_or(0);
    let refusal = answer.err().map_or(0, Refusal::number);
    write!(output, " written {refusal} {length}");
    held(output, out);
    around(output, out, length);
    writeln!(output);
}

// What was written is judged as it is, one byte short and one byte long.
fn around(output: &mut Output, out: &[u8], length: usize) {
    if length == 0 {
        return;
    }
    judged(output, first(out, length));
    write!(output, " {}", refusal(first(out, length - 1)));
    if length < out.len() {
        write!(output, " {}", refusal(&out[..length + 1]));
    }
}
