// Writes a bench file of version 1 or 2: from its fields, or from a file of either version.
#![tactic(auto)]

ghost use Rattle.std.specs.Prelude.{◌≡◌, ℕ, ◌+◌, ◌*◌, ◌≤◌, List, [], ◌∷◌, length, drop, OnOk};
ghost use Rattle.object.specs.Each.{Each};
ghost use Rattle.bench_file.specs.Layout.{head_length};
ghost use Rattle.bench_file.specs.Bytes.{low_first, head_bytes, Byte};
ghost use Rattle.bench_file.specs.Reading.{rules};
ghost use Rattle.bench_file.specs.Cursor.{forgotten};
ghost use Rattle.bench_writer.specs.Buffer.{Fills};
ghost use Rattle.bench_writer.specs.Convert.{head_converted, Converts};
ghost use Rattle.bench_writer.specs.Writer.{pasted, total, most_method, number_rules, count_rules, requests_reader, entry_rules, interleaved, raw_bytes, as_given, head_given, passed, given_reader, as_written, WritesAs};

use bench_file::Head;
use object::Kind;
use refusal::Refusal;

// What the writer is given: the file's numbers, a count of requests for each thread, the requests of all threads in the file's five-byte form, and the schedule.
// The numbers are those of the C interface: a caller may give any, and those that no file has are refused.
#[derive(Clone, Copy)]
pub struct Given<'a> {
    pub version: u16,
    pub object: u8,
    pub n: u8,
    pub h: u8,
    pub capacity: u8,
    pub method: u8,
    pub counts: &'a [u8],
    pub requests: &'a [u8],
    pub schedule: &'a [u8],
}

// A method's greatest number: version 1 has method 0 only. A number, since it is held against a method that a caller gives by any number.
fn most_method(version: u16) -> u8
    ensures { result ≡ most_method version }
{
    if version == 1 {
        return 0;
    }
    1
}

// The sum of a row of at most 16 counts.
fn total_of(counts: &[u8]) -> usize
    requires { length counts.now ≤ 16 }
    ensures { (result ≡ total counts.now) × (result ≤ 16 * 255) }
{
    counts.iter().map(|count| usize::from(*count)).sum()
}

// The row of counts.
fn judge_counts(n: u8, counts: &[u8]) -> Result<(), Refusal>
    ensures { (bytes : List ℕ) → passed bytes result ≡ rules (count_rules n counts.now) bytes }
{
    let threads = n as usize;
    if counts.len() < threads {
        return Err(Refusal::CutOff);
    }
    if threads < counts.len() {
        return Err(Refusal::Trailing);
    }
    if bench_file::every_below(counts, 17) {
        return Ok(());
    }
    Err(Refusal::Count)
}

// The row of requests, for so many requests. That a slice holds bytes is known of a parameter, and not of a struct's field: so it is said, for the writer to know.
// Laid down as a function of its own: within the writer its loop has too few registers.
#[inline(never)]
fn judge_requests(object: Kind, count: usize, requests: &[u8]) -> Result<(), Refusal>
    requires { count ≤ 16 * 255 }
    ensures outcome { passed [] result ≡ forgotten (requests_reader object count requests.now requests.now) }
    ensures bytes { Each Byte requests.now }
{
    if requests.len() < 5 * count {
        return Err(Refusal::CutOff);
    }
    if 5 * count < requests.len() {
        return Err(Refusal::Trailing);
    }
    bench_file::read_request_row(requests, object, count)?;
    Ok(())
}

// The schedule.
fn judge_entries(n: u8, schedule: &[u8]) -> Result<(), Refusal>
    ensures { (bytes : List ℕ) → passed bytes result ≡ rules (entry_rules n schedule.now) bytes }
{
    if 32768 < schedule.len() {
        return Err(Refusal::ScheduleLength);
    }
    if bench_file::every_below(schedule, n) {
        return Ok(());
    }
    Err(Refusal::Entry)
}

impl Given<'_> {
    // Version, object, n, h, capacity and method.
    fn judge_numbers(self) -> Result<(), Refusal>
        ensures { let g = as_given self.entry in (bytes : List ℕ) → passed bytes result ≡ rules (number_rules g.version g.object g.n g.h g.capacity g.method) bytes }
    {
        if !bench_file::version_known(self.version) {
            return Err(Refusal::Version);
        }
        if !object::between(0, self.object, 2) {
            return Err(Refusal::Object);
        }
        if !object::between(1, self.n, 16) {
            return Err(Refusal::Threads);
        }
        if !object::between(1, self.h, 255) {
            return Err(Refusal::Bound);
        }
        if !object::capacity_allowed(object::kind_of(self.object), self.capacity) {
            return Err(Refusal::Capacity);
        }
        if most_method(self.version) < self.method {
            return Err(Refusal::Method);
        }
        Ok(())
    }

    // All rules but the last, 13, in their order.
    fn judge(self) -> Result<(), Refusal>
        ensures outcome { let g = as_given self.entry in passed [] result ≡ forgotten (given_reader g g.requests) }
        ensures bytes { OnOk result (Each Byte self.entry.requests.now) }
    {
        self.judge_numbers()?;
        judge_counts(self.n, self.counts)?;
        let count = total_of(self.counts);
        judge_requests(object::kind_of(self.object), count, self.requests)?;
        judge_entries(self.n, self.schedule)
    }

    // The head of the file, from numbers that were judged.
    fn head(self) -> Head
        ensures { result ≡ head_given (as_given self.entry) }
    {
        Head {
            version: self.version,
            object: object::kind_of(self.object),
            n: self.n,
            h: self.h,
            capacity: self.capacity,
            method: machine::method_of(self.method),
        }
    }

    // How long the file is.
    fn length(self) -> usize
        requires { let g = as_given self in length g.counts + length g.requests + length g.schedule ≤ 40000 }
        ensures { let g = as_given self.entry in result ≡ head_length g.version + length g.counts + length g.requests + 2 + length g.schedule }
    {
        bench_file::head_bytes(self.version)
            + self.counts.len()
            + self.requests.len()
            + 2
            + self.schedule.len()
    }
}

// Lays bytes into a buffer from a place on.
fn put(out: &mut [u8], at: usize, src: &[u8])
    requires { at + length src.now ≤ length out.old }
    ensures { out.new ≡ pasted out.old at src.now }
{
    out[at..at + src.len()].copy_from_slice(src);
}

// All bytes before the rows; the method's from version 2 on.
fn put_head(out: &mut [u8], head: Head)
    requires { head_length head.version ≤ length out.old }
    ensures { out.new ≡ pasted out.old 0 (head_bytes head) }
{
    let [low, high] = head.version.to_le_bytes();
    let object = u8::from(head.object);
    put(
        out,
        0,
        &[
            0x43,
            0x43,
            0x53,
            low,
            high,
            object,
            head.n,
            head.h,
            head.capacity,
        ],
    );
    if head.version == 1 {
        return;
    }
    let method = u8::from(head.method);
    put(out, 9, &[method]);
}

// The schedule's length, two bytes.
#[tactic(auto, using(crate::proofs::Spelled::two_bytes))]
fn put_length(out: &mut [u8], at: usize, entries: usize)
    requires { (entries ≤ 32768) × (at + 2 ≤ length out.old) }
    ensures { out.new ≡ pasted out.old at (low_first 2 entries) }
{
    put(out, at, &(entries as u16).to_le_bytes());
}

// A thread's count and its requests, which are five bytes each.
fn put_row(out: &mut [u8], at: usize, count: u8, requests: &[u8])
    requires { at + 1 + length requests.now ≤ length out.old }
    ensures { out.new ≡ pasted out.old at (count ∷ requests.now) }
{
    put(out, at, &[count]);
    put(out, at + 1, requests);
}

// The rows of all threads, from a place on. It answers the place behind them.
fn put_rows(out: &mut [u8], at: usize, counts: &[u8], requests: &[u8]) -> usize
    requires { (5 * total counts.now ≤ length requests.now) × (at + length (interleaved counts.now requests.now) ≤ length out.old) }
    ensures value { result ≡ at + length (interleaved counts.now requests.now) }
    ensures out_after { out.new ≡ pasted out.old at (interleaved counts.now requests.now) }
{
    let mut next = at;
    let mut left = requests;
    for count in counts {
        let (row, rest) = left.split_at(5 * usize::from(*count));
        put_row(out, next, *count, row);
        next += 1 + row.len();
        left = rest;
    }
    next
}

// The whole file, from the buffer's first byte on.
#[tactic(auto, using(crate::proofs::Laying::raw_length))]
fn put_file(out: &mut [u8], given: Given)
    requires { let g = as_given given in (g.object ≤ 2) × (g.method ≤ 1) × (length g.schedule ≤ 32768) × (5 * total g.counts ≤ length g.requests) × (length (raw_bytes g) ≤ length out.old) }
    ensures { out.new ≡ pasted out.old 0 (raw_bytes (as_given given.entry)) }
{
    put_head(out, given.head());
    let at = bench_file::head_bytes(given.version);
    let next = put_rows(out, at, given.counts, given.requests);
    put_length(out, next, given.schedule.len());
    put(out, next + 2, given.schedule);
}

// Writes the bench file of given fields into a lent buffer, and answers its length, or refuses and leaves the buffer as it was.
pub fn write(given: Given, out: &mut [u8]) -> Result<usize, Refusal>
    ensures { WritesAs (as_given given.entry) (as_written result) out.old out.new }
{
    given.judge()?;
    let length = given.length();
    if out.len() < length {
        return Err(Refusal::Buffer);
    }
    put_file(out, given);
    Ok(length)
}

// A file's head in the wanted version, and behind it what stands behind the file's own; 16 where that version does not allow its method.
fn convert_head(file: &[u8], head: Head, wanted: u16, out: &mut [u8]) -> Result<usize, Refusal>
    requires { head_length head.version ≤ length file.now }
    ensures { Fills (head_converted wanted (length out.old) head (drop (head_length head.version) file.now)) (as_written result) out.old out.new }
{
    let method = head.method;
    let by = u8::from(method);
    if most_method(wanted) < by {
        return Err(Refusal::Conversion);
    }
    let rest = &file[bench_file::head_bytes(head.version)..];
    let at = bench_file::head_bytes(wanted);
    let converted = at + rest.len();
    if out.len() < converted {
        return Err(Refusal::Buffer);
    }
    put_head(
        out,
        Head {
            version: wanted,
            ..head
        },
    );
    put(out, at, rest);
    Ok(converted)
}

// Judges any bytes as a bench file and writes it in the wanted version into a lent buffer, and answers its length there, or refuses and leaves the buffer as it
// was. A file already in that version is judged and copied.
pub fn convert(file: &[u8], wanted: u16, out: &mut [u8]) -> Result<usize, Refusal>
    ensures { Converts file.now wanted (as_written result) out.old out.new }
{
    if !bench_file::version_known(wanted) {
        return Err(Refusal::Version);
    }
    let judged = bench_file::judge(file)?;
    convert_head(file, judged.head, wanted, out)
}
