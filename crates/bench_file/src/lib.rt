// Bench files of version 1 and 2, judged front to back.
#![tactic(auto)]

ghost use Rattle.std.specs.Prelude.{◌≡◌, ◌≤◌, ◌<◌, ℕ, length, take, drop, ltb, IfOk, OnOk};
ghost use Rattle.refusal.specs.Numbers.{number, by_number};
ghost use Rattle.object.specs.Each.{every, sum_of};
ghost use Rattle.bench_file.specs.Reading.{Reader, ranged, several};
ghost use Rattle.bench_file.specs.Layout.{version_known, head_length, is_mark, start_reader, method_reader, limits_reader, head_reader, request_reader, row_reader, entry_reader, schedule_reader};
ghost use Rattle.bench_file.specs.Promise.{Judges};
ghost use Rattle.bench_file.specs.Cursor.{byte_read, start_read, method_read, head_read, reached, Ahead, tallied, same, single, schedule_as, rows_as};

use machine::Method;
use object::Kind;
use refusal::Refusal;

// What a bench file says before its rows of requests.
#[derive(Clone, Copy)]
pub struct Head {
    pub version: u16,
    pub object: Kind,
    pub n: u8,
    pub h: u8,
    pub capacity: u8,
    pub method: Method,
}

// The place behind what was read, and how many requests or entries it held.
#[derive(Clone, Copy)]
pub struct Reached {
    pub next: usize,
    pub count: usize,
}

// What an accepted file has: its head, how many requests in all, how many schedule entries.
#[derive(Clone, Copy)]
pub struct Judged {
    pub head: Head,
    pub requests: usize,
    pub entries: usize,
}

// How many bytes a file's head has. The rows of requests begin behind them; from version 2 on the last is the method's.
pub fn head_bytes(version: u16) -> usize
    ensures { result ≡ head_length version }
{
    if version == 1 { 9 } else { 10 }
}

// Whether a version is 1 or 2.
pub fn version_known(version: u16) -> bool
    ensures { result ≡ version_known version }
{
    (1..=2).contains(&version)
}

// The field of one byte at a place: 1 where it is cut off, the given refusal where it is outside its range.
fn byte_in(s: &[u8], at: usize, refusal: Refusal, least: u8, most: u8) -> Result<u8, Refusal>
    ensures result_value { byte_read s.now at result ≡ ranged (number refusal) least most (drop at s.now) }
    ensures inside { OnOk result (at < length s.now) }
{
    if s.len() <= at {
        return Err(Refusal::CutOff);
    }
    let b = s[at];
    if object::between(least, b, most) {
        return Ok(b);
    }
    Err(refusal)
}

// Whether the first three bytes are the mark.
fn is_mark(s: &[u8]) -> bool
    requires { 3 ≤ length s.now }
    ensures { result ≡ is_mark (take 3 s.now) }
{
    s.starts_with(b"CCS")
}

// The mark's bytes.
const MARK: usize = 3;

// Mark and version.
fn read_start(s: &[u8]) -> Result<u16, Refusal>
    ensures { start_read s.now result ≡ start_reader s.now }
{
    if s.len() < MARK {
        return Err(Refusal::CutOff);
    }
    if !is_mark(s) {
        return Err(Refusal::Mark);
    }
    if s.len() < 5 {
        return Err(Refusal::CutOff);
    }
    let version = u16::from_le_bytes([s[3], s[4]]);
    if version_known(version) {
        return Ok(version);
    }
    Err(Refusal::Version)
}

// The method, behind the capacity.
fn read_method(s: &[u8], version: u16) -> Result<Method, Refusal>
    requires { 9 ≤ length s.now }
    ensures result_value { method_read s.now version result ≡ method_reader version (drop 9 s.now) }
    ensures method_inside { OnOk result (head_length version ≤ length s.now) }
{
    if version == 1 {
        return Ok(Method::CcSynch);
    }
    let b = byte_in(s, 9, Refusal::Method, 0, 1)?;
    Ok(machine::method_of(b))
}

// From byte 6 on: n, h, the capacity and the method, behind an object byte that is in range.
fn read_limits(s: &[u8], version: u16, object: Kind) -> Result<Head, Refusal>
    ensures result_value { head_read s.now result ≡ limits_reader version object (drop 6 s.now) }
    ensures head_inside { IfOk result (λ head. head_length head.version ≤ length s.now) }
{
    let n = byte_in(s, 6, Refusal::Threads, 1, 16)?;
    let h = byte_in(s, 7, Refusal::Bound, 1, 255)?;
    let least = object::least_capacity(object);
    let most = object::most_capacity(object);
    let capacity = byte_in(s, 8, Refusal::Capacity, least, most)?;
    let method = read_method(s, version)?;
    Ok(Head {
        version,
        object,
        n,
        h,
        capacity,
        method,
    })
}

// All bytes before the rows. The object's byte is asked as every other field, and not by `try_from`: `byte_in` gives its refusal and that of the end.
fn read_head(s: &[u8]) -> Result<Head, Refusal>
    ensures result_value { head_read s.now result ≡ head_reader s.now }
    ensures head_inside { IfOk result (λ head. head_length head.version ≤ length s.now) }
{
    let version = read_start(s)?;
    let b = byte_in(s, 5, Refusal::Object, 0, 2)?;
    read_limits(s, version, object::kind_of(b))
}

// A request: code and value.
fn read_request(s: &[u8], object: Kind) -> Result<Reached, Refusal>
    ensures result_value { reached s.now result ≡ tallied single (request_reader object s.now) }
    ensures ahead { Ahead s.now result }
{
    let least = object::least_code(object);
    let most = object::most_code(object);
    let code = byte_in(s, 0, Refusal::Request, least, most)?;
    if s.len() < 5 {
        return Err(Refusal::CutOff);
    }
    let value = u32::from_le_bytes([s[1], s[2], s[3], s[4]]);
    if object::value_allowed(code, value) {
        return Ok(Reached { next: 5, count: 1 });
    }
    Err(Refusal::Request)
}

// So many of a kind, one after the other.
fn read_several<F: Fn(&[u8]) -> Result<Reached, Refusal>>(
    s: &[u8],
    count: usize,
    read: F,
) -> Result<Reached, Refusal>
    requires callable { F.IsAlwaysCallable read }
    requires goes_ahead { (part : _) (r : _) → F.post read part r → Ahead part.now r }
    ensures result_value { (reader : Reader ℕ) → ((part : _) (r : _) → F.post read part r → reached part.now r ≡ reader part.now) → reached s.now result ≡ tallied (sum_of same) (several count reader s.now) }
    ensures ahead { Ahead s.now result }
{
    let mut next = 0;
    let mut done = 0;
    for _ in 0..count {
        let more = read(&s[next..])?;
        next += more.next;
        done += more.count;
    }
    Ok(Reached { next, count: done })
}

// A row of so many requests, from its first byte on.
pub fn read_request_row(row: &[u8], object: Kind, count: usize) -> Result<Reached, Refusal>
    ensures result_value { reached row.now result ≡ tallied (sum_of single) (several count (request_reader object) row.now) }
    ensures ahead { Ahead row.now result }
{
    read_several(row, count, |s| read_request(s, object))
}

// A thread's count and its requests.
fn read_row(s: &[u8], object: Kind) -> Result<Reached, Refusal>
    ensures result_value { reached s.now result ≡ tallied length (row_reader object s.now) }
    ensures ahead { Ahead s.now result }
{
    let count = byte_in(s, 0, Refusal::Count, 0, 16)?;
    let requests = read_request_row(&s[1..], object, count as usize)?;
    Ok(Reached {
        next: 1 + requests.next,
        ..requests
    })
}

// The rows of n threads.
fn read_rows(s: &[u8], object: Kind, n: u8) -> Result<Reached, Refusal>
    ensures result_value { reached s.now result ≡ tallied (sum_of length) (several n (row_reader object) s.now) }
    ensures ahead { Ahead s.now result }
{
    read_several(s, n as usize, |s| read_row(s, object))
}

// Whether every byte of a row, of entries or of counts, is below a bound. There is no early exit, so that many bytes are compared at once.
pub fn every_below(row: &[u8], bound: u8) -> bool
    ensures { result ≡ every (λ x. ltb x bound) row.now }
{
    row.iter().fold(true, |fine, b| fine & (*b < bound))
}

// So many entries. Those that are there are judged first: one that is not below n comes before the end that cuts off a later one.
fn read_entries(s: &[u8], n: u8, count: usize) -> Result<Reached, Refusal>
    ensures result_value { reached s.now result ≡ tallied (sum_of single) (several count (entry_reader n) s.now) }
    ensures ahead { Ahead s.now result }
{
    let there = s.len().min(count);
    if !every_below(&s[..there], n) {
        return Err(Refusal::Entry);
    }
    if there < count {
        return Err(Refusal::CutOff);
    }
    Ok(Reached { next: count, count })
}

// A schedule has at most so many entries.
const MOST_ENTRIES: u16 = 32768;

// The schedule's length and its entries.
fn read_schedule(s: &[u8], n: u8) -> Result<Reached, Refusal>
    ensures result_value { reached s.now result ≡ tallied length (schedule_reader n s.now) }
    ensures ahead { Ahead s.now result }
{
    if s.len() < 2 {
        return Err(Refusal::CutOff);
    }
    let count = u16::from_le_bytes([s[0], s[1]]);
    if MOST_ENTRIES < count {
        return Err(Refusal::ScheduleLength);
    }
    let entries = read_entries(&s[2..], n, count as usize)?;
    Ok(Reached {
        next: 2 + entries.next,
        ..entries
    })
}

// From the schedule on, with the requests counted.
fn judge_schedule(s: &[u8], head: Head, requests: usize) -> Result<Judged, Refusal>
    ensures { by_number result ≡ schedule_as head requests (tallied length (schedule_reader head.n s.now)) }
{
    let schedule = read_schedule(s, head.n)?;
    if schedule.next < s.len() {
        return Err(Refusal::Trailing);
    }
    Ok(Judged {
        head,
        requests,
        entries: schedule.count,
    })
}

// From the rows on.
fn judge_rows(s: &[u8], head: Head) -> Result<Judged, Refusal>
    ensures { by_number result ≡ rows_as head (tallied (sum_of length) (several head.n (row_reader head.object) s.now)) }
{
    let rows = read_rows(s, head.object, head.n)?;
    judge_schedule(&s[rows.next..], head, rows.count)
}

// Judges any bytes as a bench file, front to back.
pub fn judge(file: &[u8]) -> Result<Judged, Refusal>
    ensures { Judges file.now (by_number result) }
{
    let head = read_head(file)?;
    judge_rows(&file[head_bytes(head.version)..], head)
}
