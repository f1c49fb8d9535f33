// A step's refusal, and what differs between the state before it and the state after it, over all places of both.
use crate::make::Word;
use console::Output;
use machine::{Node, Thread, ThreadId};
use object::{Answer, Object, Request};
use state::{Counts, State};
use std::fmt;
use std::fmt::{Display, Formatter};

// A node's req.
#[derive(Clone, Copy, PartialEq)]
struct Req(Option<Request>);

impl Display for Req {
    fn fmt<W: fmt::Write>(&self, f: &mut Formatter<W>) -> fmt::Result {
        match self.0 {
            Some(Request::Put(value)) => write!(f, "put:{value}"),
            Some(Request::Take) => write!(f, "take"),
            Some(Request::Add(value)) => write!(f, "add:{value}"),
            None => write!(f, "none"),
        }
    }
}

// A node's ret.
#[derive(Clone, Copy, PartialEq)]
struct Ret(Option<Answer>);

impl Display for Ret {
    fn fmt<W: fmt::Write>(&self, f: &mut Formatter<W>) -> fmt::Result {
        match self.0 {
            Some(Answer::Done(count)) => write!(f, "done:{count}"),
            Some(Answer::Value(value)) => write!(f, "value:{value}"),
            Some(Answer::Empty) => write!(f, "empty"),
            Some(Answer::Full) => write!(f, "full"),
            None => write!(f, "none"),
        }
    }
}

// What a place holds after a step, if that differs from what it held before.
fn place<P: Display + Drop, T: Copy + PartialEq + Display>(
    output: &mut Output,
    name: P,
    before: T,
    after: T,
) {
    if before != after {
        write!(output, " {name}={after}");
    }
}

// Two rows, place by place.
fn row<T: Copy, F: Fn(&mut Output, usize, T, T)>(
    output: &mut Output,
    before: &[T],
    after: &[T],
    show: F,
)
    requires { F.IsAlwaysCallable show }
{
    for (i, (a, b)) in before.iter().zip(after).enumerate() {
        show(output, i, *a, *b);
    }
}

fn head(output: &mut Output, a: &State, b: &State) {
    let before = u8::from(a.method);
    let after = u8::from(b.method);
    place(output, "method", before, after);
    place(output, "n", a.n, b.n);
    place(output, "h", a.h, b.h);
    let before = u8::from(a.kind);
    let after = u8::from(b.kind);
    place(output, "kind", before, after);
    place(output, "capacity", a.capacity, b.capacity);
    place(output, "tail", a.tail.0, b.tail.0);
}

fn thread(output: &mut Output, i: usize, a: Thread, b: Thread) {
    place(output, format_args!("t{i}.count"), a.count, b.count);
    place(output, format_args!("t{i}.begun"), a.begun, b.begun);
    place(output, format_args!("t{i}.line"), a.line, b.line);
    place(output, format_args!("t{i}.own"), a.own.0, b.own.0);
    place(output, format_args!("t{i}.cur"), a.cur.0, b.cur.0);
    place(output, format_args!("t{i}.tmp"), a.tmp.0, b.tmp.0);
    place(
        output,
        format_args!("t{i}.tmpnext"),
        a.tmpnext.0,
        b.tmpnext.0,
    );
    place(output, format_args!("t{i}.served"), a.served, b.served);
    place(output, format_args!("t{i}.toggle"), a.toggle, b.toggle);
    place(output, format_args!("t{i}.my"), a.my.0, b.my.0);
    place(output, format_args!("t{i}.pred"), a.pred.0, b.pred.0);
}

fn node(output: &mut Output, i: usize, a: Node, b: Node) {
    place(output, format_args!("node{i}.req"), Req(a.req), Req(b.req));
    place(output, format_args!("node{i}.ret"), Ret(a.ret), Ret(b.ret));
    let before = u8::from(a.wait);
    let after = u8::from(b.wait);
    place(output, format_args!("node{i}.wait"), before, after);
    let before = u8::from(a.completed);
    let after = u8::from(b.completed);
    place(output, format_args!("node{i}.completed"), before, after);
    place(output, format_args!("node{i}.next"), a.next.0, b.next.0);
}

fn request(output: &mut Output, i: usize, a: Request, b: Request) {
    place(
        output,
        format_args!("request{i}"),
        Req(Some(a)),
        Req(Some(b)),
    );
}

fn copies(output: &mut Output, i: usize, a: u16, b: u16) {
    place(output, format_args!("copies{i}"), a, b);
}

fn item(output: &mut Output, i: usize, a: u32, b: u32) {
    place(output, format_args!("item{i}"), a, b);
}

fn object(output: &mut Output, a: &Object, b: &Object) {
    row(output, &a.items, &b.items, item);
    place(output, "held", a.held, b.held);
    place(output, "sum", a.sum, b.sum);
}

fn counts(output: &mut Output, a: Counts, b: Counts) {
    place(output, "records", a.records, b.records);
    place(output, "turns", a.turns, b.turns);
    place(output, "blanks", a.blanks, b.blanks);
    place(output, "spins", a.spins, b.spins);
    place(output, "remote", a.remote, b.remote);
}

fn differences(output: &mut Output, a: &State, b: &State) {
    head(output, a, b);
    row(output, &a.threads, &b.threads, thread);
    row(output, &a.nodes, &b.nodes, node);
    row(output, &a.requests, &b.requests, request);
    row(output, &a.copies, &b.copies, copies);
    object(output, &a.object, &b.object);
    counts(output, a.counts, b.counts);
}

pub(crate) fn stepped(output: &mut Output, state: &State, entry: u8) {
    match step::step(*state, ThreadId(entry)) {
        Ok(after) => {
            write!(output, ": 0");
            differences(output, state, &after);
        }
        Err(refusal) => write!(output, ": {}", refusal.number()),
    }
    writeln!(output);
}

// The name of the field that a case is about.
fn field_name(field: u8) -> Option<&'static str> {
    let name = match field {
        b'n' => "n",
        b'h' => "h",
        b'm' => "capacity",
        b't' => "tail",
        b'o' => "held",
        b'r' => "count",
        b'b' => "begun",
        b'l' => "line",
        b'i' => "own",
        b'u' => "cur",
        b'j' => "tmp",
        b'x' => "tmpnext",
        b'v' => "served",
        b'O' => "toggle",
        b'y' => "my",
        b'J' => "pred",
        b'f' => "next",
        b'z' => "copies",
        b'@' => "entry",
        b'R' => "records",
        b'T' => "turns",
        b'B' => "blanks",
        b'L' => "spins",
        b'M' => "remote",
        b'U' => "remote but one",
        _ => return None,
    };
    Some(name)
}

// A field and what it is set to; a count's limit is its name alone.
pub(crate) fn swept(output: &mut Output, word: Word) {
    if let Some(name) = field_name(word.field) {
        write!(output, ", {name}");
    }
    if !matches!(word.field, b'R' | b'T' | b'B' | b'L' | b'M' | b'U') {
        write!(output, " {}", word.value);
    }
}

// A thread's steps, several in a row; a refusal is printed.
pub(crate) fn steps(output: &mut Output, state: &mut State, entry: u8, times: u8) {
    for _ in 0..times {
        match step::step(*state, ThreadId(entry)) {
            Ok(after) => *state = after,
            Err(_) => write!(output, " refused"),
        }
    }
}

fn entry_of(x: u8, n: u8) -> u8 {
    if n < 4 { x / 64 } else { x / 16 }
}

// Many steps of few or of sixteen threads, by sums of the last two numbers; how many were refused is printed.
pub(crate) fn walk(output: &mut Output, state: &mut State, seed: u8, times: usize) {
    let n = state.n;
    let mut refused = 0u64;
    let mut x = seed;
    let mut y = 1u8;
    for _ in 0..times {
        let sum = x.wrapping_add(y).wrapping_add(1);
        x = y;
        y = sum;
        match step::step(*state, ThreadId(entry_of(sum, n))) {
            Ok(after) => *state = after,
            Err(_) => refused = refused.wrapping_add(1),
        }
    }
    write!(output, " refused={refused}");
}

// What a run by steps changed in all.
pub(crate) fn ran(output: &mut Output, before: &State, after: &State) {
    differences(output, before, after);
    writeln!(output);
}
