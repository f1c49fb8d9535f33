// Cases as text, a row each: a name, a base and changes to it, then the cases.
// A letter names a field, as make says; a number before = says where, a number after it to what; a space or a point ends a change.
// A comma shows a case named by what the change sets, a semicolon by where, a point by neither. A bar stands before the steps of a run.
use crate::make::Word;
use crate::{make, show};
use console::Output;
use machine::Method;
use object::Kind;
use state::State;

impl Word {
    fn letter(field: u8) -> Word {
        Word {
            field,
            at: 0,
            value: 0,
        }
    }

    // A byte read: the change so far.
    fn read(self, byte: u8) -> Word {
        match byte {
            b'0'..=b'9' => {
                let tens = self.value.checked_mul(10).unwrap_or(0);
                let value = tens.wrapping_add(byte - b'0');
                Word { value, ..self }
            }
            b'=' => Word {
                at: self.value,
                value: 0,
                ..self
            },
            b',' | b';' => Word { value: 0, ..self },
            b' ' | b'\n' | b'.' => self,
            _ => Word::letter(byte),
        }
    }
}

// The changes of a script, each with the byte that ends it.
fn words<F: FnMut(u8, Word)>(script: &str, mut ended: F)
    requires { F.IsAlwaysCallable ended }
{
    let mut word = Word::letter(0);
    for byte in script.bytes() {
        if matches!(byte, b' ' | b'\n' | b'.' | b',' | b';') {
            ended(byte, word);
        }
        word = word.read(byte);
    }
}

// A thread's steps, a hundred times as many steps of all threads, or a part changed.
fn done(output: &mut Output, state: &mut State, word: Word) {
    match word.field {
        b'!' => show::steps(output, state, word.at, word.value),
        b'?' => show::walk(output, state, word.at, 100 * usize::from(word.value)),
        _ => word.set(state),
    }
}

// A state after all changes of a script.
fn changed(output: &mut Output, state: State, script: &str) -> State {
    let mut s = state;
    words(script, |end, word| {
        if matches!(end, b' ' | b'\n' | b'.') {
            done(output, &mut s, word);
        }
    });
    s
}

fn kind(letter: u8) -> Kind {
    match letter {
        b'q' | b'Q' | b'X' | b'H' => Kind::Queue,
        b's' | b'S' | b'Y' => Kind::Stack,
        _ => Kind::Counter,
    }
}

// Three threads of CC-Synch in use, thread 2 without a request left.
fn used(output: &mut Output, kind: Kind) -> State {
    changed(
        output,
        make::strange(Method::CcSynch, kind),
        "h5 t1 #77 R10 T20 B30 L40 M50 z0
r0=3 b0=1 l0=0 i0=2 u0=0 j0=1 x0=3 v0=4 r1=3 b1=2 l1=0 i1=0 u1=2 j1=3 x1=1 v1=1
r2=1 b2=1 l2=0 i2=3 u2=255 j2=255 x2=255 v2=0
k0=10 V0=20 w0=0 f0=3 k1=11 V1=21 f1=0 k2=12 V2=22 w2=0 d2=0 f2=1 k3=13 V3=23 d3=0 f3=2
K0=30 K1=31 K2=32 K16=32 K17=30 K18=31 K32=31.",
    )
}

// Document 01's start.
fn started(output: &mut Output, kind: Kind, n: u8, count: u8) -> State {
    changed(
        output,
        make::started(Method::CcSynch, kind, n, count),
        "i0=1 i1=2 i2=3 i3=4 i4=5 i5=6 i6=7 i7=8 i8=9 i9=10 i10=11 i11=12 i12=13 i13=14 i14=15 i15=16.",
    )
}

// Two threads of DSM-Synch in use, thread 1 without a request left: nodes 0 and 1 are thread 0's, 2 and 3 thread 1's.
fn used_dsm(output: &mut Output, kind: Kind) -> State {
    changed(
        output,
        make::strange(Method::DsmSynch, kind),
        "n2 h1 m4 o2 t1 #77 R10 T20 B30 L40 M50 z0
r0=3 b0=1 l0=0 O0=1 y0=1 J0=2 j0=3 v0=0 r1=1 b1=1 l1=0 O1=0 y1=2 J1=255 j1=255 v1=0
k0=10 V0=20 w0=0 d0=0 f0=255 k1=11 V1=21 w1=0 d1=0 f1=255 k2=12 V2=22 w2=0 d2=0 f2=255 k3=13 V3=23 w3=0 d3=0 f3=255
K0=30 K1=31 K2=32 K16=32.",
    )
}

// The start of DSM-Synch.
fn started_dsm(output: &mut Output, kind: Kind, n: u8, count: u8) -> State {
    changed(
        output,
        make::started(Method::DsmSynch, kind, n, count),
        "t255.",
    )
}

// A small letter is a state in use, Q, S and C one thread at its start, X, Y and Z sixteen with sixteen requests each; H and I are the like of q and C by DSM-Synch.
fn base(output: &mut Output, letter: u8) -> State {
    let kind = kind(letter);
    match letter {
        b'q' | b's' => {
            let state = used(output, kind);
            changed(output, state, "m4 o2.")
        }
        b'c' => used(output, kind),
        b'H' => used_dsm(output, kind),
        b'I' => started_dsm(output, kind, 1, 0),
        b'Q' | b'S' | b'C' => started(output, kind, 1, 0),
        _ => started(output, kind, 16, 16),
    }
}

// The base's letter stands first.
fn made(output: &mut Output, script: &str) -> State {
    let letter = script.bytes().next().unwrap_or(b'q');
    let state = base(output, letter);
    changed(output, state, script)
}

// The cases of a script, each from the same state; @ is a schedule's entry other than the table's. A case's name ends with a field and what it is set to, with where
// a change is, or with neither.
fn cases(output: &mut Output, name: &str, script: &str, entry: u8) {
    let state = made(output, script);
    let mut own = entry;
    words(script, |end, word| {
        if word.field == b'@' {
            own = word.value;
        }
        if matches!(end, b',' | b';' | b'.') {
            write!(output, "{name}");
            match end {
                b',' => show::swept(output, word),
                b';' => write!(output, " {}", word.at),
                _ => {}
            }
            let mut s = state;
            word.set(&mut s);
            show::stepped(output, &s, own);
        }
    });
}

// What a script shows: a run where it has a bar, else its cases.
fn scripted(output: &mut Output, name: &str, script: &str, entry: u8) {
    match script.split_once('|') {
        Some((start, _)) => {
            write!(output, "{name}:");
            let before = made(output, start);
            let after = made(output, script);
            show::ran(output, &before, &after);
        }
        None => cases(output, name, script, entry),
    }
}

// The rows of a table, for a schedule's entry.
pub(crate) fn table(output: &mut Output, entry: u8, rows: &str) {
    for row in rows.lines() {
        if let Some((name, script)) = row.split_once(": ") {
            scripted(output, name, script, entry);
        }
    }
}
