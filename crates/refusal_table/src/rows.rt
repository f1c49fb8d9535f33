// The writer's rows and the lent buffer at their limits, and several faults at once.
ghost use Rattle.std.specs.Prelude.{◌<◌, length};

use crate::show;
use crate::show::first;
use bench_writer::Given;
use console::Output;

// The version and the numbers given; the byte that each count is; each request's code, and the first and last byte of its value; each
// second entry, the other entries are 0. Then the lengths of the counts, the requests, the schedule and the lent buffer.
#[derive(Clone, Copy)]
struct Case {
    version: u16,
    object: u8,
    n: u8,
    h: u8,
    capacity: u8,
    method: u8,
    count: u8,
    code: u8,
    value: u8,
    entry: u8,
    counts: usize,
    requests: usize,
    entries: usize,
    room: usize,
}

// A row of bytes becomes a pattern repeated.
fn fill(row: &mut [u8], pattern: &[u8])
    requires { 0 < length pattern.now }
{
    for (i, slot) in row.iter_mut().enumerate() {
        *slot = pattern[i % pattern.len()];
    }
}

impl Case {
    fn with_version(self, version: u16) -> Case {
        Case { version, ..self }
    }

    fn with_method(self, method: u8) -> Case {
        Case { method, ..self }
    }

    fn with_rows(self, counts: usize, requests: usize, entries: usize) -> Case {
        Case {
            counts,
            requests,
            entries,
            ..self
        }
    }

    fn with_room(self, room: usize) -> Case {
        Case { room, ..self }
    }

    fn show(self, output: &mut Output) {
        self.name(output);
        self.write(output);
    }

    fn name(self, output: &mut Output) {
        let Case {
            version,
            object,
            n,
            h,
            capacity,
            method,
            count,
            code,
            value,
            entry,
            counts,
            requests,
            entries,
            room,
        } = self;
        write!(output, "given {version} {object} {n} {h} {capacity}");
        write!(output, " {method} {count} {code} {value} {entry}");
        write!(output, " rows {counts} {requests} {entries} room {room}:");
    }

    fn write(self, output: &mut Output) {
        let counts = [self.count; 17];
        let mut requests = [0; 1281];
        let mut schedule = [0; 70000];
        fill(&mut requests, &[self.code, self.value, 0, 0, self.value]);
        fill(&mut schedule, &[0, self.entry]);
        let given = Given {
            version: self.version,
            object: self.object,
            n: self.n,
            h: self.h,
            capacity: self.capacity,
            method: self.method,
            counts: first(&counts, self.counts),
            requests: first(&requests, self.requests),
            schedule: first(&schedule, self.entries),
        };
        show::written(output, given, &mut [0; 34077], self.room);
    }
}

// Two threads with a put each; with two entries 25 bytes.
const PUTS: Case = Case {
    version: 1,
    object: 0,
    n: 2,
    h: 1,
    capacity: 1,
    method: 0,
    count: 1,
    code: 0,
    value: 7,
    entry: 1,
    counts: 2,
    requests: 10,
    entries: 2,
    room: 25,
};

fn lengths(output: &mut Output) {
    PUTS.show(output);
    PUTS.with_room(26).show(output);
    PUTS.with_room(24).show(output);
    PUTS.with_room(0).show(output);
    PUTS.with_rows(0, 10, 2).show(output);
    PUTS.with_rows(1, 10, 2).show(output);
    PUTS.with_rows(3, 10, 2).show(output);
    PUTS.with_rows(2, 0, 2).show(output);
    PUTS.with_rows(2, 9, 2).show(output);
    PUTS.with_rows(2, 11, 2).show(output);
    PUTS.with_rows(2, 10, 0).with_room(23).show(output);
    PUTS.with_rows(2, 10, 32768).with_room(32791).show(output);
    PUTS.with_rows(2, 10, 32769).with_room(32792).show(output);
    PUTS.with_rows(2, 10, 65536).with_room(34077).show(output);
    PUTS.with_rows(2, 10, 70000).with_room(34077).show(output);
    Case { entry: 2, ..PUTS }
        .with_rows(2, 10, 32768)
        .with_room(32791)
        .show(output);
}

// Sixteen threads with sixteen puts each; with 32,768 entries the longest file of its version.
const MOST: Case = Case {
    version: 1,
    object: 0,
    n: 16,
    h: 255,
    capacity: 64,
    method: 0,
    count: 16,
    code: 0,
    value: 7,
    entry: 15,
    counts: 16,
    requests: 1280,
    entries: 32768,
    room: 34075,
};

fn largest(output: &mut Output) {
    MOST.show(output);
    MOST.with_room(34074).show(output);
    MOST.with_rows(17, 1280, 32768).show(output);
    MOST.with_rows(16, 1281, 32768).show(output);
    MOST.with_rows(16, 1280, 32769)
        .with_room(34077)
        .show(output);
    Case { count: 17, ..MOST }
        .with_rows(16, 1280, 2)
        .show(output);
    Case {
        object: 1,
        count: 0,
        requests: 0,
        entries: 2,
        room: 29,
        ..MOST
    }
    .show(output);
    Case {
        object: 1,
        count: 0,
        entry: 16,
        requests: 0,
        entries: 2,
        room: 29,
        ..MOST
    }
    .show(output);
    Case {
        object: 2,
        n: 1,
        capacity: 0,
        count: 16,
        code: 2,
        entry: 0,
        counts: 1,
        requests: 80,
        entries: 0,
        room: 92,
        ..PUTS
    }
    .show(output);
}

// The same in version 2, a byte longer; each version with the methods that it has, and that it has not.
fn second(output: &mut Output) {
    let puts = PUTS.with_version(2).with_room(26);
    puts.show(output);
    puts.with_room(25).show(output);
    MOST.with_version(2).with_room(34076).show(output);
    MOST.with_version(2).show(output);
    puts.with_version(0).show(output);
    puts.with_version(3).show(output);
    puts.with_version(257).show(output);
    puts.with_version(258).show(output);
    puts.with_version(65535).show(output);
    puts.with_version(1).with_method(1).show(output);
    puts.with_method(1).show(output);
    puts.with_method(2).show(output);
    puts.with_method(255).show(output);
}

// All faults at once; then the first of them mended, time after time.
fn faults(output: &mut Output) {
    let mut case = Case {
        version: 3,
        object: 3,
        n: 0,
        h: 0,
        capacity: 65,
        method: 2,
        count: 17,
        code: 3,
        value: 7,
        entry: 255,
        counts: 3,
        requests: 11,
        entries: 32769,
        room: 0,
    };
    case.show(output);
    case.version = 2;
    case.show(output);
    case.object = 0;
    case.show(output);
    case.n = 2;
    case.show(output);
    case.h = 1;
    case.show(output);
    case.capacity = 64;
    case.show(output);
    case.method = 1;
    case.show(output);
    case.counts = 1;
    case.show(output);
    case.counts = 2;
    case.show(output);
    case.count = 1;
    case.show(output);
    case.requests = 9;
    case.show(output);
    case.requests = 10;
    case.show(output);
    case.code = 1;
    case.show(output);
    case.value = 0;
    case.show(output);
    case.entries = 2;
    case.show(output);
    case.entry = 1;
    case.show(output);
    case.room = 26;
    case.show(output);
}

pub(crate) fn run(output: &mut Output) {
    lengths(output);
    largest(output);
    second(output);
    faults(output);
}
