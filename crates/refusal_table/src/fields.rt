// One byte of an accepted file is exchanged for each of several values. The file is judged, and written from its fields.
ghost use Rattle.std.specs.Prelude.{◌<◌, ◌≤◌};

use crate::show;
use bench_writer::Given;
use console::Output;
use object::Kind;

#[derive(Clone, Copy)]
enum Version {
    First = 1,
    Second = 2,
}

impl Version {
    // Where the rows begin: behind the method's byte in version 2.
    fn rows(self) -> usize
        ensures { result ≤ 10 }
    {
        match self {
            Version::First => 9,
            Version::Second => 10,
        }
    }
}

// A file of one thread with one request and one entry, its row from a place on: 9 more bytes. In version 2 byte 9 is method 0.
#[derive(Clone, Copy)]
struct Sample {
    name: &'static str,
    version: Version,
    file: [u8; 19],
}

impl Sample {
    // With the least capacity and the least code that the object allows.
    fn new(name: &'static str, version: Version, kind: Kind) -> Sample {
        let mut file = *b"CCS\0\0\0\x01\x01\0\0\0\0\0\0\0\0\0\0\0";
        let rows = version.rows();
        file[3] = version as u8;
        file[5] = u8::from(kind);
        file[8] = object::least_capacity(kind);
        file[rows] = 1;
        file[rows + 1] = object::least_code(kind);
        file[rows + 6] = 1;
        Sample {
            name,
            version,
            file,
        }
    }

    fn named(self, name: &'static str) -> Sample {
        Sample { name, ..self }
    }

    // The same with a take.
    fn taking(self, name: &'static str) -> Sample {
        let mut sample = self.named(name);
        sample.file[self.version.rows() + 1] = 1;
        sample
    }

    fn bytes(&self) -> &[u8] {
        &self.file[..self.version.rows() + 9]
    }

    fn method(&self) -> u8 {
        match self.version {
            Version::First => 0,
            Version::Second => self.file[9],
        }
    }

    fn answers(&self, output: &mut Output) {
        show::judged(output, self.bytes());
        let file = &self.file;
        let rows = self.version.rows();
        let given = Given {
            version: u16::from_le_bytes([file[3], file[4]]),
            object: file[5],
            n: file[6],
            h: file[7],
            capacity: file[8],
            method: self.method(),
            counts: &file[rows..rows + 1],
            requests: &file[rows + 1..rows + 6],
            schedule: &file[rows + 8..rows + 9],
        };
        show::written(output, given, &mut [0; 21], 20);
    }

    // A byte is exchanged for each of the values.
    fn sweep(&self, output: &mut Output, field: &str, at: usize, values: &[u8])
        requires { at < 19 }
    {
        for value in values {
            write!(output, "{} {field} {value}:", self.name);
            let mut other = *self;
            other.file[at] = *value;
            other.answers(output);
        }
    }

    fn starts(&self, output: &mut Output) {
        self.sweep(output, "mark 0", 0, &[0x42, 0x44]);
        self.sweep(output, "mark 1", 1, &[0x42, 0x44]);
        self.sweep(output, "mark 2", 2, &[0x52, 0x54]);
        self.sweep(output, "version low", 3, &[0, 1, 2, 3]);
        self.sweep(output, "version high", 4, &[0, 1]);
    }

    fn lengths(&self, output: &mut Output) {
        let rows = self.version.rows();
        self.sweep(output, "length low", rows + 6, &[0, 1, 2]);
        self.sweep(output, "length high", rows + 7, &[0x7F, 0x80, 0xFF]);
    }

    fn numbers(&self, output: &mut Output) {
        let rows = self.version.rows();
        self.sweep(output, "object", 5, &[0, 1, 2, 3]);
        self.sweep(output, "n", 6, &[0, 1, 16, 17]);
        self.sweep(output, "h", 7, &[0, 1, 255]);
        self.sweep(output, "capacity", 8, &[0, 1, 64, 65]);
        self.sweep(output, "count", rows, &[0, 1, 16, 17]);
        self.sweep(output, "entry", rows + 8, &[0, 1, 255]);
    }

    fn methods(&self, output: &mut Output) {
        self.sweep(output, "method", 9, &[0, 1, 2, 255]);
    }

    fn requests(&self, output: &mut Output) {
        let rows = self.version.rows();
        show::cuts(output, self.name, self.bytes());
        self.sweep(output, "code", rows + 1, &[0, 1, 2, 3]);
        self.sweep(output, "value 0", rows + 2, &[1]);
        self.sweep(output, "value 1", rows + 3, &[1]);
        self.sweep(output, "value 2", rows + 4, &[1]);
        self.sweep(output, "value 3", rows + 5, &[1]);
    }
}

fn first(output: &mut Output) {
    let queue = Sample::new("queue", Version::First, Kind::Queue);
    let stack = Sample::new("stack", Version::First, Kind::Stack);
    let counter = Sample::new("counter", Version::First, Kind::Counter);
    queue.starts(output);
    queue.lengths(output);
    queue.numbers(output);
    stack.numbers(output);
    counter.numbers(output);
    queue.named("queue put").requests(output);
    queue.taking("queue take").requests(output);
    stack.named("stack put").requests(output);
    stack.taking("stack take").requests(output);
    counter.named("counter add").requests(output);
}

// In version 2, and by the other method.
fn second(output: &mut Output) {
    let queue = Sample::new("version 2 queue", Version::Second, Kind::Queue);
    queue.starts(output);
    queue.lengths(output);
    queue.numbers(output);
    queue.methods(output);
    let mut counter = Sample::new("version 2 counter", Version::Second, Kind::Counter);
    counter.file[9] = 1;
    counter.numbers(output);
    counter.methods(output);
    counter.named("version 2 counter add").requests(output);
}

pub(crate) fn run(output: &mut Output) {
    first(output);
    second(output);
}
