// States: document 01's start, a state in use whose numbers past n are out of range, and a state with one part changed.
use machine::{Method, Node, NodeId, Thread};
use object::{Answer, Kind, Object, Request};
use state::{Counts, State};

// A change: which field, where, and to what. A letter stands for a field, as in the script's text: an enum of the fields would name each of the forty letters once
// more, in a conversion, and no match here would get shorter.
#[derive(Clone, Copy)]
pub(crate) struct Word {
    pub(crate) field: u8,
    pub(crate) at: u8,
    pub(crate) value: u8,
}

impl Word {
    // From 128 on a byte stands for the number as far below 2^32 as it is below 256.
    fn signed(self) -> u32 {
        i32::from(self.value.cast_signed()).cast_unsigned()
    }

    // K is a request that the object knows.
    fn request(self, kind: Kind) -> Request {
        match self.field {
            b'p' | b'P' => Request::Put(self.signed()),
            b'a' | b'A' => Request::Add(self.signed()),
            b'k' | b'K' => object::request_of(object::least_code(kind), self.signed()),
            _ => Request::Take,
        }
    }

    fn set_thread(self, thread: &mut Thread) {
        match self.field {
            b'r' => thread.count = self.value,
            b'b' => thread.begun = self.value,
            b'l' => thread.line = self.value,
            b'i' => thread.own = NodeId(self.value),
            b'u' => thread.cur = NodeId(self.value),
            b'j' => thread.tmp = NodeId(self.value),
            b'x' => thread.tmpnext = NodeId(self.value),
            b'v' => thread.served = self.value,
            b'O' => thread.toggle = self.value,
            b'y' => thread.my = NodeId(self.value),
            b'J' => thread.pred = NodeId(self.value),
            _ => {}
        }
    }

    fn set_node(self, kind: Kind, node: &mut Node) {
        match self.field {
            b'p' | b'g' | b'a' | b'k' => node.req = Some(self.request(kind)),
            b'e' => node.req = None,
            b'D' => node.ret = Some(Answer::Done(self.signed())),
            b'E' => node.ret = Some(Answer::Empty),
            b'F' => node.ret = Some(Answer::Full),
            b'V' => node.ret = Some(Answer::Value(u32::from(self.value))),
            b'N' => node.ret = None,
            b'w' => node.wait = self.value == 1,
            b'd' => node.completed = self.value == 1,
            b'f' => node.next = NodeId(self.value),
            _ => {}
        }
    }

    fn set_request(self, kind: Kind, request: &mut Request) {
        if matches!(self.field, b'P' | b'G' | b'A' | b'K') {
            *request = self.request(kind);
        }
    }

    // By z the copies of the first three threads go through their eight choices from place to place, those of some other threads are always there.
    fn set_copies(self, copies: &mut [u16; machine::LOCATIONS]) {
        match self.field {
            b'z' => {
                for (copy, choice) in copies.iter_mut().zip(u16::from(self.value)..) {
                    *copy = 0xA5A8 | choice % 8;
                }
            }
            b'W' => copies.fill(u16::from_be_bytes([self.at, self.value])),
            _ => {}
        }
    }

    // A number that stands alone, or a count.
    fn set_number(self, state: &mut State) {
        match self.field {
            b'n' => state.n = self.value,
            b'h' => state.h = self.value,
            b'm' => state.capacity = self.value,
            b't' => state.tail = NodeId(self.value),
            b'o' => state.object.held = self.value,
            b'#' => state.object.sum = self.signed(),
            b'R' => state.counts.records = self.signed(),
            b'T' => state.counts.turns = self.signed(),
            b'B' => state.counts.blanks = self.signed(),
            b'L' => state.counts.spins = self.signed(),
            b'M' | b'U' => state.counts.remote = self.signed(),
            _ => {}
        }
    }

    // A part changed: of a thread, of a node, a request at its place, the copies, or a number.
    pub(crate) fn set(self, state: &mut State) {
        let kind = state.kind;
        let at = usize::from(self.at);
        self.set_number(state);
        if let Some(thread) = state.threads.get_mut(at) {
            self.set_thread(thread);
        }
        if let Some(node) = state.nodes.get_mut(at) {
            self.set_node(kind, node);
        }
        if let Some(request) = state.requests.get_mut(at) {
            self.set_request(kind, request);
        }
        self.set_copies(&mut state.copies);
    }
}

// A thread whose nodes are all the same, and all of whose numbers are.
fn thread(node: u8, number: u8) -> Thread {
    Thread {
        count: number,
        begun: number,
        line: number,
        own: NodeId(node),
        cur: NodeId(node),
        tmp: NodeId(node),
        tmpnext: NodeId(node),
        served: number,
        toggle: number,
        my: NodeId(node),
        pred: NodeId(node),
    }
}

// The start but for the threads' own nodes and Tail; the threads have as many requests each, all alike.
pub(crate) fn started(method: Method, kind: Kind, n: u8, count: u8) -> State {
    let thread = Thread {
        count,
        ..thread(255, 0)
    };
    let node = Node {
        req: None,
        ret: None,
        wait: false,
        completed: false,
        next: NodeId(255),
    };
    let request = object::request_of(object::least_code(kind), 5);
    State {
        method,
        n,
        h: 1,
        kind,
        capacity: object::least_capacity(kind),
        tail: NodeId(0),
        threads: [thread; 16],
        nodes: [node; machine::NODES],
        requests: [request; machine::CALLS],
        copies: [0; machine::LOCATIONS],
        object: object::fresh(),
        counts: Counts {
            records: 0,
            turns: 0,
            blanks: 0,
            spins: 0,
            remote: 0,
        },
    }
}

// An object with items that differ from each other.
fn filled() -> Object {
    let mut object = object::fresh();
    for (item, value) in object.items.iter_mut().zip(900..) {
        *item = value;
    }
    object
}

// Three threads, every number of a thread or a node out of range, and requests that the object doesn't know.
pub(crate) fn strange(method: Method, kind: Kind) -> State {
    let thread = Thread {
        count: 17,
        line: 22,
        ..thread(99, 99)
    };
    let request = object::request_of(object::least_code(kind) ^ 2, 98);
    let node = Node {
        req: Some(request),
        ret: Some(Answer::Done(99)),
        wait: true,
        completed: true,
        next: NodeId(99),
    };
    State {
        threads: [thread; 16],
        nodes: [node; machine::NODES],
        requests: [request; machine::CALLS],
        object: filled(),
        ..started(method, kind, 3, 0)
    }
}
