// The state of a single step: the machine, the requests, the copies, the object and the counts; and whether the numbers that its method uses are in range.
#![tactic(auto)]

ghost use Rattle.std.specs.Prelude.{◌≡◌, ◌≤◌, ◌<◌, length, take};
ghost use Rattle.object.specs.Apply.{knows};
ghost use Rattle.object.specs.Each.{every};
ghost use Rattle.machine.specs.Methods.{last_node, tail_nullable};
ghost use Rattle.state.specs.Range.{pointer_in_range, line_in_range, requests_in_range, cc_pointers_in_range, dsm_pointers_in_range, pointers_in_range, thread_in_range, req_in_range, ret_in_range, node_in_range, rows_in_range, head_in_range, in_range};

use machine::{Method, Node, NodeId, Thread};
use object::{Answer, Kind, Object, Request};

// The five counts: Swaps done, turns begun, blanks, spins and remote references.
#[derive(Clone, Copy)]
pub struct Counts {
    pub records: u32,
    pub turns: u32,
    pub blanks: u32,
    pub spins: u32,
    pub remote: u32,
}

// The machine of a method. Thread i's requests stand from place 16 · i on. The copies of Tail come first, then those of each node.
#[derive(Clone, Copy)]
pub struct State {
    pub method: Method,
    pub n: u8,
    pub h: u8,
    pub kind: Kind,
    pub capacity: u8,
    pub tail: NodeId,
    pub threads: [Thread; 16],
    pub nodes: [Node; machine::NODES],
    pub requests: [Request; machine::CALLS],
    pub copies: [u16; machine::LOCATIONS],
    pub object: Object,
    pub counts: Counts,
}

// The last node of n threads.
fn last_node(method: Method, n: u8) -> u8
    requires { (0 < n) × (n ≤ 16) }
    ensures { result ≡ last_node method n }
{
    match method {
        Method::CcSynch => n,
        Method::DsmSynch => 2 * n - 1,
    }
}

fn tail_nullable(method: Method) -> bool
    ensures { result ≡ tail_nullable method }
{
    method == Method::DsmSynch
}

// Each test takes the limits that it judges by, of five: the method, its last node, h, kind and capacity. A struct of them would hand every test all five.
fn pointer_in_range(last: u8, nullable: bool, node: NodeId) -> bool
    ensures { result ≡ pointer_in_range last nullable node }
{
    (node.0 <= last) | machine::is_null(node) & nullable
}

fn line_in_range(last: u8, line: u8) -> bool
    ensures { result ≡ line_in_range last line }
{
    (line == 0) | object::between(2, line, last)
}

fn requests_in_range(thread: Thread) -> bool
    ensures { result ≡ requests_in_range thread }
{
    (thread.count <= 16)
        & (thread.begun <= thread.count)
        & ((thread.line == 0) | (1 <= thread.begun))
}

fn cc_pointers_in_range(last: u8, thread: Thread) -> bool
    ensures { result ≡ cc_pointers_in_range last thread }
{
    let line = thread.line;
    pointer_in_range(last, false, thread.own)
        & pointer_in_range(last, line < 6, thread.cur)
        & pointer_in_range(last, (line < 13) | (line == 21), thread.tmp)
        & pointer_in_range(last, true, thread.tmpnext)
}

fn dsm_pointers_in_range(last: u8, thread: Thread) -> bool
    ensures { result ≡ dsm_pointers_in_range last thread }
{
    (thread.toggle <= 1)
        & pointer_in_range(last, thread.line < 3, thread.my)
        & pointer_in_range(last, true, thread.pred)
        & pointer_in_range(last, thread.line < 14, thread.tmp)
}

fn pointers_in_range(method: Method, last: u8, thread: Thread) -> bool
    ensures { result ≡ pointers_in_range method last thread }
{
    match method {
        Method::CcSynch => cc_pointers_in_range(last, thread),
        Method::DsmSynch => dsm_pointers_in_range(last, thread),
    }
}

fn thread_in_range(method: Method, last: u8, h: u8, thread: Thread) -> bool
    ensures { result ≡ thread_in_range method last h thread }
{
    requests_in_range(thread)
        & line_in_range(machine::last_line(method), thread.line)
        & pointers_in_range(method, last, thread)
        & (thread.served <= h)
}

fn req_in_range(kind: Kind, req: Option<Request>) -> bool
    ensures { result ≡ req_in_range kind req }
{
    match req {
        None => true,
        Some(request) => object::knows(kind, request),
    }
}

fn ret_in_range(capacity: u8, ret: Option<Answer>) -> bool
    ensures { result ≡ ret_in_range capacity ret }
{
    match ret {
        None => true,
        Some(answer) => object::answer_in_range(capacity, answer),
    }
}

fn node_in_range(kind: Kind, capacity: u8, last: u8, node: Node) -> bool
    ensures { result ≡ node_in_range kind capacity last node }
{
    req_in_range(kind, node.req)
        & ret_in_range(capacity, node.ret)
        & pointer_in_range(last, true, node.next)
}

fn threads_in_range(method: Method, last: u8, h: u8, threads: &[Thread]) -> bool
    ensures { result ≡ every (thread_in_range method last h) threads.now }
{
    threads
        .iter()
        .all(|thread| thread_in_range(method, last, h, *thread))
}

fn nodes_in_range(kind: Kind, capacity: u8, last: u8, nodes: &[Node]) -> bool
    ensures { result ≡ every (node_in_range kind capacity last) nodes.now }
{
    nodes
        .iter()
        .all(|node| node_in_range(kind, capacity, last, *node))
}

// The row of one thread: the first places, as many as its count.
fn row_in_range(kind: Kind, requests: &[Request], count: u8) -> bool
    ensures { result ≡ every (knows kind) (take count requests.now) }
{
    requests
        .iter()
        .take(count as usize)
        .all(|request| object::knows(kind, *request))
}

fn rows_in_range(kind: Kind, requests: &[Request; machine::CALLS], threads: &[Thread]) -> bool
    requires { length threads.now ≤ 16 }
    ensures { result ≡ rows_in_range kind requests.now 0 threads.now }
{
    for (i, thread) in threads.iter().enumerate() {
        if !row_in_range(kind, &requests[16 * i..], thread.count) {
            return false;
        }
    }
    true
}

fn head_in_range(state: &State) -> bool
    ensures { result ≡ head_in_range state.now }
{
    object::between(1, state.n, 16)
        & object::between(1, state.h, 255)
        & object::held_in_range(state.kind, state.capacity, state.object.held)
}

// Whether each number of a state that is judged is in its range.
pub fn in_range(state: &State) -> bool
    ensures { result ≡ in_range state.now }
{
    if !head_in_range(state) {
        return false;
    }
    let method = state.method;
    let kind = state.kind;
    let last = last_node(method, state.n);
    let threads = &state.threads[..state.n as usize];
    let nodes = &state.nodes[..last as usize + 1];
    pointer_in_range(last, tail_nullable(method), state.tail)
        & threads_in_range(method, last, state.h, threads)
        & nodes_in_range(kind, state.capacity, last, nodes)
        & rows_in_range(kind, &state.requests, threads)
}
