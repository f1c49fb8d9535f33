// Loads a bench file: judges any bytes, and makes the fresh machine of the file.
#![tactic(auto)]

ghost use Rattle.std.specs.Prelude.{◌≡◌, ◌+◌, ◌*◌, ◌≤◌, ◌<◌, length, drop};
ghost use Rattle.std.proofs.lemmas.List.Edits.{sets};
ghost use Rattle.refusal.specs.Numbers.{by_number};
ghost use Rattle.bench_file.specs.Layout.{Fields, accepted, judge_of};
ghost use Rattle.machine.specs.Sizes.{most_calls};
ghost use Rattle.state.specs.Fresh.{fresh_thread, fresh_threads, fresh_node, fresh_tail, fresh_state_by};
ghost use Rattle.step.specs.Entry.{zero_request};
ghost use Rattle.claims.specs.Entries.{start_by};
ghost use Rattle.loader.specs.Load.{request_in, requests_in, loaded_as};

use bench_file::Head;
use machine::{Method, Node, NodeId, Thread};
use object::Request;
use refusal::Refusal;
use state::{Counts, State};

// What an accepted file loads as: how many requests and entries it has, and its fresh machine.
#[derive(Clone, Copy)]
pub struct Loaded {
    pub requests: usize,
    pub entries: usize,
    pub state: State,
}

// Thread i, idle, with so many requests.
fn fresh_thread(i: u8, count: u8) -> Thread
    requires { i < 16 }
    ensures { result ≡ fresh_thread i count }
{
    let null = NodeId(machine::NULL);
    Thread {
        count,
        begun: 0,
        line: 0,
        own: NodeId(i + 1),
        cur: null,
        tmp: null,
        tmpnext: null,
        served: 0,
        toggle: 0,
        my: null,
        pred: null,
    }
}

fn fresh_node() -> Node
    ensures { result ≡ fresh_node }
{
    Node {
        req: None,
        ret: None,
        wait: false,
        completed: false,
        next: NodeId(machine::NULL),
    }
}

// A place without a request.
fn no_request() -> Request
    ensures { result ≡ zero_request }
{
    Request::Put(0)
}

// A thread for each count; its number is a byte, as the state has it.
fn fresh_threads(counts: [u8; 16]) -> [Thread; 16]
    ensures { result ≡ fresh_threads 0 counts }
{
    std::array::from_fn(|i| fresh_thread(i as u8, counts[i]))
}

// Tail at the start.
fn fresh_tail(method: Method) -> NodeId
    ensures { result ≡ fresh_tail method }
{
    match method {
        Method::CcSynch => NodeId(0),
        Method::DsmSynch => NodeId(machine::NULL),
    }
}

// The fresh machine of a head, counts and requests.
fn fresh(head: Head, counts: [u8; 16], requests: [Request; machine::CALLS]) -> State
    ensures { result ≡ fresh_state_by head.method head.object head.n head.h head.capacity counts requests }
{
    State {
        method: head.method,
        n: head.n,
        h: head.h,
        kind: head.object,
        capacity: head.capacity,
        tail: fresh_tail(head.method),
        threads: fresh_threads(counts),
        nodes: [fresh_node(); machine::NODES],
        requests,
        copies: [0; machine::LOCATIONS],
        object: object::fresh(),
        counts: Counts {
            records: 0,
            turns: 0,
            blanks: 0,
            spins: 0,
            remote: 0,
        },
    }
}

// The request that the bytes begin with.
fn request_in(bytes: &[u8]) -> Request
    requires { 5 ≤ length bytes.now }
    ensures { result ≡ request_in bytes.now }
{
    let value = u32::from_le_bytes([bytes[1], bytes[2], bytes[3], bytes[4]]);
    object::request_of(bytes[0], value)
}

// Lays so many requests from place `first` on, as the bytes have them.
fn lay(requests: &mut [Request; machine::CALLS], first: usize, bytes: &[u8], count: usize)
    requires { (first + count ≤ most_calls) × (5 * count ≤ length bytes.now) }
    ensures { requests.new ≡ sets requests.old first (requests_in count bytes.now) }
{
    for k in 0..count {
        let request = request_in(&bytes[5 * k..]);
        requests[first + k] = request;
    }
}

// The fresh machine of an accepted file.
fn machine_of(file: &[u8], head: Head) -> State
    requires { (f : Fields) × (judge_of file.now ≡ accepted f) × (f.head ≡ head) }
    ensures { (f : Fields) → judge_of file.now ≡ accepted f → result ≡ start_by head.method f }
{
    let mut counts = [0; 16];
    let mut requests = [no_request(); machine::CALLS];
    let mut at = bench_file::head_bytes(head.version);
    for i in 0..head.n as usize {
        let count = file[at];
        counts[i] = count;
        lay(&mut requests, 16 * i, &file[at + 1..], count as usize);
        at += 1 + 5 * count as usize;
    }
    fresh(head, counts, requests)
}

// Judges any bytes as a bench file, and makes the fresh machine of the file.
pub fn load(file: &[u8]) -> Result<Loaded, Refusal>
    ensures { by_number result ≡ loaded_as (judge_of file.now) }
{
    let judged = bench_file::judge(file)?;
    Ok(Loaded {
        requests: judged.requests,
        entries: judged.entries,
        state: machine_of(file, judged.head),
    })
}
