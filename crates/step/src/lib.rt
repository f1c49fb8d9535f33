// The single step: one entry of a schedule on a state, by value.
#![tactic(auto)]

ghost use Rattle.std.specs.Prelude.{◌≡◌, ◌+◌, ◌-◌, ◌*◌, ◌<◌, true, if◌then◌else◌, Some, None, slice_index_or, slice_set};
ghost use Rattle.object.specs.Apply.{as_applied};
ghost use Rattle.state.specs.Range.{in_range, counts_in_range};
ghost use Rattle.step.specs.Entry.{zero_node, served_by, applied_at, more_of, plus, wrapped};
ghost use Rattle.step.specs.Step.{as_stepped, outcome_by, step_of};

use machine::{Event, Node, NodeId, ThreadId};
use object::{Answer, Kind, Object, Request};
use refusal::Refusal;
use state::{Counts, State};

// A node's req applied to the object: the answer and the object after it. Kind and capacity stand beside the object, as in a state.
pub fn served_by(
    kind: Kind,
    capacity: u8,
    object: Object,
    req: Option<Request>,
) -> Result<(Answer, Object), Refusal>
    ensures { as_applied object result ≡ served_by kind capacity object req }
{
    match req {
        None => Err(Refusal::OutOfRange),
        Some(request) => object::apply(kind, capacity, object, request),
    }
}

// An entry that applies serves the node's req; any other leaves the object.
fn applied_at(
    event: Event,
    kind: Kind,
    capacity: u8,
    object: Object,
    req: Option<Request>,
) -> Result<(Answer, Object), Refusal>
    ensures { as_applied object result ≡ applied_at event kind capacity object req }
{
    if event == Event::Applies {
        return served_by(kind, capacity, object, req);
    }
    Ok((Answer::Empty, object))
}

// The place of the call that a thread has begun last, and of its request in the rows; of a thread that has begun none, the first of its row.
pub fn call_place(thread: ThreadId, begun: u8) -> usize
    ensures { result ≡ 16 * thread.0 + (begun - 1) }
{
    16 * (thread.0 as usize) + (begun.saturating_sub(1) as usize)
}

// What an entry adds to the counts.
pub fn more_of(event: Event, remote: u8) -> Counts
    ensures { result ≡ more_of event remote }
{
    Counts {
        records: u32::from(event == Event::Swaps),
        turns: u32::from(event == Event::TurnBegins),
        blanks: u32::from(event == Event::Blank),
        spins: u32::from(event == Event::Spins),
        remote: u32::from(remote),
    }
}

// The counts after an entry, if each has 32 bits.
fn checked_plus(counts: Counts, more: Counts) -> Option<Counts>
    ensures { result ≡ (if counts_in_range (plus counts more) then Some (plus counts more) else None) }
{
    Some(Counts {
        records: counts.records.checked_add(more.records)?,
        turns: counts.turns.checked_add(more.turns)?,
        blanks: counts.blanks.checked_add(more.blanks)?,
        spins: counts.spins.checked_add(more.spins)?,
        remote: counts.remote.checked_add(more.remote)?,
    })
}

// The counts after an entry of a run. A count past 32 bits wraps: no run meets one.
pub fn plus(counts: Counts, more: Counts) -> Counts
    ensures { result ≡ wrapped (plus counts more) }
{
    Counts {
        records: counts.records.wrapping_add(more.records),
        turns: counts.turns.wrapping_add(more.turns),
        blanks: counts.blanks.wrapping_add(more.blanks),
        spins: counts.spins.wrapping_add(more.spins),
        remote: counts.remote.wrapping_add(more.remote),
    }
}

// What is read past the last node, where myNode or the node behind is null: a line makes nothing of it.
pub fn zero_node() -> Node
    ensures { result ≡ zero_node }
{
    Node {
        req: None,
        ret: None,
        wait: false,
        completed: false,
        next: NodeId(0),
    }
}

// A node, and the nodes with one written; past the last there is none.
fn node_at(nodes: [Node; machine::NODES], node: NodeId) -> Node
    ensures { result ≡ slice_index_or nodes node.0 zero_node }
{
    nodes.get(node.0 as usize).copied().unwrap_or(zero_node())
}

fn nodes_with(nodes: [Node; machine::NODES], node: NodeId, value: Node) -> [Node; machine::NODES]
    ensures { result ≡ slice_set nodes node.0 value }
{
    let place = node.0 as usize;
    let mut after = nodes;
    if place < machine::NODES {
        after[place] = value;
    }
    after
}

// The entry of a thread below n on a state in range.
fn enter(state: State, thread: ThreadId) -> Result<State, Refusal>
    requires { (in_range state ≡ true) × (thread.0 < state.n) }
    ensures { as_stepped state result ≡ outcome_by state.method state thread }
{
    let t = thread.0 as usize;
    let method = state.method;
    let tail = state.tail;
    let object = state.object;
    let named = state.threads[t];
    let line = machine::line_run(named);
    let row = methods::row_of(method, line);
    let target = machine::pointed(row.node, named);
    let node = node_at(state.nodes, target);
    let next = node.next;
    let behind = node_at(state.nodes, methods::node_behind(method, next));
    let emptied = tail == named.tmp;
    let event = machine::event_in(row, node, emptied);
    let place = call_place(thread, named.begun);
    let request = state.requests[place];
    let applied = applied_at(event, state.kind, state.capacity, object, node.req);
    let (answer, object_after) = applied.unwrap_or((Answer::Empty, object));
    let done = methods::run_line(
        method, thread, named, node, behind, tail, state.h, request, answer,
    )?;
    let mut after = state;
    let remote = copies::refer_all(
        method,
        &mut after.copies,
        row,
        target,
        next,
        thread,
        state.n,
    );
    let more = more_of(event, remote);
    let counts = checked_plus(state.counts, more).ok_or(Refusal::OutOfRange)?;
    let written = machine::written(row, target, next);
    after.threads[t] = done.thread;
    after.nodes = nodes_with(state.nodes, written, done.node);
    after.tail = done.tail;
    after.object = object_after;
    after.counts = counts;
    Ok(after)
}

// One entry of a schedule: 14 for the state, then 11, then 14 for the outcome.
pub fn step(state: State, thread: ThreadId) -> Result<State, Refusal>
    ensures { as_stepped state result ≡ step_of state thread }
{
    if !state::in_range(&state) {
        return Err(Refusal::OutOfRange);
    }
    if state.n <= thread.0 {
        return Err(Refusal::Entry);
    }
    enter(state, thread)
}
