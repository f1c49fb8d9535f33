// What a run keeps of each call while it goes, and what it notes: turns, the call that a node is given to, Swap order.
#![tactic(auto)]

ghost use Rattle.std.specs.Prelude.{◌≡◌, ◌%◌, true, if◌then◌else◌, slice_index, slice_set};
ghost use Rattle.machine.specs.Events.{same_event};
ghost use Rattle.kept.specs.Kept.{unkept, after_entry, after_serving, no_notes};

use machine::{Event, NodeId, ThreadId};
use object::Answer;
use state::Counts;

// What a run keeps of a call for its record.
#[derive(Clone, Copy)]
pub struct Kept {
    pub mark: u8,
    pub server: u8,
    pub value: u32,
    pub remote: u32,
    pub turn: u16,
    pub began: u32,
    pub returned: u32,
}

// How many bytes the record of a call has.
pub const RECORD_LENGTH: usize = 24;

// The place of no call: that of request 255 of thread 255. No Option, which would make each of the notes twice as large; a run asks only of nodes that are given.
pub const NO_CALL: u16 = 16 * 255 + 255;

// The numbers below are the record's own: `Kept` is what a run keeps for the record's bytes, where an Option would be turned into these numbers again.

// No thread: the server of a call that is not served.
pub const NO_THREAD: u8 = 255;

// No turn: of a thread that has begun none, and of a call that is not served.
pub const NO_TURN: u16 = 65535;

// No entry's number: of a call that has not returned, or not begun.
pub const NO_ENTRY: u32 = 4_294_967_295;

// What is kept of a call before its first entry.
pub fn unkept() -> Kept
    ensures { result ≡ unkept }
{
    Kept {
        mark: 255,
        server: NO_THREAD,
        value: 0,
        remote: 0,
        turn: NO_TURN,
        began: NO_ENTRY,
        returned: NO_ENTRY,
    }
}

// The entry's call: its remote references, and the numbers of the entries that it begins and returns with.
pub fn after_entry(kept: Kept, event: Event, remote: u8, number: u32) -> Kept
    ensures { result ≡ after_entry kept event remote number }
{
    let mut after = kept;
    after.remote = kept.remote.wrapping_add(u32::from(remote));
    if event == Event::CallBegins {
        after.began = number;
    }
    if event == Event::Returns {
        after.returned = number;
    }
    after
}

// The call that the entry serves: its answer, by which thread and in which turn.
pub fn after_serving(kept: Kept, answer: Answer, server: ThreadId, turn: u16) -> Kept
    ensures { result ≡ after_serving kept true answer server turn }
{
    Kept {
        mark: object::answer_mark(answer),
        server: server.0,
        value: object::answer_value(answer),
        turn,
        ..kept
    }
}

// Notes a number at a place; past the end nothing is noted, as `set` has it. By index: of a write through `get_mut` a proof knows the length alone.
fn note(numbers: &mut [u16], at: usize, number: usize)
    ensures { numbers.new ≡ slice_set numbers.old at (number % 65536) }
{
    if at < numbers.len() {
        numbers[at] = (number % 65536) as u16;
    }
}

// The place of the call that a node is given to, where places are noted node by node, of any number of nodes; past them, where no node is given, 0.
pub fn given_at(given: &[u16], node: NodeId) -> u16
    ensures { result ≡ slice_index given.now node.0 }
{
    given.get(node.0 as usize).copied().unwrap_or(0)
}

// What a run notes beside what it keeps of its calls, each by a number of its own: the turn of a thread, the call that a node is given to, and the calls' places in
// Swap order. All of it has a fixed size.
#[derive(Clone, Copy)]
pub struct Notes {
    pub turns: [u16; 16],
    pub given: [u16; machine::NODES],
    pub order: [u16; machine::CALLS],
}

impl Notes {
    // Before the first entry.
    pub fn none() -> Notes
        ensures { result ≡ no_notes }
    {
        Notes {
            turns: [NO_TURN; 16],
            given: [NO_CALL; machine::NODES],
            order: [0u16; machine::CALLS],
        }
    }

    // The place of the call that a node is given to; past the nodes, where no node is given, 0.
    pub fn given_at(&self, node: NodeId) -> u16
        ensures { result ≡ slice_index self.now.given node.0 }
    {
        given_at(&self.given, node)
    }

    // What an entry notes: the beginning of a turn its thread's turn, numbered by those begun before; a Swap the place of its call, with the node that it
    // assigns to the call and next in Swap order.
    pub fn note_entry(
        &mut self,
        event: Event,
        thread: ThreadId,
        node: NodeId,
        counts: Counts,
        place: usize,
    )
        ensures turns_after { self.new.turns ≡ (if same_event event Event.TurnBegins then slice_set self.old.turns thread.0 (counts.turns % 65536) else self.old.turns) }
        ensures given_after { self.new.given ≡ (if same_event event Event.Swaps then slice_set self.old.given node.0 (place % 65536) else self.old.given) }
        ensures order_after { self.new.order ≡ (if same_event event Event.Swaps then slice_set self.old.order counts.records (place % 65536) else self.old.order) }
    {
        if event == Event::TurnBegins {
            note(&mut self.turns, thread.0 as usize, counts.turns as usize);
        }
        if event == Event::Swaps {
            note(&mut self.given, node.0 as usize, place);
            note(&mut self.order, counts.records as usize, place);
        }
    }
}
