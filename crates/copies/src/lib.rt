// Valid copies of locations, and the remote references of a line's accesses, by either method.
#![tactic(auto)]

ghost use Rattle.std.specs.Prelude.{◌≡◌, cond, ◌≤◌, get_or, set};
ghost use Rattle.machine.specs.Accesses.{whole, access_to, accesses_of};
ghost use Rattle.copies.specs.Copies.{has_copy, after_read, after_write};
ghost use Rattle.copies.specs.Remote.{place, at_hand_by, referred_by};
ghost use Rattle.copies.specs.Places.{owns_at, at_hand_at, word_left, left_at, only_first};

use machine::{Method, NodeId, Row, SharedAccess, ThreadId};

// Whether a thread has a valid copy of a location; bit i of the location's number is thread i's.
pub fn has_copy(word: u16, thread: ThreadId) -> bool
    ensures { result ≡ has_copy word thread.0 }
{
    let t = thread.0;
    t < 16 && (word >> t) % 2 == 1
}

// After a read the thread has a copy.
pub fn after_read(word: u16, thread: ThreadId) -> u16
    ensures { result ≡ after_read word thread.0 }
{
    let t = thread.0;
    if has_copy(word, thread) {
        return word;
    }
    if t < 16 { word + (1 << t) } else { word }
}

// After a write of a thread below n it has a copy, and no other of the n has.
pub fn after_write(word: u16, thread: ThreadId, n: u8) -> u16
    ensures { result ≡ after_write n word thread.0 }
{
    let t = thread.0;
    if n <= 16 && t < n {
        let past = ((word as u32) >> n) << n;
        return (past + (1 << t)) as u16;
    }
    word
}

// The place of a node among the copies; Tail's is 0.
pub fn place(node: NodeId) -> usize
    ensures { result ≡ place (whole node) }
{
    1 + node.0 as usize
}

// Whether a thread of DSM-Synch owns the location at a place: a node has its owner, Tail has none.
fn owns_at(at: usize, thread: ThreadId) -> bool
    ensures { result ≡ owns_at thread.0 at }
{
    at != 0 && (at - 1) / 2 == thread.0 as usize
}

// Whether a thread has a node at hand, whose number among the copies is given: CC-Synch by its valid copy, DSM-Synch as the owner.
pub fn at_hand(method: Method, word: u16, node: NodeId, thread: ThreadId) -> bool
    ensures { result ≡ at_hand_by method word thread.0 (whole node) }
{
    match method {
        Method::CcSynch => has_copy(word, thread),
        Method::DsmSynch => owns_at(place(node), thread),
    }
}

// Who makes a line's accesses: a thread of n, by a method.
#[derive(Clone, Copy)]
struct Accessor {
    method: Method,
    thread: ThreadId,
    n: u8,
}

impl Accessor {
    // A location's number after a write or a read.
    fn word_after(self, word: u16, writes: bool) -> u16
        ensures { result ≡ word_left self.n self.thread.0 writes word }
    {
        if writes {
            after_write(word, self.thread, self.n)
        } else {
            after_read(word, self.thread)
        }
    }

    // One access at a place, by the copies: 1 if it is remote, else 0.
    fn refer_copy(self, copies: &mut [u16], at: usize, writes: bool) -> u8
        ensures value { result ≡ cond (has_copy (get_or copies.old at 0) self.thread.0) 0 1 }
        ensures copies_after { copies.new ≡ set copies.old at (word_left self.n self.thread.0 writes (get_or copies.old at 0)) }
    {
        if at >= copies.len() {
            return 1;
        }
        let word = copies[at];
        copies[at] = self.word_after(word, writes);
        if has_copy(word, self.thread) { 0 } else { 1 }
    }

    // One access at a place: 1 if it is remote, else 0. DSM-Synch leaves the copies as they are.
    fn refer_at(self, copies: &mut [u16], at: usize, writes: bool) -> u8
        ensures value { result ≡ cond (at_hand_at self.method copies.old self.thread.0 at) 0 1 }
        ensures copies_after { copies.new ≡ left_at self.method self.n self.thread.0 writes at copies.old }
    {
        match self.method {
            Method::CcSynch => self.refer_copy(copies, at, writes),
            Method::DsmSynch => { if owns_at(at, self.thread) { 0 } else { 1 } }
        }
    }

    // One access of a line to its node, or to the node behind: 1 if it is remote, else 0.
    fn refer(self, copies: &mut [u16], access: SharedAccess, node: NodeId, behind: NodeId) -> u8
        ensures value { result ≡ (referred_by self.method self.n self.thread.0 copies.old (access_to node behind access)).remote }
        ensures copies_after { copies.new ≡ (referred_by self.method self.n self.thread.0 copies.old (access_to node behind access)).copies }
        ensures upper_bound { result ≤ 1 }
    {
        match access {
            SharedAccess::NoAccess => 0,
            SharedAccess::Read(_) => self.refer_at(copies, place(node), false),
            SharedAccess::Write(_) => self.refer_at(copies, place(node), true),
            SharedAccess::Swap | SharedAccess::Cas => self.refer_at(copies, 0, true),
            SharedAccess::ReadBehind(_) => self.refer_at(copies, place(behind), false),
            SharedAccess::WriteBehind(_) => self.refer_at(copies, place(behind), true),
        }
    }
}

// Whether a line makes no access after its first: there is no other, or there are three and no node behind.
fn only_first(second: SharedAccess, third: SharedAccess, behind: NodeId) -> bool
    ensures { result ≡ only_first second third behind }
{
    if machine::is_none(third) {
        machine::is_none(second)
    } else {
        machine::is_null(behind)
    }
}

// The remote references of a line's accesses to its node and to the one behind it, and the copies after them. The accessor is made here: no caller has another use
// for it.
pub fn refer_all(
    method: Method,
    copies: &mut [u16; machine::LOCATIONS],
    row: Row,
    node: NodeId,
    behind: NodeId,
    thread: ThreadId,
    n: u8,
) -> u8
    ensures value { result ≡ (referred_by method n thread.0 copies.old (accesses_of row node behind)).remote }
    ensures copies_after { copies.new ≡ (referred_by method n thread.0 copies.old (accesses_of row node behind)).copies }
{
    let by = Accessor { method, thread, n };
    let one = by.refer(copies, row.first, node, behind);
    if only_first(row.second, row.third, behind) {
        return one;
    }
    let two = by.refer(copies, row.second, node, behind);
    let three = by.refer(copies, row.third, node, behind);
    one + (two + three)
}
