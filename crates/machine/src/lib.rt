// Threads, nodes and Tail, the accesses of a line to them, and what an entry is. What a printed line does is not looked at here.
#![tactic(auto)]

ghost use Rattle.std.specs.Prelude.{◌≡◌, cond};
ghost use Rattle.machine.specs.Fields.{is_null, with_req, with_ret};
ghost use Rattle.machine.specs.Accesses.{pointed, row_from, row_in, is_none, writes_behind, writes, writes_any, written_of};
ghost use Rattle.machine.specs.Events.{stays, is_cas, event_found};
ghost use Rattle.machine.specs.Lines.{line_run};
ghost use Rattle.machine.specs.Methods.{method_number, method_of, last_line};

use object::{Answer, Request};

// A thread's number, 0 to n − 1.
#[derive(Clone, Copy, Debug, PartialEq, Eq)]
pub struct ThreadId(pub u8);

// A node's number, or null: CC-Synch has nodes 0 to n, DSM-Synch 0 to 2n − 1.
#[derive(Clone, Copy, Debug, PartialEq, Eq)]
pub struct NodeId(pub u8);

// What a machine steps: Algorithm 1 or Algorithm 2 of source 004.
#[derive(Clone, Copy, Debug, PartialEq, Eq)]
pub enum Method {
    CcSynch,
    DsmSynch,
}

// Null is no node's number. (An Option of a NodeId is left to do: docs/DESIGN-PASS.md.)
pub const NULL: u8 = 255;

// Room for two nodes of each of 16 threads, of which CC-Synch has one each and the first dummy; for Tail and each of them as locations; and for 16 calls of each
// thread.
pub const NODES: usize = 32;

pub const LOCATIONS: usize = 1 + NODES;

pub const CALLS: usize = 256;

// A node. Its req and ret are empty at first.
#[derive(Clone, Copy)]
pub struct Node {
    pub req: Option<Request>,
    pub ret: Option<Answer>,
    pub wait: bool,
    pub completed: bool,
    pub next: NodeId,
}

// A thread: how many requests it has and has begun, the line that it runs next (0 is idle), and the variables of either method.
#[derive(Clone, Copy)]
pub struct Thread {
    pub count: u8,
    pub begun: u8,
    pub line: u8,
    pub own: NodeId, // node_i of CC-Synch
    pub cur: NodeId, // curNode of CC-Synch
    pub tmp: NodeId, // tmpNode
    pub tmpnext: NodeId, // tmpNodeNext of CC-Synch
    pub served: u8, // counter
    pub toggle: u8, // toggle_i of DSM-Synch
    pub my: NodeId, // myNode of DSM-Synch
    pub pred: NodeId, // myPredNode of DSM-Synch
}

// Which of its variables a line goes through to a node.
#[derive(Clone, Copy, Debug, PartialEq, Eq)]
pub enum Pointer {
    Own,
    Cur,
    Tmp,
    My,
    Pred,
}

#[derive(Clone, Copy, Debug, PartialEq, Eq)]
pub enum Field {
    Req,
    Ret,
    Wait,
    Completed,
    Next,
}

// A shared access of a line: of a field of the node that it points to, or of the node behind that, its next; or a Swap or a CAS on Tail.
// `NoAccess` stays a case: with an Option in its place a row takes 11 bytes in the place of 8, and a run 5 to 10 % more time.
#[derive(Clone, Copy, Debug, PartialEq, Eq)]
pub enum SharedAccess {
    NoAccess,
    Read(Field),
    Write(Field),
    Swap,
    Cas,
    ReadBehind(Field),
    WriteBehind(Field),
}

// What an entry is: the terms, counts and records of a run go by it, and by no line's number. No entry is two of these.
#[derive(Clone, Copy, Debug, PartialEq, Eq)]
pub enum Event {
    Blank,
    CallBegins,
    Swaps,
    TurnBegins,
    Applies,
    TurnEnds,
    Returns,
    Spins,
    Other,
}

// A printed line as a method's table has it: the node that it points to, its shared accesses in order, and what an entry of it is. `Spins` is said of a line that
// may, and `TurnEnds` of one that does so by a CAS if that succeeds.
#[derive(Clone, Copy)]
pub enum PrintedLine {
    Local(Pointer, Event),
    One(Pointer, SharedAccess, Event),
    Two(Pointer, SharedAccess, SharedAccess, Event),
    Three(Pointer, SharedAccess, SharedAccess, SharedAccess, Event),
}

// The same in one form, `NoAccess` where there is none: a line's row. Of three accesses those after the first are made only where the node has a next.
#[derive(Clone, Copy)]
pub struct Row {
    pub node: Pointer,
    pub first: SharedAccess,
    pub second: SharedAccess,
    pub third: SharedAccess,
    pub event: Event,
}

// What a line makes of its thread, of the node that it writes, if it writes one, and of Tail.
#[derive(Clone, Copy)]
pub struct After {
    pub thread: Thread,
    pub node: Node,
    pub tail: NodeId,
}

// The number of a method.
impl From<Method> for u8 {
    ghost from_gives = { λ method number. number ≡ method_number method };

    fn from(method: Method) -> u8
        ensures { result ≡ method_number method }
    {
        method as u8
    }
}

// Any number has a method, so this is no `TryFrom`: the file's reader and the writer judge the byte before.
pub fn method_of(number: u8) -> Method
    ensures { result ≡ method_of number }
{
    if number == 0 {
        Method::CcSynch
    } else {
        Method::DsmSynch
    }
}

// The last printed line of a method.
pub fn last_line(method: Method) -> u8
    ensures { result ≡ last_line method }
{
    match method {
        Method::CcSynch => 21,
        Method::DsmSynch => 28,
    }
}

pub fn is_null(node: NodeId) -> bool
    ensures { result ≡ is_null node }
{
    node == NodeId(NULL)
}

// A node with its req or its ret written.
pub fn with_req(node: Node, request: Request) -> Node
    ensures { result ≡ with_req node request }
{
    Node {
        req: Some(request),
        ..node
    }
}

pub fn with_ret(node: Node, answer: Answer) -> Node
    ensures { result ≡ with_ret node answer }
{
    Node {
        ret: Some(answer),
        ..node
    }
}

// The line that the thread's entry runs, 0 for a blank.
pub fn line_run(thread: Thread) -> u8
    ensures { result ≡ line_run thread }
{
    if thread.line != 0 {
        return thread.line;
    }
    if thread.begun < thread.count { 1 } else { 0 }
}

fn node_if(test: bool, node: NodeId, other: NodeId) -> NodeId
    ensures { result ≡ cond test node other }
{
    if test { node } else { other }
}

// The node that a line of a thread points to. It is chosen by tests and not by a jump, which a processor guesses wrong where threads take turns at random.
pub fn pointed(pointer: Pointer, thread: Thread) -> NodeId
    ensures { result ≡ pointed pointer thread }
{
    let my_or_pred = node_if(pointer == Pointer::My, thread.my, thread.pred);
    let from_tmp = node_if(pointer == Pointer::Tmp, thread.tmp, my_or_pred);
    let from_cur = node_if(pointer == Pointer::Cur, thread.cur, from_tmp);
    node_if(pointer == Pointer::Own, thread.own, from_cur)
}

// The row of a printed line.
pub fn row_from(printed: PrintedLine) -> Row
    ensures { result ≡ row_from printed }
{
    let none = SharedAccess::NoAccess;
    let (node, first, second, third, event) = match printed {
        PrintedLine::Local(node, event) => (node, none, none, none, event),
        PrintedLine::One(node, first, event) => (node, first, none, none, event),
        PrintedLine::Two(node, first, second, event) => (node, first, second, none, event),
        PrintedLine::Three(node, first, second, third, event) => (
            node, first, second, third, event,
        ),
    };
    Row {
        node,
        first,
        second,
        third,
        event,
    }
}

// The row of a line in a method's table, whose first is line 1; 0 is a blank, and so is a number past the last.
pub fn row_in(lines: &[PrintedLine], blank: Pointer, line: u8) -> Row
    ensures { result ≡ row_in lines.now blank line }
{
    let place = line as usize;
    if place == 0 {
        return row_from(PrintedLine::Local(blank, Event::Blank));
    }
    if lines.len() < place {
        return row_from(PrintedLine::Local(blank, Event::Blank));
    }
    row_from(lines[place - 1])
}

// Whether a row's access is none.
pub fn is_none(access: SharedAccess) -> bool
    ensures { result ≡ is_none access }
{
    matches!(access, SharedAccess::NoAccess)
}

fn writes_behind(access: SharedAccess) -> bool
    ensures { result ≡ writes_behind access }
{
    matches!(access, SharedAccess::WriteBehind(_))
}

// Whether an access writes a node, and whether one of a row does.
fn writes(access: SharedAccess) -> bool
    ensures { result ≡ writes access }
{
    matches!(
        access,
        SharedAccess::Write(_) | SharedAccess::WriteBehind(_)
    )
}

pub fn writes_any(row: Row) -> bool
    ensures { result ≡ writes_any row }
{
    writes(row.first) | (writes(row.second) | writes(row.third))
}

// The node that a line writes, if it writes one: the one behind the pointed node where the row's second access says so.
pub fn written(row: Row, node: NodeId, behind: NodeId) -> NodeId
    ensures { result ≡ written_of row node behind }
{
    node_if(writes_behind(row.second), behind, node)
}

// Whether a line that waits by an access stays: for wait while it is true, for next while it is null.
fn stays(access: SharedAccess, wait: bool, last: bool) -> bool
    ensures { result ≡ stays access wait last }
{
    match access {
        SharedAccess::Read(Field::Wait) => wait,
        SharedAccess::Read(Field::Next) => last,
        _ => false,
    }
}

// A spin, if the line stays.
fn spin_or_other(access: SharedAccess, node: Node) -> Event
    ensures { result ≡ cond (stays access node.wait (is_null node.next)) Event.Spins Event.Other }
{
    if stays(access, node.wait, is_null(node.next)) {
        Event::Spins
    } else {
        Event::Other
    }
}

fn is_cas(access: SharedAccess) -> bool
    ensures { result ≡ is_cas access }
{
    matches!(access, SharedAccess::Cas)
}

// The end of a turn, by a CAS only if it succeeds.
fn end_or_other(access: SharedAccess, emptied: bool) -> Event
    ensures { result ≡ cond (is_cas access) (cond emptied Event.TurnEnds Event.Other) Event.TurnEnds }
{
    if is_cas(access) & !emptied {
        Event::Other
    } else {
        Event::TurnEnds
    }
}

// What an entry of a row is: as the row has it, but a spin only where the line stays, and the end of a turn by a CAS only if that succeeds.
pub fn event_in(row: Row, node: Node, emptied: bool) -> Event
    ensures { result ≡ event_found row node emptied }
{
    match row.event {
        Event::TurnEnds => end_or_other(row.first, emptied),
        Event::Spins => spin_or_other(row.first, node),
        event => event,
    }
}
