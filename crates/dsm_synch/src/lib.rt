// What one printed line of DSM-Synch does to its thread, to the node that it writes and to Tail: Algorithm 2 of source 004.
#![tactic(auto)]

ghost use Rattle.std.specs.Prelude.{◌<◌, ◌≡◌, false, cond};
ghost use Rattle.machine.specs.Fields.{null};
ghost use Rattle.machine.specs.Effect.{done, as_effect};
ghost use Rattle.dsm_lines.specs.Lines.{line_of, empties};
ghost use Rattle.dsm_synch.specs.Effect.{is_refused, line_does, executed, effect_of};

use machine::{After, Node, NodeId, Thread, ThreadId};
use object::{Answer, Request};
use refusal::Refusal;

// Algorithm 2, one printed line, by its statement: what it makes of its thread, `th`, of the node that it writes, `x`, and of Tail, `to`. The thread goes on to
// the line `on`. The node written is the one behind at line 26, else the one that the line points to. A line that only tests or returns has its arm too, to be read
// beside the printed one.
fn line_does(
    line: u8,
    on: u8,
    t: ThreadId,
    thread: Thread,
    node: Node,
    behind: Node,
    tail: NodeId,
    request: Request,
    answer: Answer,
) -> After
    requires { (line ≡ 1 → thread.begun < 255) × (line ≡ 15 → thread.served < 255) × (line ≡ 2 → (t.0 < 16) × (thread.toggle < 2)) }
    ensures { done result ≡ line_does t.0 thread node behind tail request answer on (line_of line) }
{
    let null = NodeId(machine::NULL);
    let mut th = thread;
    let mut x = node;
    let mut to = tail;
    th.line = on;
    match line {
        0 => th.line = thread.line, // a blank
        1 => { // toggle = 1 - toggle
            th.begun = thread.begun + 1;
            th.served = 0;
            th.toggle = 1u8.saturating_sub(thread.toggle);
            th.my = null;
            th.pred = null;
            th.tmp = null;
        }
        2 => { // myNode = MyNodes[toggle]
            th.my = NodeId(2 * t.0 + thread.toggle);
        }
        3 => x.wait = true, // myNode→wait = TRUE
        4 => x.completed = false, // myNode→completed = FALSE
        5 => x.next = null, // myNode→next = null
        6 => x.req = Some(request), // myNode→req = req
        7 => { // myPredNode = Swap(Tail, myNode)
            th.pred = tail;
            to = thread.my;
        }
        8 => {} // if (myPredNode ≠ null) {
        9 => x.next = thread.my, // myPredNode→next = myNode
        10 => {} // while (myNode→wait == TRUE) nop
        11 => {} // if (myNode→completed == TRUE)
        12 => {} // return myNode→ret }
        13 => th.tmp = thread.my, // tmpNode = myNode
        14 => {} // while (TRUE) {
        15 => th.served = thread.served + 1, // counter++
        16 => x.ret = Some(answer), // apply tmpNode→req, store the return value to tmpNode→ret
        17 => x.completed = true, // tmpNode→completed = TRUE
        18 => x.wait = false, // tmpNode→wait = FALSE
        19 => {} // if (tmpNode→next == null or tmpNode→next→next == null or counter ≥ h)
        20 => {} // break
        21 => th.tmp = node.next, // tmpNode = tmpNode→next }
        22 => {} // if (tmpNode→next == null) {
        23 => to = cas(tail, thread.tmp), // if (CAS(Tail, tmpNode, null) == TRUE)
        24 => {} // return myNode→ret
        25 => {} // while (tmpNode→next == null) nop }
        26 => { // tmpNode→next→wait = FALSE
            x = behind;
            x.wait = false;
        }
        27 => x.next = null, // tmpNode→next = null
        28 => {} // return myNode→ret
        _ => th.line = thread.line, // no line
    }
    After {
        thread: th,
        node: x,
        tail: to,
    }
}

// Whether line 23's CAS finds Tail at tmpNode, and Tail after it.
fn empties(tail: NodeId, tmp: NodeId) -> bool
    ensures { result ≡ empties tail tmp }
{
    tail == tmp
}

fn cas(tail: NodeId, tmp: NodeId) -> NodeId
    ensures { result ≡ cond (empties tail tmp) null tail }
{
    if empties(tail, tmp) {
        return NodeId(machine::NULL);
    }
    tail
}

// What a printed line does, its thread going on to the line that follows.
fn executed(
    line: u8,
    t: ThreadId,
    thread: Thread,
    node: Node,
    behind: Node,
    tail: NodeId,
    h: u8,
    request: Request,
    answer: Answer,
) -> After
    requires { is_refused t.0 thread node h line ≡ false }
    ensures { done result ≡ executed t.0 thread node behind tail h request answer (line_of line) }
{
    let emptied = empties(tail, thread.tmp);
    let on = dsm_lines::following(line, node, behind, thread.pred, emptied, thread.served, h);
    line_does(line, on, t, thread, node, behind, tail, request, answer)
}

// Why a line is 14: it follows null, as myPredNode at 9 or tmpNode→next at 26, or puts it into tmpNode, at 21; it would take a number of its thread out, uses an
// empty req or ret, or is past 28; or, at 2, there is no node: a thread past the 16th has none, and a toggle above 1 names none.
fn is_refused(line: u8, t: ThreadId, thread: Thread, node: Node, h: u8) -> bool
    ensures { result ≡ is_refused t.0 thread node h line }
{
    match line {
        1 => thread.count <= thread.begun,
        2 => (t.0 >= 16) | (thread.toggle > 1),
        9 => machine::is_null(thread.pred),
        12 | 24 | 28 => node.ret.is_none(),
        15 => h <= thread.served,
        16 => node.req.is_none(),
        21 | 26 => machine::is_null(node.next),
        _ => line > 28,
    }
}

// What the next line of thread t does to it, to the node that it writes and to Tail; 14 if it meets null, would take a number of the thread out, uses an empty req
// or ret, is past 28 or finds no node. The node is the one that the line points to; the request is that of the thread's call, the answer the object's to the
// node's req. What a line looks at is no struct: CC-Synch's lines look at less.
pub fn run_line(
    t: ThreadId,
    thread: Thread,
    node: Node,
    behind: Node,
    tail: NodeId,
    h: u8,
    request: Request,
    answer: Answer,
) -> Result<After, Refusal>
    ensures { as_effect thread node tail result ≡ effect_of t.0 thread node behind tail h request answer }
{
    let line = machine::line_run(thread);
    if is_refused(line, t, thread, node, h) {
        return Err(Refusal::OutOfRange);
    }
    Ok(executed(line, t, thread, node, behind, tail, h, request, answer))
}
