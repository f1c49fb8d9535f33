// What one printed line of CC-Synch does to its thread, to the node that it points to and to Tail: Algorithm 1 of source 004.
#![tactic(auto)]

ghost use Rattle.std.specs.Prelude.{◌≡◌};
ghost use Rattle.cc_lines.specs.Lines.{line_of};
ghost use Rattle.machine.specs.Effect.{done, as_effect};
ghost use Rattle.cc_synch.specs.Effect.{takes_out, wrapped, line_does, executed, effect_of};

use machine::{After, Node, NodeId, Thread};
use object::{Answer, Request};
use refusal::Refusal;

// Algorithm 1, one printed line, by its statement: what it makes of its thread, `th`, of the node that it points to, `x`, and of Tail, `to`. The thread goes on
// to the line `on`. `own` is node_i, and nextNode until line 8. A line that only tests or returns has its arm too, to be read beside the printed one.
fn line_does(
    line: u8,
    on: u8,
    thread: Thread,
    node: Node,
    tail: NodeId,
    request: Request,
    answer: Answer,
) -> After
    ensures { done result ≡ wrapped (line_does thread node tail request answer on (line_of line)) }
{
    let null = NodeId(machine::NULL);
    let mut th = thread;
    let mut x = node;
    let mut to = tail;
    th.line = on;
    match line {
        0 => th.line = thread.line, // a blank
        1 => {
            th.begun = thread.begun.wrapping_add(1);
            th.cur = null;
            th.tmp = null;
            th.tmpnext = null;
            th.served = 0;
        }
        2 => x.next = null,
        3 => x.wait = true,
        4 => x.completed = false,
        5 => {
            th.cur = tail;
            to = thread.own;
        }
        6 => x.req = Some(request),
        7 => x.next = thread.own,
        8 => th.own = thread.cur,
        9 => {} // tests wait
        10 => {} // tests completed
        11 => {} // returns ret
        12 => th.tmp = thread.cur,
        13 => {} // tests next and the counter
        14 => th.served = thread.served.wrapping_add(1),
        15 => th.tmpnext = node.next,
        16 => x.ret = Some(answer),
        17 => x.completed = true,
        18 => x.wait = false,
        19 => th.tmp = thread.tmpnext,
        20 => x.wait = false,
        21 => {} // returns ret
        _ => th.line = thread.line, // no line
    }
    After {
        thread: th,
        node: x,
        tail: to,
    }
}

// What a printed line does, its thread going on to the line that follows. A number past 8 bits wraps: `run_line` refuses such a line before, and no run meets one.
pub fn executed(
    line: u8,
    thread: Thread,
    node: Node,
    tail: NodeId,
    h: u8,
    request: Request,
    answer: Answer,
) -> After
    ensures { done result ≡ wrapped (executed thread node tail h request answer (line_of line)) }
{
    let on = cc_lines::following(line, node, thread.served, h);
    line_does(line, on, thread, node, tail, request, answer)
}

// Why a line is 14: it would take a number of its thread out, uses an empty req or ret, or is past 21.
fn takes_out(line: u8, thread: Thread, node: Node, h: u8) -> bool
    ensures { result ≡ takes_out thread node h line }
{
    match line {
        1 => thread.count <= thread.begun,
        11 | 21 => node.ret.is_none(),
        14 => h <= thread.served,
        16 => node.req.is_none(),
        19 => machine::is_null(thread.tmpnext),
        _ => line > 21,
    }
}

// What the next line of a thread does to it, to the node that it points to and to Tail; 14 if it would take a number of the thread out, uses an
// empty req or ret, or is past 21. The request is that of the thread's call, the answer the object's to the node's req. What a line looks at is no struct: a line
// of DSM-Synch looks at the node behind and at the thread's number as well, so each method would have its own.
pub fn run_line(
    thread: Thread,
    node: Node,
    tail: NodeId,
    h: u8,
    request: Request,
    answer: Answer,
) -> Result<After, Refusal>
    ensures { as_effect thread node tail result ≡ effect_of thread node tail h request answer }
{
    let line = machine::line_run(thread);
    if takes_out(line, thread, node, h) {
        return Err(Refusal::OutOfRange);
    }
    Ok(executed(line, thread, node, tail, h, request, answer))
}
