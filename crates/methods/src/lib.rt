// What goes by a machine's method: a line's row, what a line does, the node that a Swap assigns, and where a thread waits. The method is a number of a file or of
// a state, known when it is run, so each function here asks it by `match`, and there is no trait with two types.
#![tactic(auto)]

ghost use Rattle.std.specs.Prelude.{◌≡◌, map};
ghost use Rattle.machine.specs.Effect.{as_effect};
ghost use Rattle.machine.specs.Lines.{up_from};
ghost use Rattle.methods.specs.Methods.{row_by, behind_by, effect_by, assigned_by, spin_line, spin_node};

use machine::{After, Method, Node, NodeId, Row, Thread, ThreadId};
use object::{Answer, Request};
use refusal::Refusal;

// The row of a line, or of a blank.
pub fn row_of(method: Method, line: u8) -> Row
    ensures { result ≡ row_by method line }
{
    match method {
        Method::CcSynch => cc_lines::row_of(line),
        Method::DsmSynch => dsm_lines::row_of(line),
    }
}

// The rows of all lines in one array, the blank's at 0, made once for a run. By `for`: of `array::from_fn` a proof would have to follow what each call leaves the
// closure with.
pub fn all_rows(method: Method) -> [Row; 29]
    ensures { result ≡ map (row_by method) (up_from 0 29) }
{
    let mut rows = [row_of(method, 0); 29];
    for line in 0..29u8 {
        rows[line as usize] = row_of(method, line);
    }
    rows
}

// The node behind that a line may look at, from the next of the one that it points to: CC-Synch looks at none.
pub fn node_behind(method: Method, next: NodeId) -> NodeId
    ensures { result ≡ behind_by method next }
{
    let null = NodeId(machine::NULL);
    match method {
        Method::CcSynch => null,
        Method::DsmSynch => next,
    }
}

// What the next line of a thread, `named`, does to it, to the node that it writes and to Tail, or 14. The node is the one that the line points to, at which
// CC-Synch stays, and `behind` the one that `node_behind` gives. What a line looks at is no struct, since the two methods don't look at the same.
pub fn run_line(
    method: Method,
    thread: ThreadId,
    named: Thread,
    node: Node,
    behind: Node,
    tail: NodeId,
    h: u8,
    request: Request,
    answer: Answer,
) -> Result<After, Refusal>
    ensures { as_effect named node tail result ≡ effect_by method thread.0 named node behind tail h request answer }
{
    match method {
        Method::CcSynch => cc_synch::run_line(named, node, tail, h, request, answer),
        Method::DsmSynch => {
            dsm_synch::run_line(thread, named, node, behind, tail, h, request, answer)
        }
    }
}

// The node that a Swap assigns to its call, of Tail's, which it gives, and myNode.
pub fn assigned(method: Method, tail: NodeId, my: NodeId) -> NodeId
    ensures { result ≡ assigned_by method tail my }
{
    match method {
        Method::CcSynch => tail,
        Method::DsmSynch => my,
    }
}

// The line at which a thread waits for its turn, and the node whose wait it reads there.
pub fn spin_line(method: Method) -> u8
    ensures { result ≡ spin_line method }
{
    match method {
        Method::CcSynch => 9,
        Method::DsmSynch => 10,
    }
}

pub fn spin_node(method: Method, cur: NodeId, my: NodeId) -> NodeId
    ensures { result ≡ spin_node method cur my }
{
    match method {
        Method::CcSynch => cur,
        Method::DsmSynch => my,
    }
}
