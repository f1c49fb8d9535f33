// The 28 printed lines of DSM-Synch, Algorithm 2 of source 004: the table of their accesses and the line that follows each.
#![tactic(auto)]

ghost use Rattle.std.specs.Prelude.{◌≡◌};
ghost use Rattle.dsm_lines.specs.Lines.{line_of, following};
ghost use Rattle.dsm_lines.specs.Rows.{row_of};

use machine::Event::*;
use machine::Field::*;
use machine::Pointer::*;
use machine::PrintedLine::*;
use machine::SharedAccess::*;
use machine::{Node, NodeId, PrintedLine, Row};

// The printed lines, 1 to 28. A line without access has myNode or tmpNode, and leaves it.
const LINES: [PrintedLine; 28] = [
    Local(My, CallBegins), // 1. toggle = 1 - toggle
    Local(My, Other), // 2. myNode = MyNodes[toggle]
    One(My, Write(Wait), Other), // 3. myNode→wait = TRUE
    One(My, Write(Completed), Other), // 4. myNode→completed = FALSE
    One(My, Write(Next), Other), // 5. myNode→next = null
    One(My, Write(Req), Other), // 6. myNode→req = req
    One(My, Swap, Swaps), // 7. myPredNode = Swap(Tail, myNode)
    Local(My, Other), // 8. if (myPredNode ≠ null) {
    One(Pred, Write(Next), Other), // 9.   myPredNode→next = myNode
    One(My, Read(Wait), Spins), // 10.   while (myNode→wait == TRUE) nop
    One(My, Read(Completed), Other), // 11.   if (myNode→completed == TRUE)
    One(My, Read(Ret), Returns), // 12.     return myNode→ret }
    Local(My, TurnBegins), // 13. tmpNode = myNode
    Local(Tmp, Other), // 14. while (TRUE) {
    Local(Tmp, Other), // 15.   counter++
    Two(Tmp, Read(Req), Write(Ret), Applies), // 16.   apply tmpNode→req, store the return value to tmpNode→ret
    One(Tmp, Write(Completed), Other), // 17.   tmpNode→completed = TRUE
    One(Tmp, Write(Wait), Other), // 18.   tmpNode→wait = FALSE
    Three(Tmp, Read(Next), Read(Next), ReadBehind(Next), Other), // 19.   if (tmpNode→next == null or tmpNode→next→next == null or counter ≥ h)
    Local(Tmp, Other), // 20.     break
    One(Tmp, Read(Next), Other), // 21.   tmpNode = tmpNode→next }
    One(Tmp, Read(Next), Other), // 22. if (tmpNode→next == null) {
    One(Tmp, Cas, TurnEnds), // 23.   if (CAS(Tail, tmpNode, null) == TRUE)
    One(My, Read(Ret), Returns), // 24.     return myNode→ret
    One(Tmp, Read(Next), Spins), // 25.   while (tmpNode→next == null) nop }
    Two(Tmp, Read(Next), WriteBehind(Wait), TurnEnds), // 26. tmpNode→next→wait = FALSE
    One(Tmp, Write(Next), Other), // 27. tmpNode→next = null
    One(My, Read(Ret), Returns), // 28. return myNode→ret
];

// The line that follows a line, by cases, one for each printed line. `node` is the one that the line points to, `behind` the one behind it, `pred` myPredNode,
// `emptied` says whether line 23's CAS succeeds, and `served` is the printed counter; 0 is idle. Each parameter stands in a test as printed.
pub fn following(
    line: u8,
    node: Node,
    behind: Node,
    pred: NodeId,
    emptied: bool,
    served: u8,
    h: u8,
) -> u8
    ensures { result ≡ following node behind pred emptied served h (line_of line) }
{
    let no_pred = machine::is_null(pred);
    let no_next = machine::is_null(node.next);
    let none_behind = machine::is_null(behind.next);
    let ends = no_next | (none_behind | (h <= served));
    match line {
        0 => 0, // a blank
        1 => 2,
        2 => 3,
        3 => 4,
        4 => 5,
        5 => 6,
        6 => 7,
        7 => 8,
        8 => if no_pred { 13 } else { 9 }, // if (myPredNode ≠ null) {
        9 => 10,
        10 => if node.wait { 10 } else { 11 }, // while (myNode→wait == TRUE) nop
        11 => if node.completed { 12 } else { 13 }, // if (myNode→completed == TRUE)
        12 => 0, // return
        13 => 14,
        14 => 15,
        15 => 16,
        16 => 17,
        17 => 18,
        18 => 19,
        19 => if ends { 20 } else { 21 }, // if (tmpNode→next == null or tmpNode→next→next == null or counter ≥ h)
        20 => 22, // break
        21 => 14, // the end of the loop's body: the loop again
        22 => if no_next { 23 } else { 26 }, // if (tmpNode→next == null) {
        23 => if emptied { 24 } else { 25 }, // if (CAS(Tail, tmpNode, null) == TRUE)
        24 => 0, // return
        25 => if no_next { 25 } else { 26 }, // while (tmpNode→next == null) nop }
        26 => 27,
        27 => 28,
        28 => 0, // return
        _ => 0, // no line, which `dsm_synch::run_line` refuses
    }
}

// The row of a line, or of a blank.
pub fn row_of(line: u8) -> Row
    ensures { result ≡ row_of (line_of line) }
{
    machine::row_in(&LINES, My, line)
}
