// The 21 printed lines of CC-Synch, Algorithm 1 of source 004: the table of their accesses and the line that follows each.
#![tactic(auto)]

ghost use Rattle.std.specs.Prelude.{◌≡◌};
ghost use Rattle.cc_lines.specs.Lines.{line_of, row_of, following};

use machine::Event::*;
use machine::Field::*;
use machine::Pointer::*;
use machine::PrintedLine::*;
use machine::SharedAccess::*;
use machine::{Node, PrintedLine, Row};

// The printed lines, 1 to 21. A line without access has the own node, and leaves it.
const LINES: [PrintedLine; 21] = [
    Local(Own, CallBegins), // 1. nextNode = node_i
    One(Own, Write(Next), Other), // 2. nextNode→next = null
    One(Own, Write(Wait), Other), // 3. nextNode→wait = TRUE
    One(Own, Write(Completed), Other), // 4. nextNode→completed = FALSE
    One(Own, Swap, Swaps), // 5. curNode = Swap(Tail, nextNode)
    One(Cur, Write(Req), Other), // 6. curNode→req = req
    One(Cur, Write(Next), Other), // 7. curNode→next = nextNode
    Local(Own, Other), // 8. node_i = curNode
    One(Cur, Read(Wait), Spins), // 9. while (curNode→wait == TRUE) nop
    One(Cur, Read(Completed), Other), // 10. if (curNode→completed == TRUE)
    One(Cur, Read(Ret), Returns), // 11.   return curNode→ret
    Local(Own, TurnBegins), // 12. tmpNode = curNode
    One(Tmp, Read(Next), Other), // 13. while (tmpNode→next ≠ null AND counter < h) {
    Local(Own, Other), // 14.   counter = counter + 1
    One(Tmp, Read(Next), Other), // 15.   tmpNodeNext = tmpNode→next
    Two(Tmp, Read(Req), Write(Ret), Applies), // 16.   apply tmpNode→req, store the return value to tmpNode→ret
    One(Tmp, Write(Completed), Other), // 17.   tmpNode→completed = TRUE
    One(Tmp, Write(Wait), Other), // 18.   tmpNode→wait = FALSE
    Local(Own, Other), // 19.   tmpNode = tmpNodeNext }
    One(Tmp, Write(Wait), TurnEnds), // 20. tmpNode→wait = FALSE
    One(Cur, Read(Ret), Returns), // 21. return curNode→ret
];

// The line that follows a line, by cases, one for each printed line. The node is the one that the line points to, `served` the printed counter; 0 is idle.
pub fn following(line: u8, node: Node, served: u8, h: u8) -> u8
    ensures { result ≡ following node served h (line_of line) }
{
    let linked = !machine::is_null(node.next);
    match line {
        0 => 0, // a blank
        1 => 2,
        2 => 3,
        3 => 4,
        4 => 5,
        5 => 6,
        6 => 7,
        7 => 8,
        8 => 9,
        9 => if node.wait { 9 } else { 10 }, // while (curNode→wait == TRUE) nop
        10 => if node.completed { 11 } else { 12 }, // if (curNode→completed == TRUE)
        11 => 0, // return
        12 => 13,
        13 => if linked & (served < h) { 14 } else { 20 }, // while (tmpNode→next ≠ null AND counter < h)
        14 => 15,
        15 => 16,
        16 => 17,
        17 => 18,
        18 => 19,
        19 => 13, // the end of the loop's body: its test again
        20 => 21,
        21 => 0, // return
        _ => 0, // no line, which `cc_synch::run_line` refuses
    }
}

// The row of a line, or of a blank.
pub fn row_of(line: u8) -> Row
    ensures { result ≡ row_of (line_of line) }
{
    machine::row_in(&LINES, Own, line)
}
