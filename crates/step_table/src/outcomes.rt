// 14 for the outcome: counts past 32 bits at each line, the served counter past h, null into tmpNode, an empty req or ret.
use crate::script::table;
use console::Output;

pub(crate) fn run(output: &mut Output) {
    // Each count at its limit: lines that go to nothing shared, then those that do, where no thread has a copy.
    table(
        output,
        1,
        "limit, line 1: q R255,T255,B255,L255,M255,U254,
limit, line 8: q l1=8 R255,T255,B255,L255,M255,U254,
limit, line 12: q l1=12 R255,T255,B255,L255,M255,U254,
limit, line 14: q l1=14 R255,T255,B255,L255,M255,U254,
limit, line 19: q l1=19 R255,T255,B255,L255,M255,U254,
limit, blank: q b1=3 R255,T255,B255,L255,M255,U254,
limit, line 2, no copies: q l1=2 W165=168 R255,T255,B255,L255,M255,U254,
limit, line 3, no copies: q l1=3 W165=168 R255,T255,B255,L255,M255,U254,
limit, line 4, no copies: q l1=4 W165=168 R255,T255,B255,L255,M255,U254,
limit, line 5, no copies: q l1=5 W165=168 R255,T255,B255,L255,M255,U254,
limit, line 6, no copies: q l1=6 W165=168 R255,T255,B255,L255,M255,U254,
limit, line 7, no copies: q l1=7 W165=168 R255,T255,B255,L255,M255,U254,
limit, line 9, no copies: q l1=9 W165=168 R255,T255,B255,L255,M255,U254,
limit, line 9 spin, no copies: q l1=9 w2=1 W165=168 R255,T255,B255,L255,M255,U254,
limit, line 10, no copies: q l1=10 W165=168 R255,T255,B255,L255,M255,U254,
limit, line 11, no copies: q l1=11 W165=168 R255,T255,B255,L255,M255,U254,
limit, line 13, no copies: q l1=13 W165=168 R255,T255,B255,L255,M255,U254,
limit, line 13 at h, no copies: q l1=13 v1=5 W165=168 R255,T255,B255,L255,M255,U254,
limit, line 15, no copies: q l1=15 W165=168 R255,T255,B255,L255,M255,U254,
limit, line 16, no copies: q l1=16 W165=168 R255,T255,B255,L255,M255,U254,
limit, line 17, no copies: q l1=17 W165=168 R255,T255,B255,L255,M255,U254,
limit, line 18, no copies: q l1=18 W165=168 R255,T255,B255,L255,M255,U254,
limit, line 20, no copies: q l1=20 W165=168 R255,T255,B255,L255,M255,U254,
limit, line 21, no copies: q l1=21 W165=168 R255,T255,B255,L255,M255,U254,",
    );
    // Thread 1 has all copies, some with line 16's node among them, or some without it; the other causes; counts as far below the limit as the line adds.
    table(
        output,
        1,
        "limit, line 3, copies: q l1=3 W165=170 R255,T255,B255,L255,M255,U254,
limit, line 5, copies: q l1=5 W165=170 R255,T255,B255,L255,M255,U254,
limit, line 9 spin, copies: q l1=9 w2=1 W165=170 R255,T255,B255,L255,M255,U254,
limit, line 13, copies: q l1=13 W165=170 R255,T255,B255,L255,M255,U254,
limit, line 16, copies: q l1=16 W165=170 R255,T255,B255,L255,M255,U254,
limit, line 21, copies: q l1=21 W165=170 R255,T255,B255,L255,M255,U254,
limit, line 16, copy of its node: q l1=16 z6 R255,T255,B255,L255,M255,U254,
limit, line 16, copies of other nodes: q l1=16 z0 R255,T255,B255,L255,M255,U254,
line 14, served 5: q l1=14 v1=5 h5,6,
line 19, null tmpnext: q l1=19 x1=255.
line 15, null next: q l1=15 f3=255.
line 16, empty req: q l1=16 e3=0.
line 16, empty req of another node: q l1=16 e2=0.
line 16, counter, empty req: c l1=16 e3=0.
line 11, empty ret: q l1=11 N2=0.
line 21, empty ret: q l1=21 N2=0.
line 21, empty ret of another node: q l1=21 N3=0.
line 9 spin, spins and remote at the limit: q l1=9 w2=1 L255 M255 W0=0.
line 9 spin, spins and remote one below: q l1=9 w2=1 L254 M254 W0=0.
line 5, records and remote one below: q l1=5 R254 M254 W0=0.
line 16, remote one below: q l1=16 R255 M254 W0=0.
line 12, turns one below: q l1=12 T254 M255 W0=0.
blank, blanks one below: q b1=3 B254 M255 W0=0.",
    );
}
