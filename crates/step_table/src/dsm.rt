// DSM-Synch, from a state in use: thread 0 of two with myNode 1, myPredNode 2 and tmpNode 3, Tail at node 1, h 1. Its variables of CC-Synch are out of that method's
// range, and so is all past its last node, 3.
use crate::script::table;
use console::Output;

pub(crate) fn run(output: &mut Output) {
    // Each line, and what decides its outcome or whose the nodes are that it goes to.
    table(
        output,
        0,
        "dsm line 1: H.
dsm blank: H b0=3.
dsm line 2: H l0=2 O0=0,1,
dsm line 2, thread 1: H @1 l1=2 O1=0,1,
dsm line 3: H l0=3 y0=0,1,2,3,
dsm line 4: H l0=4 d1=1 y0=0,1,2,3,
dsm line 5: H l0=5 f1=3 y0=0,1,2,3,
dsm line 6: H l0=6 y0=0,1,2,3,
dsm line 7: H l0=7 t0,1,2,3,255,y0=0,1,2,3,
dsm line 8: H l0=8 J0=0,1,2,3,255,
dsm line 9: H l0=9 J0=0,1,2,3,255,
dsm line 10: H l0=10 y0=0,1,2,3,
dsm line 10 spin: H l0=10 w0=1 w1=1 w2=1 w3=1 y0=0,1,2,3,
dsm line 11: H l0=11 d0=1 d3=1 y0=0,1,2,3,
dsm line 12: H l0=12 y0=0,1,2,3,
dsm line 12, empty ret: H l0=12 N1=0.
dsm line 13: H l0=13 y0=0,1,2,3,
dsm line 14: H l0=14 v0=0,1,
dsm line 15: H l0=15 v0=0,1,
dsm line 16: H l0=16 v0=1 j0=0,1,2,3,
dsm line 16, empty req: H l0=16 v0=1 e3=0.
dsm line 17: H l0=17 v0=1 j0=0,1,2,3,
dsm line 18: H l0=18 v0=1 w0=1 w3=1 j0=0,1,2,3,
dsm line 19, next null: H l0=19 j0=0,1,2,3,
dsm line 19, the next without one: H l0=19 f3=0,1,2,
dsm line 19, the next with one, counter below h: H l0=19 f0=3 f1=3 f2=3 f3=0,1,2,3,
dsm line 19, the next with one, counter at h: H l0=19 v0=1 f0=3 f1=3 f2=3 f3=0,1,2,3,
dsm line 20: H l0=20.
dsm line 21: H l0=21 f3=0,1,2,3,255,
dsm line 22: H l0=22 f3=0,1,2,3,255,
dsm line 23: H l0=23 t0,1,2,3,255,
dsm line 24: H l0=24 y0=0,1,2,3,
dsm line 24, empty ret: H l0=24 N1=0.
dsm line 25: H l0=25 f3=0,1,2,3,255,
dsm line 25 spin: H l0=25 j0=0,1,2,3,
dsm line 26: H l0=26 w0=1 w1=1 w2=1 w3=1 f3=0,1,2,3,255,
dsm line 27: H l0=27 f0=3 f1=3 f2=3 f3=2 j0=0,1,2,3,
dsm line 28: H l0=28 y0=0,1,2,3,
dsm line 28, empty ret: H l0=28 N1=0.
dsm line 16, remote at the limit: H l0=16 v0=1 M255,U254,
dsm line 16, remote three below 2 to the 32: H l0=16 v0=1 M253.
dsm line 19, remote three below 2 to the 32: H l0=19 f2=3 f3=2 M253.
dsm line 19, remote four below 2 to the 32: H l0=19 f2=3 f3=2 M252.
dsm line 26, remote two below 2 to the 32: H l0=26 f3=2 M254.
dsm line 26, remote three below 2 to the 32: H l0=26 f3=2 M253.",
    );
    // Ranges: each just inside and just outside, in the thread that steps and in the other, and past n and the last node; 14 for the state.
    table(
        output,
        1,
        "dsm line of thread 0: H l0=0,1,2,3,13,14,21,22,28,29,255,
dsm begun 0: H b0=0 l0=0,2,28,
dsm my null: H y0=255 l0=0,2,3,4,28,
dsm tmp null: H j0=255 l0=0,2,13,14,24,27,28,
dsm pred null: H J0=255 l0=0,2,3,9,28,
dsm toggle of thread 0: H O0=0,1,2,255,
dsm toggle of thread 1: H O1=0,1,2,255,
dsm toggle of thread 2, past n: H O2=2,
dsm my of thread 0: H y0=0,3,4,254,255,
dsm pred of thread 0: H J0=0,3,4,254,255,
dsm tmp of thread 0: H j0=0,3,4,254,255,
dsm own, cur and tmpnext: H i0=0 u0=254 x0=255.
dsm tail: H t0,3,4,254,255,
dsm next of node 3: H f3=0,3,4,99,254,255,
dsm next of node 4, past the last: H f4=0,99,
dsm ret of node 3, done: H D3=0,1,4,5,
dsm counter of thread 0: H v0=0,1,2,
dsm n: H n0,1,2,3,16,17,
dsm entry: H @0,1,2,3,255,
cc toggle, my and pred: q @2 O0=9 y0=254 J0=255.",
    );
    // Whole runs by steps: document 01's counter file, a CAS that fails, h as the limit of a turn, and an entry that would follow null.
    table(
        output,
        0,
        "dsm, two adds, 19 entries: I A0=5 A1=7 r0=2 |!0=19.
dsm, two adds, 42 entries: I A0=5 A1=7 r0=2 |!0=42.
dsm, a CAS that fails: I n2 A0=1 r0=1 A16=10 r1=1 |!0=17 !1=8 !0=2 !1=2 !0=4 !1=13.
dsm, three threads, h 2: I n3 h2 A0=1 r0=1 A16=10 r1=1 A32=100 r2=1 |!0=8 !1=9 !2=9 !0=19 !1=3 !2=13.
dsm, 105 entries: I n3 h2 A0=1 r0=1 A16=10 A17=10 A18=10 r1=3 A32=100 A33=100 r2=2 |!0=8 !1=9 !2=9 !0=17 !1=3 !2=13 !1=27 !2=9 !1=9 !0=1.
dsm, and one that follows null: I n3 h2 A0=1 r0=1 A16=10 A17=10 A18=10 r1=3 A32=100 A33=100 r2=2 !0=8 !1=9 !2=9 !0=17 !1=3 !2=13 !1=27 !2=9 !1=9 !0=1 |!1=1.",
    );
}
