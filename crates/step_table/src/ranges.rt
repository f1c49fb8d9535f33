// 14 for the state, then 11: each number just inside and just outside its range, in the thread that steps and in others, and past n.
// Where nothing is refused, thread 2 has no request left and its step is a blank.
use crate::script::table;
use console::Output;

pub(crate) fn run(output: &mut Output) {
    // The numbers that stand alone, and those of a thread, judged whether it steps or not.
    table(
        output,
        0,
        "state: Q n0,1,2,15,16,17,255,h0,1,2,254,255,
used: q n0,1,2,3,4,16,17,
queue: Q m0,1,2,63,64,65,255,
stack: S m0,1,2,63,64,65,255,
counter: C m0,1,2,63,64,65,255,o0,1,2,3,4,5,63,64,65,255,
queue, capacity 1: Q o0,1,2,3,4,5,63,64,65,255,
queue, capacity 64: Q m64 o0,1,2,3,4,5,63,64,65,255,
n 1: Q t0,1,2,3,4,15,16,17,254,255,
n 16: X t0,1,2,3,4,15,16,17,254,255,
queue, capacity 4: q @2 o0,1,2,3,4,5,63,64,65,255,
stack, capacity 4: s @2 o0,1,2,3,4,5,63,64,65,255,
n 3: q @2 t0,1,2,3,4,15,16,17,254,255,
thread 0: q @2 r0=0,1,2,3,17,255,b0=0,1,2,3,4,255,i0=0,3,4,254,255,u0=0,3,4,254,255,j0=0,3,4,254,255,x0=0,3,4,254,255,v0=0,4,5,6,255,
thread 1: q @2 r1=0,1,2,3,17,255,b1=0,1,2,3,4,255,i1=0,3,4,254,255,u1=0,3,4,254,255,j1=0,3,4,254,255,x1=0,3,4,254,255,v1=0,4,5,6,255,
thread 2: q @2 r2=0,1,2,3,17,255,b2=0,1,2,3,4,255,i2=0,3,4,254,255,u2=0,3,4,254,255,j2=0,3,4,254,255,x2=0,3,4,254,255,v2=0,4,5,6,255,
thread 3: q @2 r3=0,1,2,3,17,255,b3=0,1,2,3,4,255,i3=0,3,4,254,255,u3=0,3,4,254,255,j3=0,3,4,254,255,x3=0,3,4,254,255,v3=0,4,5,6,255,
thread 0 at line 13: q @2 l0=13 r0=0,1,2,3,17,255,b0=0,1,2,3,4,255,i0=0,3,4,254,255,u0=0,3,4,254,255,j0=0,3,4,254,255,x0=0,3,4,254,255,v0=0,4,5,6,255,
another thread: q @2 l0=0,1,2,3,4,5,6,7,8,9,10,11,12,13,14,15,16,17,18,19,20,21,22,23,255,
begun 0: q @2 b0=0 l0=0,1,2,3,4,5,6,7,8,9,10,11,12,13,14,15,16,17,18,19,20,21,22,23,255,
cur null: q @2 u0=255 l0=0,1,2,3,4,5,6,7,8,9,10,11,12,13,14,15,16,17,18,19,20,21,22,23,255,
tmp null: q @2 j0=255 l0=0,1,2,3,4,5,6,7,8,9,10,11,12,13,14,15,16,17,18,19,20,21,22,23,255,
the thread itself: q l0=0,1,2,3,4,5,6,7,8,9,10,11,12,13,14,15,16,17,18,19,20,21,22,23,255,
last of 16: X l15=0,1,2,22,i15=16,17,255,
last of 16, h 1: X v15=0,1,2,
16 requests: X r15=0,15,16,17,255,
16 requests, the last unknown: X A255=0 r15=0,15,16,17,",
    );
    // Nodes; requests, of which three, three and one from places 0, 16 and 32 on are judged; and entries.
    table(
        output,
        2,
        "node 0: q f0=0,3,4,254,255,
node 3: q f3=0,3,4,254,255,
node 4, past n: q f4=0,3,4,254,255,
queue, empty req in node: q e0=0;1=0;2=0;3=0;4=0;16=0;
queue, put in node: q p0=0;1=0;2=0;3=0;4=0;16=0;
queue, take in node: q g0=0;1=0;2=0;3=0;4=0;16=0;
queue, add in node: q a0=0;1=0;2=0;3=0;4=0;16=0;
stack, put in node: s p0=0;1=0;2=0;3=0;4=0;16=0;
stack, add in node: s a0=0;1=0;2=0;3=0;4=0;16=0;
counter, empty req in node: c e0=0;1=0;2=0;3=0;4=0;16=0;
counter, put in node: c p0=0;1=0;2=0;3=0;4=0;16=0;
counter, take in node: c g0=0;1=0;2=0;3=0;4=0;16=0;
counter, add in node: c a0=0;1=0;2=0;3=0;4=0;16=0;
queue, empty ret: q N0=0.
queue, capacity 4, node 0, ret done: q D0=0,1,2,3,4,5,64,
queue, capacity 4, node 0, ret done 4294967295: q D0=255.
queue, capacity 4, ret done 0 in node: q D0=0;1=0;2=0;3=0;4=0;16=0;
queue, capacity 4, ret done 5 in node: q D0=5;1=5;2=5;3=5;4=5;16=5;
queue, capacity 64, ret done: q m64 D1=0,1,4,5,63,64,65,
queue, capacity 1, ret done: q m1 o1 D2=0,1,2,
stack, capacity 4, ret done: s D1=0,1,4,5,
queue, ret full: q F0=0.
queue, ret empty: q E0=0.
queue, ret value 0: q V0=0.
counter, ret done: c D0=0,1,2,64,
counter, ret done 4294967295: c D0=255.
counter, ret done in node: c D0=1;1=1;2=1;3=1;4=1;16=1;
counter, ret full: c F0=0.
counter, ret empty: c E0=0.
n 2, capacity 2, node 1, ret done: Q n2 m2 @0 D1=0,1,2,3,
n 2, capacity 2, node 1, ret full: Q n2 m2 @0 F1=0.
n 2, capacity 2, node 2, ret done: Q n2 m2 @0 D2=2,3,
n 2, capacity 2, node 3, past n, ret done: Q n2 m2 @0 D3=3,
n 2, counter, node 1, ret done: C n2 @0 D1=1,
node 16 of 16, ret done: X @0 m5 D16=0,1,5,6,
node 16 of 16: X @0 f16=0,16,17,255,
add in node 16 of 16: X @0 a16=0.
queue, put at place: q P0=7;1=7;2=7;3=7;15=7;16=7;18=7;19=7;32=7;33=7;48=7;255=7;
queue, add at place: q A0=7;1=7;2=7;3=7;15=7;16=7;18=7;19=7;32=7;33=7;48=7;255=7;
stack, add at place: s A0=7;1=7;2=7;3=7;15=7;16=7;18=7;19=7;32=7;33=7;48=7;255=7;
counter, put at place: c P0=7;1=7;2=7;3=7;15=7;16=7;18=7;19=7;32=7;33=7;48=7;255=7;
counter, take at place: c G0=7;1=7;2=7;3=7;15=7;16=7;18=7;19=7;32=7;33=7;48=7;255=7;
n 3: q @0,1,2,3,4,15,16,255,
n 1: C @0,1,2,3,4,15,16,255,
n 16: Y @0,1,2,3,4,15,16,255,
n 17: Y n17 @0,1,2,3,4,15,16,255,
n 0: q n0 @0,1,2,3,4,15,16,255,
a thread at line 22: q l1=22 @0,1,2,3,4,15,16,255,
null tmpnext at line 19: q x1=255 l1=19 @0,1,2,3,4,15,16,255,",
    );
}
