// Each line, from states in use: thread 1 of three with own node 0, curNode 2, tmpNode 3 and tmpNodeNext 1, Tail at node 1.
use crate::script::table;
use console::Output;

pub(crate) fn run(output: &mut Output) {
    // Each of the eight choices of who has a copy of what the line goes to, each node that its pointers can name, and other threads.
    table(
        output,
        1,
        "line 1: q.
line 2: q l1=2 z0,1,2,3,4,5,6,7,i1=0,1,2,3,
line 3: q l1=3 z0,1,2,3,4,5,6,7,i1=0,1,2,3,
line 4: q l1=4 z0,1,2,3,4,5,6,7,i1=0,1,2,3,
line 5: q l1=5 z0,1,2,3,4,5,6,7,i1=0,1,2,3,t0,1,2,3,u1=0,1,2,3,255,
line 6: q l1=6 z0,1,2,3,4,5,6,7,u1=0,1,2,3,b1=1,2,3,
line 7: q l1=7 z0,1,2,3,4,5,6,7,i1=0,1,2,3,u1=0,1,2,3,
line 8: q l1=8.i1=0,1,2,3,u1=0,1,2,3,
line 9: q l1=9 z0,1,2,3,4,5,6,7,u1=0,1,2,3,
line 9 spin: q l1=9 w2=1 z0,1,2,3,4,5,6,7,
line 10: q l1=10 z0,1,2,3,4,5,6,7,u1=0,1,2,3,
line 10 completed: q l1=10 d2=1 z0,1,2,3,4,5,6,7,
line 11: q l1=11 z0,1,2,3,4,5,6,7,u1=0,1,2,3,
line 12: q l1=12.u1=0,1,2,3,j1=0,1,2,3,255,
line 13: q l1=13 z0,1,2,3,4,5,6,7,j1=0,1,2,3,f3=0,1,2,3,255,
line 13 at h: q l1=13 v1=5 z0,1,2,3,4,5,6,7,
line 13 next null: q l1=13 f3=255 z0,1,2,3,4,5,6,7,
line 14: q l1=14.v1=0,1,3,4,5,
line 15: q l1=15 z0,1,2,3,4,5,6,7,j1=0,1,2,3,f3=0,1,2,3,255,
line 16: q l1=16 z0,1,2,3,4,5,6,7,j1=0,1,2,3,
line 17: q l1=17 z0,1,2,3,4,5,6,7,j1=0,1,2,3,
line 18: q l1=18 z0,1,2,3,4,5,6,7,j1=0,1,2,3,
line 19: q l1=19.x1=0,1,2,3,255,
line 20: q l1=20 z0,1,2,3,4,5,6,7,j1=0,1,2,3,
line 21: q l1=21 z0,1,2,3,4,5,6,7,u1=0,1,2,3,j1=0,1,2,3,255,
blank: q b1=3.
counter, thread 1: c l1=0,2,3,4,5,6,7,8,9,10,11,12,13,14,15,16,17,18,19,20,21,
stack, thread 1: s l1=0,2,3,4,5,6,7,8,9,10,11,12,13,14,15,16,17,18,19,20,21,
16 threads, thread 15 at line 5, copies 0: X @15 t16 b15=1 u15=16 l15=5 W0=0.
16 threads, thread 15 at line 5, copies 1: X @15 t16 b15=1 u15=16 l15=5 W255=255.
16 threads, thread 15 at line 5, copies 2: X @15 t16 b15=1 u15=16 l15=5 W127=255.
16 threads, thread 0 at line 9, node 16, copies 2: X @0 t16 b0=1 u0=16 l0=9 W255=254.
1 thread at line 5, copies 0: X @0 n1 b0=1 u0=0 l0=5 W0=0.
idle, 16 requests: X @15 b15=0,15,16,
line 6, thread 15 of 16: X @15 P255=16 G254=0 l15=6 u15=16 b15=1,15,16,",
    );
    // Lines whose outcome goes by what a node, Tail, a thread or the object holds.
    table(
        output,
        1,
        "line 9, all other nodes wait: q l1=9 w0=1 w1=1 w3=1.
line 9, no other node waits: q l1=9 w1=0 w2=1 w3=0.
line 10, all other nodes completed: q l1=10 d3=1 d2=0.
line 10, no other node completed: q l1=10 d0=0 d1=0 d2=1.
line 13, h 5: q l1=13 v1=0,1,4,5,
line 13, next null, h 5: q l1=13 f3=255 v1=0,1,4,5,
line 13, served 5: q l1=13 v1=5 h5,6,255,
line 14, h 255: q l1=14 h255 v0=255 v1=253,254,255,
line 20, next is the dummy: q l1=20 t2 f2=255.
line 20, no wait: q l1=20 w3=0.
line 17, completed: q l1=17 d3=1.
idle, count 3: q b1=0,1,2,3,
idle, count 0: q b1=0 r1=0.
line 1, cur null, served at h: q v1=5 u1=255.
line 6, take: q l1=6 G17=0.
line 6, put 4294967295: q l1=6 P17=255.
line 6, empty req: q l1=6 e2=0.
line 11, ret done 1: q l1=11 D2=1.
line 11, req of cur empty: q l1=11 e2=0.
line 21, ret full: q l1=21 F2=0.
line 16, queue put, capacity 4: q l1=16 p3=255 o0,1,2,3,4,
line 16, queue put, capacity 64: q l1=16 p3=255 m64 o4,62,63,64,
line 16, queue put, capacity 1: q l1=16 p3=255 m1 o0,1,
line 16, queue take, capacity 4: q l1=16 g3=0 o0,1,2,3,4,
line 16, queue take, capacity 64: q l1=16 g3=0 m64 o4,62,63,64,
line 16, stack put, capacity 4: s l1=16 p3=0 o0,1,2,3,4,
line 16, stack take, capacity 4: s l1=16 g3=0 o0,1,2,3,4,
line 16, stack take, capacity 64: s l1=16 g3=0 m64 o4,62,63,64,
line 16, empty ret: q l1=16 N3=0.
line 16, served 0: q l1=16 v1=0.
line 16, add 0 to 77: c l1=16 a3=0.
line 16, add 5 to 77: c l1=16 a3=5.
line 16, add 4294967219 to 77: c l1=16 a3=179.
line 16, add 4294967218 to 77: c l1=16 a3=178.
line 16, add 1 to 4294967295: c l1=16 #255 a3=1.
line 16, add 4294967295 to 4294967295: c l1=16 #255 a3=255.",
    );
}
