// Whole runs by steps, from document 01's start: its runs that touch a bound, a stack of capacity 2 that fills up, and long walks of many threads.
use crate::script::table;
use console::Output;

pub(crate) fn run(output: &mut Output) {
    // Runs of one thread and of two, then many steps of three threads that put and take in turn, and of sixteen.
    table(
        output,
        0,
        "64 bytes, 42 entries: C A0=5 A1=7 r0=2 |!0=42.
64 bytes, 4 entries: C A0=5 A1=7 r0=2 |!0=4.
64 bytes, 5 entries: C A0=5 A1=7 r0=2 |!0=5.
64 bytes, 21 entries: C A0=5 A1=7 r0=2 |!0=21.
64 bytes, 43 entries: C A0=5 A1=7 r0=2 |!0=43.
a third add, 42 entries: C A0=5 A1=7 A2=9 r0=3 |!0=42.
a third add, 63 entries: C A0=5 A1=7 A2=9 r0=3 |!0=63.
add 4294967295, 1, 0, 21 entries: C A0=255 A1=1 A2=0 r0=3 |!0=21.
add 4294967295, 1, 0, 42 entries: C A0=255 A1=1 A2=0 r0=3 |!0=42.
add 4294967295, 1, 0, 63 entries: C A0=255 A1=1 A2=0 r0=3 |!0=63.
queue, 0 eight times, 1 nine times: Q n2 h8 m4 P0=7 r0=1 G16=0 r1=1 |!0=8 !1=9.
queue, then 0 twenty times: Q n2 h8 m4 P0=7 r0=1 G16=0 r1=1 !0=8 !1=9 |!0=20.
queue, then 1 three times: Q n2 h8 m4 P0=7 r0=1 G16=0 r1=1 !0=8 !1=9 !0=20 |!1=3.
queue, h 1, 0 eight times, 1 nine times: Q n2 h1 m4 P0=7 r0=1 G16=0 r1=1 |!0=8 !1=9.
queue, h 1, then 0 thirteen times: Q n2 h1 m4 P0=7 r0=1 G16=0 r1=1 !0=8 !1=9 |!0=13.
queue, h 1, then 1 thirteen times: Q n2 h1 m4 P0=7 r0=1 G16=0 r1=1 !0=8 !1=9 !0=13 |!1=13.
queue of capacity 1, two puts: Q P0=3 P1=4 r0=2 |!0=42.
stack, one take: S G0=0 r0=1 |!0=21.
stack of capacity 2, put 9, 21 entries: S m2 P0=9 P1=8 P2=7 G3=0 P4=6 G5=0 G6=0 G7=0 r0=8 |!0=21.
stack of capacity 2, then put 8: S m2 P0=9 P1=8 P2=7 G3=0 P4=6 G5=0 G6=0 G7=0 r0=8 !0=21 |!0=21.
stack of capacity 2, then put 7: S m2 P0=9 P1=8 P2=7 G3=0 P4=6 G5=0 G6=0 G7=0 r0=8 !0=42 |!0=21.
stack of capacity 2, then take: S m2 P0=9 P1=8 P2=7 G3=0 P4=6 G5=0 G6=0 G7=0 r0=8 !0=63 |!0=21.
stack of capacity 2, then put 6: S m2 P0=9 P1=8 P2=7 G3=0 P4=6 G5=0 G6=0 G7=0 r0=8 !0=84 |!0=21.
walk, queue of 3, long: Q n3 h2 m3 P0=100 G1=0 P2=102 G3=0 P16=110 P17=111 G18=0 G19=0 G32=0 P33=121 G34=0 P35=123 r0=4 r1=4 r2=4 |?0=6.
walk, stack of 3, long: S n3 h3 m3 P0=100 G1=0 P2=102 G3=0 P16=110 P17=111 G18=0 G19=0 G32=0 P33=121 G34=0 P35=123 r0=4 r1=4 r2=4 |?7=6.
walk, queue of 16 with all requests, long: X h3 m64 |?4=60.
walk, stack of 16 with all requests: Y h200 m40 |?30=30.
walk, counter of 16 with all requests: Z h20 |?50=40.",
    );
}
