// A bench file's run from its fresh machine, in place: one local state stepped entry by entry, and what a record needs kept of each call.
#![tactic(auto)]

ghost use Rattle.std.specs.Prelude.{◌≡◌};
ghost use Rattle.bench_file.specs.Layout.{judge_of};
ghost use Rattle.runner.specs.Played.{Startable, played_from, played_in, as_played};

use kept::{Kept, Notes};
use machine::{Event, Method, ThreadId};
use object::Answer;
use refusal::Refusal;
use state::{Counts, State};

// A run: the five counts, what is kept of each call, by its place, and the places in Swap order.
#[derive(Clone, Copy)]
pub struct Played {
    pub counts: Counts,
    pub kept: [Kept; machine::CALLS],
    pub order: [u16; machine::CALLS],
}

// The run of a file's schedule from its fresh machine, in place, by the machine's method; 14 where an entry's line meets null.
fn from_start(schedule: &[u8], start: State) -> Result<Played, Refusal>
    requires { Startable schedule.now start }
    ensures { as_played result ≡ played_from start schedule.now }
{
    let method = start.method;
    let rows = methods::all_rows(method);
    let spin_line = methods::spin_line(method);
    let n = start.n;
    let h = start.h;
    let kind = start.kind;
    let capacity = start.capacity;
    let mut state = start;
    let mut kept = [kept::unkept(); machine::CALLS];
    let mut notes = Notes::none();
    for (i, &entry) in schedule.iter().enumerate() {
        let thread = ThreadId(entry);
        let t = thread.0 as usize;
        // Two kinds of entry change nothing but a count: a spin that makes no remote reference, looked for before all else, and a blank. Where the entry is no
        // such spin, the thread is copied out again: one copy for both is slower.
        let seen = state.threads[t];
        if seen.line == spin_line {
            let waited = methods::spin_node(method, seen.cur, seen.my);
            let at = copies::place(waited);
            let spun = waited.0 as usize;
            if state.nodes[spun].wait & copies::at_hand(method, state.copies[at], waited, thread) {
                state.counts.spins += 1;
                continue;
            }
        }
        let named = state.threads[t];
        let line = machine::line_run(named);
        let row = rows[line as usize];
        let row_event = row.event;
        if row_event == Event::Blank {
            state.counts.blanks += 1;
            continue;
        }
        let pointer = row.node;
        let tail = state.tail;
        let tmp = named.tmp;
        let points = machine::pointed(pointer, named);
        let m = points.0 as usize;
        let mut node = step::zero_node();
        if m < machine::NODES {
            node = state.nodes[m];
        }
        let req = node.req;
        let next = node.next;
        let emptied = tail == tmp;
        let event = machine::event_in(row, node, emptied);
        let applies = event == Event::Applies;
        let place = step::call_place(thread, named.begun);
        let request = state.requests[place];
        let counts = state.counts;
        let mut answer = Answer::Empty;
        if applies {
            let object = state.object;
            let applied = step::served_by(kind, capacity, object, req);
            let (given, object_after) = applied.unwrap_or((Answer::Empty, object));
            answer = given;
            state.object = object_after;
        }
        // By the state's method, and not by `methods::run_line`: no line of CC-Synch is refused in a run, and its tests for 14 would cost a tenth of the time; one of
        // DSM-Synch is where it meets null.
        let effect = match method {
            Method::CcSynch => {
                Ok(cc_synch::executed(line, named, node, tail, h, request, answer))
            }
            Method::DsmSynch => {
                let b = next.0 as usize;
                let mut behind = step::zero_node();
                if b < machine::NODES {
                    behind = state.nodes[b];
                }
                dsm_synch::run_line(thread, named, node, behind, tail, h, request, answer)
            }
        };
        let done = effect?;
        // The row's accesses are read here, where alone they are needed.
        let accesses = rows[line as usize];
        let remote = copies::refer_all(
            method,
            &mut state.copies,
            accesses,
            points,
            next,
            thread,
            n,
        );
        let more = step::more_of(event, remote);
        let written = machine::written(accesses, points, next);
        let w = written.0 as usize;
        let counts_after = step::plus(counts, more);
        state.threads[t] = done.thread;
        if machine::writes_any(accesses) {
            if w < machine::NODES {
                state.nodes[w] = done.node;
            }
        }
        state.tail = done.tail;
        state.counts = counts_after;
        let call = step::call_place(thread, done.thread.begun);
        let mine = kept[call];
        kept[call] = kept::after_entry(mine, event, remote, i as u32);
        if applies {
            let turn = notes.turns[t];
            let served = notes.given_at(points) as usize;
            let theirs = kept[served];
            kept[served] = kept::after_serving(theirs, answer, thread, turn);
        }
        let assigned = methods::assigned(method, tail, named.my);
        notes.note_entry(event, thread, assigned, counts, call);
    }
    Ok(Played {
        counts: state.counts,
        kept,
        order: notes.order,
    })
}

// The run of any bytes as a bench file, with so many bytes lent for its records: those of a record for each request in the file, performed or not, else 13.
pub fn play(file: &[u8], lent: usize) -> Result<Played, Refusal>
    ensures { as_played result ≡ played_in lent (judge_of file.now) }
{
    let loaded = loader::load(file)?;
    if lent < kept::RECORD_LENGTH * loaded.requests {
        return Err(Refusal::Buffer);
    }
    let first = file.len() - loaded.entries;
    from_start(&file[first..], loaded.state)
}
