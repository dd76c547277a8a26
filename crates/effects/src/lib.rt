// Each primitive change of the rules, on the lent tables:
// what they say after it is what the rules' `apply` makes of what they said before, and sound tables stay sound.
// A table that a change does not touch is lent to it for reading: soundness is of all four.
#![tactic(auto)]

ghost use Rattle.std.specs.Prelude.{◌≡◌, true, [], ◌∷◌, map, length, set};
ghost use Rattle.std.specs.Int.{from_bool};
ghost use Rattle.limits.specs.Limits.{thread_table, process_table};
ghost use Rattle.lists.specs.Lists.{any, find};
ghost use Rattle.rules.specs.View.{is_process, is_thread, belongs_to, target_queue, forget, remove_process};
ghost use Rattle.rules.specs.View.{remove_thread};
ghost use Rattle.rules.specs.View.{set_stopped, set_action, set_mask, set_mark, clear_mark, append, drop_oldest};
ghost use Rattle.rules.specs.View.{discard};
ghost use Rattle.rules.specs.Store.{free_thread, is_free_process, is_free_thread, vacate, fill, apply, on_marks};
ghost use Rattle.rules.specs.Actions.{store_changes};
ghost use Rattle.rules.specs.Adding.{added_process};
ghost use Rattle.tables.specs.Tables.{processes_of, threads_of, held_processes, held_threads, process_at, thread_at};
ghost use Rattle.tables.specs.Tables.{LiveProcess, LiveThread};
ghost use Rattle.sound.specs.Lent.{decoded, lengths_are, lent, WithQueue};
ghost use Rattle.effects.specs.Changes.{Ready, Changed};
ghost use Rattle.effects.specs.Effects.{marked_by, with_marking, with_marking_of, marking, thread_of};

use limits::{
    PROCESS_MARKS, PROCESS_STOPPED, THREAD_MARKS, THREAD_MASK, THREAD_PLACES, THREAD_PROCESS,
};
use queue::Discarded;
use sigset::SigSet;
use types::{Action, NewProcess, Siginfo};

// How marks change: signals are added to them or removed from them.
#[derive(Clone, Copy)]
enum Marking {
    Adding(SigSet),
    Removing(SigSet),
}

// ---- marks

fn marked(m: SigSet, how: Marking) -> SigSet
    ensures { result ≡ marked_by how m }
{
    match how {
        Marking::Adding(s) => m.union(s),
        Marking::Removing(s) => m.without(s),
    }
}

// The marks of a live process, and of a live thread: a pair, as in tables, for one would be no shorter.
fn change_process_marks(ps: &mut [u64], process: u32, how: Marking)
    requires { LiveProcess process ps.old }
    ensures { processes_of ps.new
        ≡ set (processes_of ps.old) (find (is_process process) (held_processes ps.old))
        (with_marking how (process_at ps.old (find (is_process process) (held_processes ps.old)))) }
{
    let place = tables::live_process(ps, process);
    let m = marked(SigSet(tables::field_at(ps, place, PROCESS_MARKS)), how);
    tables::put_field(ps, place, PROCESS_MARKS, m.0);
}

fn change_thread_marks(ts: &mut [u64], thread: u32, how: Marking)
    requires { LiveThread thread ts.old }
    ensures { threads_of ts.new
        ≡ set (threads_of ts.old) (find (is_thread thread) (held_threads ts.old))
        (with_marking how (thread_at ts.old (find (is_thread thread) (held_threads ts.old)))) }
{
    let place = tables::live_thread(ts, thread);
    let m = marked(
        SigSet(tables::thread_field_at(ts, place, THREAD_MARKS)),
        how,
    );
    tables::put_thread_field(ts, place, THREAD_MARKS, m.0);
}

// The marks of every thread of a process.
fn change_threads_marks(ts: &mut [u64], process: u32, how: Marking)
    requires { length ts.old ≡ thread_table }
    ensures { threads_of ts.new ≡ map (with_marking_of process how) (threads_of ts.old) }
{
    for i in 0..THREAD_PLACES {
        if tables::thread_field_at(ts, i, THREAD_PROCESS) == process as u64 {
            let m = marked(SigSet(tables::thread_field_at(ts, i, THREAD_MARKS)), how);
            tables::put_thread_field(ts, i, THREAD_MARKS, m.0);
        }
    }
}

// The marks of one queue, the process's own where the thread is 0.
fn change_marks(
    ps: &mut [u64],
    ts: &mut [u64],
    tb: &[u8],
    pb: &[u8],
    process: u32,
    thread: u32,
    how: Marking,
)
    requires { WithQueue (target_queue process thread) (lent ps.old ts.old tb.now pb.now) }
    ensures { decoded (lent ps.new ts.new tb.now pb.now)
        ≡ on_marks (marking how (target_queue process thread)) (decoded (lent ps.old ts.old tb.now pb.now)) }
{
    if thread == 0 {
        change_process_marks(ps, process, how);
    } else {
        change_thread_marks(ts, thread, how);
    }
}

// A signal becomes pending in a queue without a value.
pub fn set_mark(
    ps: &mut [u64],
    ts: &mut [u64],
    tb: &[u8],
    pb: &[u8],
    process: u32,
    thread: u32,
    signal: u32,
)
    requires { Ready (set_mark (target_queue process thread) signal ∷ [])
        (lent ps.old ts.old tb.now pb.now) }
    ensures { Changed (set_mark (target_queue process thread) signal ∷ [])
        (lent ps.old ts.old tb.now pb.now) (lent ps.new ts.new tb.now pb.now) }
{
    let how = Marking::Adding(SigSet::of_signal(signal));
    change_marks(ps, ts, tb, pb, process, thread, how);
}

// The mark of a signal in a queue goes.
pub fn clear_mark(
    ps: &mut [u64],
    ts: &mut [u64],
    tb: &[u8],
    pb: &[u8],
    process: u32,
    thread: u32,
    signal: u32,
)
    requires { Ready (clear_mark (target_queue process thread) signal ∷ [])
        (lent ps.old ts.old tb.now pb.now) }
    ensures { Changed (clear_mark (target_queue process thread) signal ∷ [])
        (lent ps.old ts.old tb.now pb.now) (lent ps.new ts.new tb.now pb.now) }
{
    let how = Marking::Removing(SigSet::of_signal(signal));
    change_marks(ps, ts, tb, pb, process, thread, how);
}

// ---- records

// A record at the end of its buffer. Each buffer has its own arm: Rattle covers no `&mut` chosen first.
pub fn append(ps: &[u64], ts: &[u64], tb: &mut [u8], pb: &mut [u8], r: Siginfo)
    requires { Ready (append r ∷ []) (lent ps.now ts.now tb.old pb.old) }
    ensures { Changed (append r ∷ []) (lent ps.now ts.now tb.old pb.old)
        (lent ps.now ts.now tb.new pb.new) }
{
    if r.thread == 0 {
        queue::append(pb, r);
    } else {
        queue::append(tb, r);
    }
}

// The oldest record of a queue and a signal goes.
pub fn drop_oldest(
    ps: &[u64],
    ts: &[u64],
    tb: &mut [u8],
    pb: &mut [u8],
    process: u32,
    thread: u32,
    signal: u32,
)
    requires { Ready (drop_oldest (target_queue process thread) signal ∷ [])
        (lent ps.now ts.now tb.old pb.old) }
    ensures { Changed (drop_oldest (target_queue process thread) signal ∷ [])
        (lent ps.now ts.now tb.old pb.old) (lent ps.now ts.now tb.new pb.new) }
{
    if thread == 0 {
        let k = queue::first_of(pb, process, thread, signal).unwrap();
        queue::remove(pb, k);
    } else {
        let k = queue::first_of(tb, process, thread, signal).unwrap();
        queue::remove(tb, k);
    }
}

// The signals of a set go from every queue of a process.
pub fn discard(
    ps: &mut [u64],
    ts: &mut [u64],
    tb: &mut [u8],
    pb: &mut [u8],
    process: u32,
    signals: SigSet,
)
    requires { Ready (discard process signals ∷ []) (lent ps.old ts.old tb.old pb.old) }
    ensures { Changed (discard process signals ∷ []) (lent ps.old ts.old tb.old pb.old)
        (lent ps.new ts.new tb.new pb.new) }
{
    queue::discard(tb, Discarded::OfSignals(process, signals));
    queue::discard(pb, Discarded::OfSignals(process, signals));
    change_process_marks(ps, process, Marking::Removing(signals));
    change_threads_marks(ts, process, Marking::Removing(signals));
}

// ---- fields

// A process stops, or runs again.
pub fn set_stopped(ps: &mut [u64], ts: &[u64], tb: &[u8], pb: &[u8], process: u32, stopped: bool)
    requires { Ready (set_stopped process (from_bool stopped) ∷ []) (lent ps.old ts.now tb.now pb.now) }
    ensures { Changed (set_stopped process (from_bool stopped) ∷ []) (lent ps.old ts.now tb.now pb.now)
        (lent ps.new ts.now tb.now pb.now) }
{
    let place = tables::live_process(ps, process);
    tables::put_field(ps, place, PROCESS_STOPPED, stopped as u64);
}

// The action of a signal.
pub fn set_action(
    ps: &mut [u64],
    ts: &[u64],
    tb: &[u8],
    pb: &[u8],
    process: u32,
    signal: u32,
    a: Action,
)
    requires { Ready (set_action process signal a ∷ []) (lent ps.old ts.now tb.now pb.now) }
    ensures { Changed (set_action process signal a ∷ []) (lent ps.old ts.now tb.now pb.now)
        (lent ps.new ts.now tb.now pb.now) }
{
    let place = tables::live_process(ps, process);
    tables::put_action(ps, place, signal, a);
}

// An action that ignores the signal discards it from every queue of the process.
pub fn store_action(
    ps: &mut [u64],
    ts: &mut [u64],
    tb: &mut [u8],
    pb: &mut [u8],
    process: u32,
    signal: u32,
    a: Action,
)
    requires { Ready (store_changes process signal a) (lent ps.old ts.old tb.old pb.old) }
    ensures { Changed (store_changes process signal a) (lent ps.old ts.old tb.old pb.old)
        (lent ps.new ts.new tb.new pb.new) }
{
    if decide::is_ignored(a, signal) {
        discard(ps, ts, tb, pb, process, SigSet::of_signal(signal));
    }
    set_action(ps, ts, tb, pb, process, signal, a);
}

// The mask of a thread.
pub fn set_mask(ps: &[u64], ts: &mut [u64], tb: &[u8], pb: &[u8], thread: u32, mask: SigSet)
    requires { Ready (set_mask thread mask ∷ []) (lent ps.now ts.old tb.now pb.now) }
    ensures { Changed (set_mask thread mask ∷ []) (lent ps.now ts.old tb.now pb.now)
        (lent ps.now ts.new tb.now pb.now) }
{
    let place = tables::live_thread(ts, thread);
    tables::put_thread_field(ts, place, THREAD_MASK, mask.0);
}

// ---- places

// A new process into the lowest free place.
pub fn new_process(ps: &mut [u64], new: NewProcess)
    requires ps_len { length ps.old ≡ process_table }
    requires ps_value { any is_free_process (held_processes ps.old) ≡ true }
    ensures { processes_of ps.new
        ≡ fill is_free_process (added_process new) (processes_of ps.old) }
{
    let place = tables::free_process(ps).unwrap();
    tables::fill_process(ps, place, new);
}

// A new thread into the lowest free place.
pub fn new_thread(ts: &mut [u64], id: u32, process: u32, mask: SigSet)
    requires ts_len { length ts.old ≡ thread_table }
    requires ts_value { any is_free_thread (held_threads ts.old) ≡ true }
    ensures { threads_of ts.new
        ≡ fill is_free_thread (thread_of id process mask) (threads_of ts.old) }
{
    let place = tables::free_thread(ts).unwrap();
    tables::fill_thread(ts, place, id, process, mask);
}

// The places of all threads of a process become free.
fn vacate_threads(ts: &mut [u64], process: u32)
    requires { length ts.old ≡ thread_table }
    ensures { threads_of ts.new
        ≡ vacate free_thread (belongs_to process) (threads_of ts.old) }
{
    for i in 0..THREAD_PLACES {
        if (process != 0) & (tables::thread_field_at(ts, i, THREAD_PROCESS) == process as u64) {
            tables::clear_thread(ts, i);
        }
    }
}

// A process goes, with its threads and all that is pending for it and for them.
pub fn remove_process(ps: &mut [u64], ts: &mut [u64], tb: &mut [u8], pb: &mut [u8], process: u32)
    requires { Ready (remove_process process ∷ []) (lent ps.old ts.old tb.old pb.old) }
    ensures { Changed (remove_process process ∷ []) (lent ps.old ts.old tb.old pb.old)
        (lent ps.new ts.new tb.new pb.new) }
{
    let place = tables::live_process(ps, process);
    tables::clear_process(ps, place);
    vacate_threads(ts, process);
    queue::discard(tb, Discarded::OfProcess(process));
    queue::discard(pb, Discarded::OfProcess(process));
}

// A thread goes, with all that is pending for it.
pub fn remove_thread(ps: &[u64], ts: &mut [u64], tb: &mut [u8], pb: &mut [u8], thread: u32)
    requires { Ready (remove_thread thread ∷ []) (lent ps.now ts.old tb.old pb.old) }
    ensures { Changed (remove_thread thread ∷ []) (lent ps.now ts.old tb.old pb.old)
        (lent ps.now ts.new tb.new pb.new) }
{
    let place = tables::live_thread(ts, thread);
    tables::clear_thread(ts, place);
    queue::discard(tb, Discarded::OfThread(thread));
    queue::discard(pb, Discarded::OfThread(thread));
}

// All of the store is cleared, whatever it held.
pub fn forget(ps: &mut [u64], ts: &mut [u64], tb: &mut [u8], pb: &mut [u8])
    requires { lengths_are (lent ps.old ts.old tb.old pb.old) ≡ true }
    ensures { decoded (lent ps.new ts.new tb.new pb.new) ≡ apply forget (decoded (lent ps.old ts.old tb.old pb.old)) }
{
    tables::clear_processes(ps);
    tables::clear_threads(ts);
    queue::empty(tb);
    queue::empty(pb);
}
