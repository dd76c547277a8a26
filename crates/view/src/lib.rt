// What the rules read of the lent tables: who is live, the fields of a process or a thread by id,
// and what is pending in a queue.
#![tactic(auto)]

ghost use Rattle.std.specs.Prelude.{◌≡◌, true, not, cond, [], ◌∷◌, ◌≤◌, eqb, length};
ghost use Rattle.limits.specs.Limits.{process_table, thread_table, buffer_bytes, signals};
ghost use Rattle.lists.specs.Lists.{any};
ghost use Rattle.sigset.specs.Set.{set_of};
ghost use Rattle.types.specs.Answers.{refused_by};
ghost use Rattle.rules.specs.View.{is_process, is_thread, target_queue, action_of, pending_in};
ghost use Rattle.rules.specs.Store.{is_free_process, is_free_thread};
ghost use Rattle.rules.specs.Sound.{good_id, good_user};
ghost use Rattle.rules.specs.Sending.{may_signal};
ghost use Rattle.rules.specs.Refusals.{esrch, no_process_live, no_thread_live};
ghost use Rattle.queue.specs.Queue.{records_of, signals_in};
ghost use Rattle.tables.specs.Tables.{held_processes, held_threads, LiveProcess, LiveThread};
ghost use Rattle.sound.specs.Lent.{view_of, WithQueue, lent};
ghost use Rattle.answers.specs.Step.{rows_on};
ghost use Rattle.view.specs.Named.{process_named, thread_named};

use limits::{
    PROCESS_EFFECTIVE, PROCESS_MARKS, PROCESS_REAL, PROCESS_SAVED, PROCESS_SESSION,
    PROCESS_STOPPED, SIGCONT, THREAD_MARKS, THREAD_MASK, THREAD_PROCESS,
};
use sigset::SigSet;
use types::{Action, Errno};

// ---- who is there

pub fn is_process(ps: &[u64], id: u32) -> bool
    requires { length ps.now ≡ process_table }
    ensures { result ≡ any (is_process id) (held_processes ps.now) }
{
    tables::find_process(ps, id as u64).is_some()
}

pub fn is_thread(ts: &[u64], id: u32) -> bool
    requires { length ts.now ≡ thread_table }
    ensures { result ≡ any (is_thread id) (held_threads ts.now) }
{
    tables::find_thread(ts, id as u64).is_some()
}

// Is there a place for one process more?
pub fn has_process_place(ps: &[u64]) -> bool
    requires { length ps.now ≡ process_table }
    ensures { result ≡ any is_free_process (held_processes ps.now) }
{
    tables::free_process(ps).is_some()
}

pub fn has_thread_place(ts: &[u64]) -> bool
    requires { length ts.now ≡ thread_table }
    ensures { result ≡ any is_free_thread (held_threads ts.now) }
{
    tables::free_thread(ts).is_some()
}

// ---- a live thread

pub fn process_of(ts: &[u64], thread: u32) -> u32
    requires live { LiveThread thread ts.now }
    requires good { good_id (thread_named ts.now thread).process ≡ true }
    ensures { result ≡ (thread_named ts.now thread).process }
{
    let place = tables::live_thread(ts, thread);
    tables::thread_field_at(ts, place, THREAD_PROCESS) as u32
}

pub fn mask_of(ts: &[u64], thread: u32) -> SigSet
    requires { LiveThread thread ts.now }
    ensures { result ≡ (thread_named ts.now thread).mask }
{
    let place = tables::live_thread(ts, thread);
    SigSet(tables::thread_field_at(ts, place, THREAD_MASK))
}

// ---- a live process

pub fn is_stopped(ps: &[u64], process: u32) -> bool
    requires { LiveProcess process ps.now }
    ensures { result ≡ not (eqb (process_named ps.now process).stopped 0) }
{
    let place = tables::live_process(ps, process);
    tables::field_at(ps, place, PROCESS_STOPPED) != 0
}

pub fn real_of(ps: &[u64], process: u32) -> u32
    requires live { LiveProcess process ps.now }
    requires good { good_user (process_named ps.now process).real ≡ true }
    ensures { result ≡ (process_named ps.now process).real }
{
    let place = tables::live_process(ps, process);
    tables::field_at(ps, place, PROCESS_REAL) as u32
}

pub fn action_of(ps: &[u64], process: u32, signal: u32) -> Action
    requires live { LiveProcess process ps.now }
    requires le_signal { (1 ≤ signal) × (signal ≤ signals) }
    ensures { result ≡ action_of (process_named ps.now process) signal }
{
    let place = tables::live_process(ps, process);
    tables::action_at(ps, place, signal)
}

// May one process signal another?
pub fn may_signal(ps: &[u64], by: u32, to: u32, signal: u32) -> bool
    requires sender { LiveProcess by ps.now }
    requires target { LiveProcess to ps.now }
    ensures { result ≡ may_signal (process_named ps.now by) (process_named ps.now to) signal }
{
    let sender = tables::live_process(ps, by);
    let target = tables::live_process(ps, to);
    let real = tables::field_at(ps, sender, PROCESS_REAL);
    let effective = tables::field_at(ps, sender, PROCESS_EFFECTIVE);
    let target_real = tables::field_at(ps, target, PROCESS_REAL);
    let target_saved = tables::field_at(ps, target, PROCESS_SAVED);
    let session = tables::field_at(ps, sender, PROCESS_SESSION);
    let target_session = tables::field_at(ps, target, PROCESS_SESSION);
    let by_real = (real == target_real) | (real == target_saved);
    let by_effective = (effective == target_real) | (effective == target_saved);
    let by_session = (signal == SIGCONT) & (session == target_session);
    (effective == 0) | (by_real | (by_effective | by_session))
}

// ---- a live queue: a process's where the thread is 0, as the records of the lent buffers and the calls have it

// The signals that are marked in it.
pub fn marks_of(ps: &[u64], ts: &[u64], tb: &[u8], pb: &[u8], process: u32, thread: u32) -> SigSet
    requires { WithQueue (target_queue process thread) (lent ps.now ts.now tb.now pb.now) }
    ensures { result ≡ set_of ((view_of (lent ps.now ts.now tb.now pb.now)).marks (target_queue process thread)) }
{
    if thread == 0 {
        let place = tables::live_process(ps, process);
        return SigSet(tables::field_at(ps, place, PROCESS_MARKS));
    }
    let place = tables::live_thread(ts, thread);
    SigSet(tables::thread_field_at(ts, place, THREAD_MARKS))
}

// The signals that have a record in it.
fn queued_of(tb: &[u8], pb: &[u8], process: u32, thread: u32) -> SigSet
    requires { (length tb.now ≡ buffer_bytes) × (length pb.now ≡ buffer_bytes) }
    ensures { result ≡ signals_in (target_queue process thread)
        (records_of (cond (eqb thread 0) pb.now tb.now)) }
{
    let buffer = if thread == 0 { pb } else { tb };
    queue::signals_of(buffer, process, thread)
}

// The signals that are pending in it, by a mark or by a record.
pub fn pending_of(ps: &[u64], ts: &[u64], tb: &[u8], pb: &[u8], process: u32, thread: u32) -> SigSet
    requires { WithQueue (target_queue process thread) (lent ps.now ts.now tb.now pb.now) }
    ensures { result ≡ set_of (pending_in (view_of (lent ps.now ts.now tb.now pb.now)) (target_queue process thread)) }
{
    let marks = marks_of(ps, ts, tb, pb, process, thread);
    let queued = queued_of(tb, pb, process, thread);
    queued.union(marks)
}

// ---- the checks that several calls share

// Refused with 14 where the tables are not sound, with 3 where the process is not live. It and the next stay two: what
// differs is the test and the row, which one function would have to be handed.
pub fn check_process(
    ps: &[u64],
    ts: &[u64],
    tb: &[u8],
    pb: &[u8],
    process: u32,
) -> Result<(), Errno>
    ensures { refused_by result
        ≡ rows_on (esrch (no_process_live (view_of (lent ps.now ts.now tb.now pb.now)) process) ∷ [])
        (lent ps.now ts.now tb.now pb.now) }
{
    if !sound::sound(ps, ts, tb, pb) {
        return Err(Errno::EFAULT);
    }
    if !is_process(ps, process) {
        return Err(Errno::ESRCH);
    }
    Ok(())
}

// The same of a thread.
pub fn check_thread(ps: &[u64], ts: &[u64], tb: &[u8], pb: &[u8], thread: u32) -> Result<(), Errno>
    ensures { refused_by result
        ≡ rows_on (esrch (no_thread_live (view_of (lent ps.now ts.now tb.now pb.now)) thread) ∷ [])
        (lent ps.now ts.now tb.now pb.now) }
{
    if !sound::sound(ps, ts, tb, pb) {
        return Err(Errno::EFAULT);
    }
    if !is_thread(ts, thread) {
        return Err(Errno::ESRCH);
    }
    Ok(())
}
