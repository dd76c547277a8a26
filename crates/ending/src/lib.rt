// Ending processes and threads.
#![tactic(auto)]

ghost use Rattle.std.specs.Prelude.{◌≡◌, ◌<◌, length, get_or};
ghost use Rattle.limits.specs.Limits.{thread_table, thread_places};
ghost use Rattle.lists.specs.Lists.{any};
ghost use Rattle.rules.specs.Types as call;
ghost use Rattle.rules.specs.Types.{no_thread};
ghost use Rattle.rules.specs.View.{the_thread};
ghost use Rattle.rules.specs.Adding.{end_thread_changes};
ghost use Rattle.tables.specs.Tables.{held_threads};
ghost use Rattle.sound.specs.Lent.{view_of, WithThread, lent};
ghost use Rattle.effects.specs.Changes.{Changed};
ghost use Rattle.answers.specs.Step.{stepped};
ghost use Rattle.ending.specs.Others.{is_other};

use limits::{THREAD_ID, THREAD_PLACES, THREAD_PROCESS};
use types::{Answer, Reply};

// Ends a process, as KILL does.
pub fn end_process(ps: &mut [u64], ts: &mut [u64], tb: &mut [u8], pb: &mut [u8], id: u32) -> Answer
    ensures { stepped (call.end_process id) result (lent ps.old ts.old tb.old pb.old)
        (lent ps.new ts.new tb.new pb.new) }
{
    view::check_process(ps, ts, tb, pb, id)?;
    effects::remove_process(ps, ts, tb, pb, id);
    Ok(Reply::Done)
}

// Is the thread in a place one of the process, and another one?
fn is_other(ts: &[u64], place: usize, process: u32, thread: u32) -> bool
    requires { (length ts.now ≡ thread_table) × (place < thread_places) }
    ensures { result ≡ is_other process thread (get_or (held_threads ts.now) place no_thread) }
{
    let owner = tables::thread_field_at(ts, place, THREAD_PROCESS);
    let id = tables::thread_field_at(ts, place, THREAD_ID);
    ((process != 0) & (owner == process as u64)) & (id != thread as u64)
}

// Has the process another thread?
fn has_other(ts: &[u64], process: u32, thread: u32) -> bool
    requires { length ts.now ≡ thread_table }
    ensures { result ≡ any (is_other process thread) (held_threads ts.now) }
{
    for place in 0..THREAD_PLACES {
        if is_other(ts, place, process, thread) {
            return true;
        }
    }
    false
}

// The thread goes, and its process with it where it is the last one.
fn remove(ps: &mut [u64], ts: &mut [u64], tb: &mut [u8], pb: &mut [u8], thread: u32)
    requires { WithThread thread (lent ps.old ts.old tb.old pb.old) }
    ensures { Changed (end_thread_changes (view_of (lent ps.old ts.old tb.old pb.old))
        (the_thread (view_of (lent ps.old ts.old tb.old pb.old)) thread))
        (lent ps.old ts.old tb.old pb.old) (lent ps.new ts.new tb.new pb.new) }
{
    let process = view::process_of(ts, thread);
    if has_other(ts, process, thread) {
        effects::remove_thread(ps, ts, tb, pb, thread);
    } else {
        effects::remove_process(ps, ts, tb, pb, process);
    }
}

// Ends a thread; the last one of a process ends the process.
pub fn end_thread(ps: &mut [u64], ts: &mut [u64], tb: &mut [u8], pb: &mut [u8], id: u32) -> Answer
    ensures { stepped (call.end_thread id) result (lent ps.old ts.old tb.old pb.old)
        (lent ps.new ts.new tb.new pb.new) }
{
    view::check_thread(ps, ts, tb, pb, id)?;
    remove(ps, ts, tb, pb, id);
    Ok(Reply::Done)
}
