// What a thread takes next.
#![tactic(auto)]

ghost use Rattle.std.specs.Prelude.{◌≡◌, length};
ghost use Rattle.limits.specs.Limits.{buffer_bytes};
ghost use Rattle.sigset.specs.Set.{nonzero};
ghost use Rattle.rules.specs.View.{target_queue, the_thread};
ghost use Rattle.rules.specs.Taking.{next_signal};
ghost use Rattle.rules.specs.Taking.{next as next_for};
ghost use Rattle.queue.specs.Queue.{records_of};
ghost use Rattle.sound.specs.Lent.{view_of, WithThread, lent};
ghost use Rattle.answers.specs.Answers.{next_of};
ghost use Rattle.next.specs.Nexts.{is_next_in};

use types::Pending;

// The lowest signal that a thread can take.
pub fn next_signal(ps: &[u64], ts: &[u64], tb: &[u8], pb: &[u8], thread: u32) -> Option<u32>
    requires { WithThread thread (lent ps.now ts.now tb.now pb.now) }
    ensures { result ≡ nonzero (next_signal (view_of (lent ps.now ts.now tb.now pb.now))
        (the_thread (view_of (lent ps.now ts.now tb.now pb.now)) thread)) }
{
    let process = view::process_of(ts, thread);
    if view::is_stopped(ps, process) {
        return None;
    }
    let own = view::pending_of(ps, ts, tb, pb, process, thread);
    let shared = view::pending_of(ps, ts, tb, pb, process, 0);
    own.union(shared)
        .without(view::mask_of(ts, thread))
        .lowest()
}

// The oldest record of a signal in a queue of the buffer, or else its mark.
fn next_in(b: &[u8], process: u32, thread: u32, signal: u32) -> Pending
    requires { length b.now ≡ buffer_bytes }
    ensures { is_next_in (target_queue process thread) signal (records_of b.now) result }
{
    match queue::first_of(b, process, thread, signal) {
        Some(k) => Pending::Record(siginfo::read(b, k)),
        None => Pending::Mark(process, thread, signal),
    }
}

// What a thread takes next: its own queue goes before its process's.
pub fn next_of(ps: &[u64], ts: &[u64], tb: &[u8], pb: &[u8], thread: u32) -> Option<Pending>
    requires { WithThread thread (lent ps.now ts.now tb.now pb.now) }
    ensures { next_of result
        ≡ next_for (view_of (lent ps.now ts.now tb.now pb.now))
        (the_thread (view_of (lent ps.now ts.now tb.now pb.now)) thread) }
{
    let s = next_signal(ps, ts, tb, pb, thread)?;
    let process = view::process_of(ts, thread);
    let own = view::pending_of(ps, ts, tb, pb, process, thread);
    if own.has(s) {
        return Some(next_in(tb, process, thread, s));
    }
    Some(next_in(pb, process, 0, s))
}
