// Masks and what they block: sigmask, sigreturn, sigpending.
#![tactic(auto)]

ghost use Rattle.std.specs.Prelude.{◌≡◌};
ghost use Rattle.types.specs.Answers.{answer_of, given, refused_by};
ghost use Rattle.rules.specs.Types as call;
ghost use Rattle.rules.specs.View.{the_thread};
ghost use Rattle.rules.specs.Actions.{new_mask, blocked_pending};
ghost use Rattle.rules.specs.Refusals.{bad_way};
ghost use Rattle.sound.specs.Lent.{view_of, WithThread, lent};
ghost use Rattle.answers.specs.Step.{refusal_on, step_on, stepped};

use limits::{SIG_BLOCK, SIG_SETMASK, SIG_UNBLOCK};
use sigset::SigSet;
use types::{Answer, Errno, Reply};

// ---- masks

fn is_bad_way(way: u32, set: Option<SigSet>) -> bool
    ensures { result ≡ bad_way way (given set) }
{
    set.is_some() & (SIG_SETMASK < way)
}

// The way stays a number: it is read only where a set is given, and what it may be is refused by its number.
// Way 0 adds the set, 1 removes its members, 2 replaces the mask; KILL and STOP are left out.
fn mask_after(old: SigSet, way: u32, set: SigSet) -> SigSet
    ensures { result ≡ new_mask old way set }
{
    if way == SIG_BLOCK {
        return old.union(set).maskable();
    }
    if way == SIG_UNBLOCK {
        return old.without(set).maskable();
    }
    set.maskable()
}

fn check_mask(
    ps: &[u64],
    ts: &[u64],
    tb: &[u8],
    pb: &[u8],
    thread: u32,
    way: u32,
    set: Option<SigSet>,
) -> Result<(), Errno>
    ensures { refused_by result ≡ refusal_on (call.sigmask thread way (given set)) (lent ps.now ts.now tb.now pb.now) }
{
    if !sound::sound(ps, ts, tb, pb) {
        return Err(Errno::EFAULT);
    }
    if is_bad_way(way, set) {
        return Err(Errno::EINVAL);
    }
    if !view::is_thread(ts, thread) {
        return Err(Errno::ESRCH);
    }
    Ok(())
}

// Answers the mask of a thread and, where a set is given, changes it; without one it enquires.
pub fn sigmask(
    ps: &mut [u64],
    ts: &mut [u64],
    tb: &mut [u8],
    pb: &mut [u8],
    thread: u32,
    way: u32,
    set: Option<SigSet>,
) -> Answer
    ensures { stepped (call.sigmask thread way (given set)) result
        (lent ps.old ts.old tb.old pb.old) (lent ps.new ts.new tb.new pb.new) }
{
    check_mask(ps, ts, tb, pb, thread, way, set)?;
    let old = view::mask_of(ts, thread);
    if let Some(s) = set {
        effects::set_mask(ps, ts, tb, pb, thread, mask_after(old, way, s));
    }
    Ok(Reply::OldMask(old))
}

// The return from a handler: the saved mask replaces the thread's.
pub fn sigreturn(
    ps: &mut [u64],
    ts: &mut [u64],
    tb: &mut [u8],
    pb: &mut [u8],
    thread: u32,
    saved: SigSet,
) -> Answer
    ensures { stepped (call.sigreturn thread saved) result (lent ps.old ts.old tb.old pb.old)
        (lent ps.new ts.new tb.new pb.new) }
{
    sigmask(ps, ts, tb, pb, thread, SIG_SETMASK, Some(saved))
}

// ---- the pending set

// The signals that a thread blocks and that are pending for it or for its process.
fn blocked(ps: &[u64], ts: &[u64], tb: &[u8], pb: &[u8], thread: u32) -> SigSet
    requires { WithThread thread (lent ps.now ts.now tb.now pb.now) }
    ensures { result ≡ blocked_pending (view_of (lent ps.now ts.now tb.now pb.now))
        (the_thread (view_of (lent ps.now ts.now tb.now pb.now)) thread) }
{
    let process = view::process_of(ts, thread);
    let own = view::pending_of(ps, ts, tb, pb, process, thread);
    let shared = view::pending_of(ps, ts, tb, pb, process, 0);
    view::mask_of(ts, thread).intersect(own.union(shared))
}

pub fn sigpending(ps: &[u64], ts: &[u64], tb: &[u8], pb: &[u8], thread: u32) -> Answer
    ensures { answer_of result ≡ (step_on (call.sigpending thread) (lent ps.now ts.now tb.now pb.now)).1 }
{
    view::check_thread(ps, ts, tb, pb, thread)?;
    Ok(Reply::PendingSet(blocked(ps, ts, tb, pb, thread)))
}
