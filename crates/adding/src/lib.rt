// Adding processes and threads.
#![tactic(auto)]

ghost use Rattle.std.specs.Prelude.{◌≡◌};
ghost use Rattle.types.specs.Answers.{refused_by};
ghost use Rattle.rules.specs.Types as call;
ghost use Rattle.sound.specs.Lent.{lent};
ghost use Rattle.answers.specs.Step.{refusal_on, stepped};

use sigset::SigSet;
use types::{Answer, Errno, NewProcess, Reply};

fn check_add_process(
    ps: &[u64],
    ts: &[u64],
    tb: &[u8],
    pb: &[u8],
    new: NewProcess,
) -> Result<(), Errno>
    ensures { refused_by result ≡ refusal_on (call.add_process new) (lent ps.now ts.now tb.now pb.now) }
{
    if !sound::sound(ps, ts, tb, pb) {
        return Err(Errno::EFAULT);
    }
    if !decide::is_id(new.id as u64) | !decide::is_id(new.thread as u64) {
        return Err(Errno::EINVAL);
    }
    if view::is_process(ps, new.id) | view::is_thread(ts, new.thread) {
        return Err(Errno::EEXIST);
    }
    if !view::has_process_place(ps) | !view::has_thread_place(ts) {
        return Err(Errno::EAGAIN);
    }
    Ok(())
}

// Adds a process, running, with its first thread.
pub fn add_process(
    ps: &mut [u64],
    ts: &mut [u64],
    tb: &mut [u8],
    pb: &mut [u8],
    new: NewProcess,
) -> Answer
    ensures { stepped (call.add_process new) result (lent ps.old ts.old tb.old pb.old)
        (lent ps.new ts.new tb.new pb.new) }
{
    check_add_process(ps, ts, tb, pb, new)?;
    effects::new_process(ps, new);
    effects::new_thread(ts, new.thread, new.id, new.mask.maskable());
    Ok(Reply::Done)
}

fn check_add_thread(
    ps: &[u64],
    ts: &[u64],
    tb: &[u8],
    pb: &[u8],
    creator: u32,
    id: u32,
) -> Result<(), Errno>
    ensures { refused_by result ≡ refusal_on (call.add_thread creator id) (lent ps.now ts.now tb.now pb.now) }
{
    if !sound::sound(ps, ts, tb, pb) {
        return Err(Errno::EFAULT);
    }
    if !decide::is_id(id as u64) {
        return Err(Errno::EINVAL);
    }
    if !view::is_thread(ts, creator) {
        return Err(Errno::ESRCH);
    }
    if view::is_thread(ts, id) {
        return Err(Errno::EEXIST);
    }
    if !view::has_thread_place(ts) {
        return Err(Errno::EAGAIN);
    }
    Ok(())
}

// Adds a thread to its creator's process, with its creator's mask.
pub fn add_thread(
    ps: &mut [u64],
    ts: &mut [u64],
    tb: &mut [u8],
    pb: &mut [u8],
    creator: u32,
    id: u32,
) -> Answer
    ensures { stepped (call.add_thread creator id) result (lent ps.old ts.old tb.old pb.old)
        (lent ps.new ts.new tb.new pb.new) }
{
    check_add_thread(ps, ts, tb, pb, creator, id)?;
    let process = view::process_of(ts, creator);
    let mask = view::mask_of(ts, creator);
    effects::new_thread(ts, id, process, mask);
    Ok(Reply::Done)
}
