// Sends: kill, without a value, and queue, with one.
#![tactic(auto)]

ghost use Rattle.std.specs.Prelude.{◌≡◌, true, ◌&&◌, leb, ◌≤◌, is_some};
ghost use Rattle.limits.specs.Limits.{signals, record_limit};
ghost use Rattle.sigset.specs.Set.{set_of};
ghost use Rattle.rules.specs.Signals.{stop_signal};
ghost use Rattle.types.specs.Answers.{refused_by};
ghost use Rattle.rules.specs.Types as call;
ghost use Rattle.rules.specs.View.{target_queue};
ghost use Rattle.rules.specs.Sending.{absorbs, generation, info_of, job_control, send_changes, send_answer};
ghost use Rattle.rules.specs.Sending.{needs_record};
ghost use Rattle.rules.specs.Refusals.{bad_target};
ghost use Rattle.sound.specs.Lent.{view_of, sound_tables, WithQueue, WithProcess, lent};
ghost use Rattle.effects.specs.Changes.{Ready, Changed};
ghost use Rattle.answers.specs.Step.{refusal_on, stepped};
ghost use Rattle.sending.specs.Generations.{generation_of};
ghost use Rattle.sending.specs.JobControl.{controls, discarded_by};
ghost use Rattle.sending.specs.Decisions.{value_of, call_of, Decided};

use limits::{
    RECORD_LIMIT, SI_QUEUE, SIGCONT, SIGKILL, SIGNALS, SIGSTOP, SIGTSTP, SIGTTIN, SIGTTOU,
};
use sigset::SigSet;
use types::{Answer, Errno, Reply, Sent, Siginfo};

// What the generation of a signal comes to.
#[derive(Clone, Copy)]
enum Generation {
    Testing,
    Killing,
    Stopping,
    Dropping,
    Absorbing,
    Marking,
    Keeping,
}

// What is sent: from a process to a process or, where it is not 0, to a thread of it. A plain one has no value.
#[derive(Clone, Copy)]
struct Request {
    by: u32,
    to: u32,
    thread: u32,
    signal: u32,
    value: Option<u64>,
}

// ---- what is decided before anything changes

// Is the send absorbed: a standard signal that is pending in the queue, or a plain send whose mark is set there?
fn is_absorbed(ps: &[u64], ts: &[u64], tb: &[u8], pb: &[u8], s: Request) -> bool
    requires with_queue { WithQueue (target_queue s.to s.thread) (lent ps.now ts.now tb.now pb.now) }
    requires le_signal { (1 ≤ s.signal) × (s.signal ≤ signals) }
    ensures { result ≡ absorbs (view_of (lent ps.now ts.now tb.now pb.now)) (is_some s.value)
        (target_queue s.to s.thread) s.signal }
{
    let pending = view::pending_of(ps, ts, tb, pb, s.to, s.thread);
    let marks = view::marks_of(ps, ts, tb, pb, s.to, s.thread);
    let again = decide::is_standard(s.signal) & pending.has(s.signal);
    again | (s.value.is_none() & marks.has(s.signal))
}

fn generation_of(ps: &[u64], ts: &[u64], tb: &[u8], pb: &[u8], s: Request) -> Generation
    requires with_queue { WithQueue (target_queue s.to s.thread) (lent ps.now ts.now tb.now pb.now) }
    requires signal_le_signals { s.signal ≤ signals }
    ensures { generation_of result ≡ generation (view_of (lent ps.now ts.now tb.now pb.now)) (is_some s.value)
        (target_queue s.to s.thread) s.signal }
{
    if s.signal == 0 {
        return Generation::Testing;
    }
    if s.signal == SIGKILL {
        return Generation::Killing;
    }
    if s.signal == SIGSTOP {
        return Generation::Stopping;
    }
    if decide::is_ignored(view::action_of(ps, s.to, s.signal), s.signal) {
        return Generation::Dropping;
    }
    if is_absorbed(ps, ts, tb, pb, s) {
        return Generation::Absorbing;
    }
    if s.value.is_some() {
        return Generation::Keeping;
    }
    Generation::Marking
}

// The record of a send; a plain one keeps none.
fn info(ps: &[u64], ts: &[u64], tb: &[u8], pb: &[u8], s: Request) -> Siginfo
    requires { WithProcess s.by (lent ps.now ts.now tb.now pb.now) }
    ensures { result ≡ info_of (view_of (lent ps.now ts.now tb.now pb.now)) s.by s.to s.thread s.signal
        (value_of s) }
{
    Siginfo {
        process: s.to,
        thread: s.thread,
        signal: s.signal,
        code: SI_QUEUE,
        sender: s.by,
        uid: view::real_of(ps, s.by),
        value: s.value.unwrap_or(0),
    }
}

// ---- what a send changes

// The stop signals that can be pending.
fn stop_signals() -> SigSet
    ensures { result ≡ set_of stop_signal }
{
    let tty = SigSet::of_signal(SIGTTIN).union(SigSet::of_signal(SIGTTOU));
    SigSet::of_signal(SIGTSTP).union(tty)
}

// The signals of job control: CONT, STOP and the stop signals.
fn is_job_control(s: u32) -> bool
    ensures { result ≡ controls s }
{
    (s == SIGCONT) | ((s == SIGSTOP) | ((s == SIGTSTP) | ((s == SIGTTIN) | (s == SIGTTOU))))
}

// What a signal of job control discards: CONT the stop signals, the others CONT.
fn discarded_by(s: u32) -> SigSet
    ensures { result ≡ discarded_by s }
{
    if s == SIGCONT {
        return stop_signals();
    }
    SigSet::of_signal(SIGCONT)
}

// A stop signal stops the process only when it is taken; STOP stops it and CONT lets it run when they are sent.
fn job_control(
    ps: &mut [u64],
    ts: &mut [u64],
    tb: &mut [u8],
    pb: &mut [u8],
    process: u32,
    signal: u32,
)
    requires { Ready (job_control process signal) (lent ps.old ts.old tb.old pb.old) }
    ensures { Changed (job_control process signal) (lent ps.old ts.old tb.old pb.old)
        (lent ps.new ts.new tb.new pb.new) }
{
    if !is_job_control(signal) {
        return;
    }
    effects::discard(ps, ts, tb, pb, process, discarded_by(signal));
    if (signal == SIGCONT) | (signal == SIGSTOP) {
        effects::set_stopped(ps, ts, tb, pb, process, signal == SIGSTOP);
    }
}

// Generates the signal. Job control comes first, whatever becomes pending.
fn generate(ps: &mut [u64], ts: &mut [u64], tb: &mut [u8], pb: &mut [u8], f: Generation, r: Siginfo)
    requires { Ready (send_changes (generation_of f) r) (lent ps.old ts.old tb.old pb.old) }
    ensures { Changed (send_changes (generation_of f) r) (lent ps.old ts.old tb.old pb.old)
        (lent ps.new ts.new tb.new pb.new) }
{
    match f {
        Generation::Testing => return,
        Generation::Killing => {
            effects::remove_process(ps, ts, tb, pb, r.process);
            return;
        }
        _ => {}
    }
    job_control(ps, ts, tb, pb, r.process, r.signal);
    match f {
        Generation::Marking => effects::set_mark(ps, ts, tb, pb, r.process, r.thread, r.signal),
        Generation::Keeping => effects::append(ps, ts, tb, pb, r),
        _ => {}
    }
}

fn sent(f: Generation) -> Sent
    ensures { result ≡ send_answer (generation_of f) }
{
    match f {
        Generation::Testing => Sent::Tested,
        Generation::Killing => Sent::Acted,
        Generation::Stopping => Sent::Acted,
        Generation::Dropping => Sent::Dropped,
        Generation::Absorbing => Sent::Absorbed,
        Generation::Marking => Sent::Marked,
        Generation::Keeping => Sent::Kept,
    }
}

// ---- refusals

// Is the target not a live process, or the thread neither 0 nor a live thread of it?
fn is_bad_target(ps: &[u64], ts: &[u64], tb: &[u8], pb: &[u8], to: u32, thread: u32) -> bool
    requires { sound_tables (lent ps.now ts.now tb.now pb.now) ≡ true }
    ensures { result ≡ bad_target (view_of (lent ps.now ts.now tb.now pb.now)) to thread }
{
    if !view::is_process(ps, to) {
        return true;
    }
    if thread == 0 {
        return false;
    }
    if !view::is_thread(ts, thread) {
        return true;
    }
    view::process_of(ts, thread) != to
}

// What refuses a plain send; a queued one is refused for all of this too.
fn check_kill(ps: &[u64], ts: &[u64], tb: &[u8], pb: &[u8], s: Request) -> Result<(), Errno>
    ensures { refused_by result
        ≡ refusal_on (call.kill s.by s.to s.thread s.signal) (lent ps.now ts.now tb.now pb.now) }
{
    if !sound::sound(ps, ts, tb, pb) {
        return Err(Errno::EFAULT);
    }
    if SIGNALS < s.signal {
        return Err(Errno::EINVAL);
    }
    if !view::is_process(ps, s.by) | is_bad_target(ps, ts, tb, pb, s.to, s.thread) {
        return Err(Errno::ESRCH);
    }
    if !view::may_signal(ps, s.by, s.to, s.signal) {
        return Err(Errno::EPERM);
    }
    Ok(())
}

// Is the send kept, and has the process all the records that it may have? The buffers are counted
// only for a send that is kept.
fn has_no_room(ps: &[u64], ts: &[u64], tb: &[u8], pb: &[u8], f: Generation, to: u32) -> bool
    requires { sound_tables (lent ps.now ts.now tb.now pb.now) ≡ true }
    ensures { result ≡ (needs_record (generation_of f)
        && leb record_limit ((view_of (lent ps.now ts.now tb.now pb.now)).queued to)) }
{
    match f {
        Generation::Keeping => RECORD_LIMIT <= queue::count_of(tb, to) + queue::count_of(pb, to),
        _ => false,
    }
}

// All is decided before anything changes: what the generation comes to, and the record.
fn judge(
    ps: &[u64],
    ts: &[u64],
    tb: &[u8],
    pb: &[u8],
    s: Request,
) -> Result<(Generation, Siginfo), Errno>
    ensures { Decided (lent ps.now ts.now tb.now pb.now) s result }
{
    check_kill(ps, ts, tb, pb, s)?;
    let f = generation_of(ps, ts, tb, pb, s);
    if has_no_room(ps, ts, tb, pb, f, s.to) {
        return Err(Errno::EAGAIN);
    }
    Ok((f, info(ps, ts, tb, pb, s)))
}

// ---- the calls

fn send(ps: &mut [u64], ts: &mut [u64], tb: &mut [u8], pb: &mut [u8], s: Request) -> Answer
    ensures { stepped (call_of s) result
        (lent ps.old ts.old tb.old pb.old) (lent ps.new ts.new tb.new pb.new) }
{
    let (f, r) = judge(ps, ts, tb, pb, s)?;
    generate(ps, ts, tb, pb, f, r);
    Ok(Reply::Sent(sent(f)))
}

// Sends a signal without a value, to a process or, where it is not 0, to one of its threads.
pub fn kill(
    ps: &mut [u64],
    ts: &mut [u64],
    tb: &mut [u8],
    pb: &mut [u8],
    by: u32,
    to: u32,
    thread: u32,
    signal: u32,
) -> Answer
    ensures { stepped (call.kill by to thread signal) result (lent ps.old ts.old tb.old pb.old)
        (lent ps.new ts.new tb.new pb.new) }
{
    let s = Request {
        by,
        to,
        thread,
        signal,
        value: None,
    };
    send(ps, ts, tb, pb, s)
}

// Sends a signal with a value.
pub fn sigqueue(
    ps: &mut [u64],
    ts: &mut [u64],
    tb: &mut [u8],
    pb: &mut [u8],
    by: u32,
    to: u32,
    thread: u32,
    signal: u32,
    value: u64,
) -> Answer
    ensures { stepped (call.sigqueue by to thread signal value) result
        (lent ps.old ts.old tb.old pb.old) (lent ps.new ts.new tb.new pb.new) }
{
    let s = Request {
        by,
        to,
        thread,
        signal,
        value: Some(value),
    };
    send(ps, ts, tb, pb, s)
}
