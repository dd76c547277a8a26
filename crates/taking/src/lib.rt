// The take.
#![tactic(auto)]

ghost use Rattle.std.specs.Prelude.{◌≡◌};
ghost use Rattle.rules.specs.Types as call;
ghost use Rattle.rules.specs.Signals.{outcome};
ghost use Rattle.rules.specs.View.{target_queue};
ghost use Rattle.rules.specs.Taking.{mark_info, handler_mask, resets, reset, outcome_changes, outcome_answer, deliver};
ghost use Rattle.rules.specs.Taking.{delivered};
ghost use Rattle.answers.specs.Answers.{next_from};
ghost use Rattle.sound.specs.Lent.{lent};
ghost use Rattle.answers.specs.Step.{stepped};
ghost use Rattle.effects.specs.Changes.{Ready, Changed};
ghost use Rattle.effects.specs.Effects.{thread_of};
ghost use Rattle.taking.specs.Takes.{outcome_of, info_in, dequeue_changes, handler_changes, Takeable, Took};

use limits::{
    KNOWN_FLAGS, SA_NODEFER, SA_RESETHAND, SA_SIGINFO, SIG_DFL, SIGCONT, SIGILL, SIGSTOP, SIGTRAP,
    SIGTSTP, SIGTTIN, SIGTTOU,
};
use sigset::SigSet;
use types::{Action, Answer, Pending, Reply, Siginfo, Taken};

// ---- handlers

// The mask that a handler runs under.
fn handler_mask(old: SigSet, a: Action, signal: u32) -> SigSet
    ensures { result ≡ handler_mask old a signal }
{
    let both = old.union(a.mask);
    if a.flags & SA_NODEFER != 0 {
        return both.union(SigSet::EMPTY).maskable();
    }
    both.union(SigSet::of_signal(signal)).maskable()
}

// Does taking the signal reset its action?
fn is_reset(a: Action, signal: u32) -> bool
    ensures { result ≡ resets a signal }
{
    (a.flags & SA_RESETHAND != 0) & !((signal == SIGILL) | (signal == SIGTRAP))
}

// The default handler, without SIGINFO; the rest of the action stays.
fn reset_of(a: Action) -> Action
    ensures { result ≡ reset a }
{
    Action {
        handler: SIG_DFL,
        flags: a.flags & (KNOWN_FLAGS - SA_SIGINFO),
        ..a
    }
}

// The handler's mask, and the reset of the action.
fn start_handler(
    ps: &mut [u64],
    ts: &mut [u64],
    tb: &mut [u8],
    pb: &mut [u8],
    thread: u32,
    process: u32,
    mask: SigSet,
    a: Action,
    signal: u32,
)
    requires { Ready (handler_changes (thread_of thread process mask) a signal)
        (lent ps.old ts.old tb.old pb.old) }
    ensures { Changed (handler_changes (thread_of thread process mask) a signal)
        (lent ps.old ts.old tb.old pb.old) (lent ps.new ts.new tb.new pb.new) }
{
    effects::set_mask(ps, ts, tb, pb, thread, handler_mask(mask, a, signal));
    if is_reset(a, signal) {
        effects::store_action(ps, ts, tb, pb, process, signal, reset_of(a));
    }
}

// ---- default outcomes

// What a signal does by default.
#[derive(Clone, Copy)]
enum Outcome {
    Ignores,
    Stops,
    Continues,
    Ends,
}

fn outcome_of(s: u32) -> Outcome
    ensures { outcome_of result ≡ outcome s }
{
    if decide::is_ignoring(s) {
        return Outcome::Ignores;
    }
    if (s == SIGSTOP) | ((s == SIGTSTP) | ((s == SIGTTIN) | (s == SIGTTOU))) {
        return Outcome::Stops;
    }
    if s == SIGCONT {
        return Outcome::Continues;
    }
    Outcome::Ends
}

fn act_by_default(
    ps: &mut [u64],
    ts: &mut [u64],
    tb: &mut [u8],
    pb: &mut [u8],
    o: Outcome,
    process: u32,
)
    requires { Ready (outcome_changes (outcome_of o) process) (lent ps.old ts.old tb.old pb.old) }
    ensures { Changed (outcome_changes (outcome_of o) process) (lent ps.old ts.old tb.old pb.old)
        (lent ps.new ts.new tb.new pb.new) }
{
    match o {
        Outcome::Ignores => {}
        Outcome::Stops => effects::set_stopped(ps, ts, tb, pb, process, true),
        Outcome::Continues => {}
        Outcome::Ends => effects::remove_process(ps, ts, tb, pb, process),
    }
}

fn default_answer(o: Outcome, signal: u32) -> Taken
    ensures { result ≡ outcome_answer (outcome_of o) signal }
{
    match o {
        Outcome::Ignores => Taken::NoAction(signal),
        Outcome::Stops => Taken::Stop(signal),
        Outcome::Continues => Taken::NoAction(signal),
        Outcome::Ends => Taken::End(signal),
    }
}

// ---- the take

// What the taken signal sets off.
fn deliver(
    ps: &mut [u64],
    ts: &mut [u64],
    tb: &mut [u8],
    pb: &mut [u8],
    thread: u32,
    process: u32,
    mask: SigSet,
    a: Action,
    signal: u32,
)
    requires { Ready (deliver (thread_of thread process mask) a signal)
        (lent ps.old ts.old tb.old pb.old) }
    ensures { Changed (deliver (thread_of thread process mask) a signal)
        (lent ps.old ts.old tb.old pb.old) (lent ps.new ts.new tb.new pb.new) }
{
    if a.handler == SIG_DFL {
        act_by_default(ps, ts, tb, pb, outcome_of(signal), process);
    } else {
        start_handler(ps, ts, tb, pb, thread, process, mask, a, signal);
    }
}

// What the take answers; of the thread it reads the mask alone.
fn delivered(mask: SigSet, a: Action, r: Siginfo) -> Taken
    ensures { result ≡ delivered (thread_of 0 0 mask) a r }
{
    if a.handler == SIG_DFL {
        return default_answer(outcome_of(r.signal), r.signal);
    }
    Taken::Handler(a.handler, r.signal, r, a.flags, mask)
}

// The record or the mark leaves its queue.
fn dequeue(ps: &mut [u64], ts: &mut [u64], tb: &mut [u8], pb: &mut [u8], next: Pending)
    requires { Ready (dequeue_changes (next_from next)) (lent ps.old ts.old tb.old pb.old) }
    ensures { Changed (dequeue_changes (next_from next)) (lent ps.old ts.old tb.old pb.old)
        (lent ps.new ts.new tb.new pb.new) }
{
    match next {
        Pending::Mark(process, thread, signal) => {
            effects::clear_mark(ps, ts, tb, pb, process, thread, signal);
        }
        Pending::Record(r) => {
            effects::drop_oldest(ps, ts, tb, pb, r.process, r.thread, r.signal);
        }
    }
}

// The record that is answered; of a mark, its queue and signal alone.
fn info_of(next: Pending) -> Siginfo
    ensures { result ≡ info_in (next_from next) }
{
    match next {
        Pending::Mark(process, thread, signal) => mark_info(process, thread, signal),
        Pending::Record(r) => r,
    }
}

fn mark_info(process: u32, thread: u32, signal: u32) -> Siginfo
    ensures { result ≡ mark_info (target_queue process thread) signal }
{
    Siginfo {
        process,
        thread,
        signal,
        code: 0,
        sender: 0,
        uid: 0,
        value: 0,
    }
}

// What is next for a thread is taken.
fn take_next(
    ps: &mut [u64],
    ts: &mut [u64],
    tb: &mut [u8],
    pb: &mut [u8],
    thread: u32,
    next: Pending,
) -> Taken
    requires { Takeable thread (next_from next) (lent ps.old ts.old tb.old pb.old) }
    ensures { Took thread (next_from next) result (lent ps.old ts.old tb.old pb.old)
        (lent ps.new ts.new tb.new pb.new) }
{
    let r = info_of(next);
    let process = view::process_of(ts, thread);
    let mask = view::mask_of(ts, thread);
    let a = view::action_of(ps, process, r.signal);
    dequeue(ps, ts, tb, pb, next);
    deliver(ps, ts, tb, pb, thread, process, mask, a, r.signal);
    delivered(mask, a, r)
}

// A thread takes its next signal.
pub fn take(ps: &mut [u64], ts: &mut [u64], tb: &mut [u8], pb: &mut [u8], thread: u32) -> Answer
    ensures { stepped (call.take thread) result (lent ps.old ts.old tb.old pb.old)
        (lent ps.new ts.new tb.new pb.new) }
{
    view::check_thread(ps, ts, tb, pb, thread)?;
    let Some(next) = next::next_of(ps, ts, tb, pb, thread) else {
        return Ok(Reply::Taken(None));
    };
    Ok(Reply::Taken(Some(take_next(ps, ts, tb, pb, thread, next))))
}
