// Actions: sigaction.
#![tactic(auto)]

ghost use Rattle.std.specs.Prelude.{◌≡◌};
ghost use Rattle.types.specs.Answers.{given, refused_by};
ghost use Rattle.rules.specs.Types as call;
ghost use Rattle.rules.specs.Actions.{stored};
ghost use Rattle.rules.specs.Refusals.{unstorable, bad_action};
ghost use Rattle.sound.specs.Lent.{lent};
ghost use Rattle.answers.specs.Step.{refusal_on, stepped};

use limits::{SIGKILL, SIGNALS, SIGSTOP};
use sigset::SigSet;
use types::{Action, Answer, Errno, Reply};

// No new action is stored for KILL and STOP, and none with an unknown flag.
fn is_unstorable(signal: u32, new: Option<Action>) -> bool
    ensures { result ≡ unstorable signal (given new) }
{
    match new {
        None => false,
        Some(a) => ((signal == SIGKILL) | (signal == SIGSTOP)) | !decide::are_flags_known(a.flags),
    }
}

fn is_bad_action(signal: u32, new: Option<Action>) -> bool
    ensures { result ≡ bad_action signal (given new) }
{
    (SIGNALS < signal) | ((signal == 0) | is_unstorable(signal, new))
}

// What is stored of an action has no KILL and STOP in its mask.
fn stored_of(a: Action) -> Action
    ensures { result ≡ stored a }
{
    Action {
        mask: a.mask.maskable(),
        ..a
    }
}

fn check_action(
    ps: &[u64],
    ts: &[u64],
    tb: &[u8],
    pb: &[u8],
    process: u32,
    signal: u32,
    new: Option<Action>,
) -> Result<(), Errno>
    ensures { refused_by result
        ≡ refusal_on (call.sigaction process signal (given new)) (lent ps.now ts.now tb.now pb.now) }
{
    if !sound::sound(ps, ts, tb, pb) {
        return Err(Errno::EFAULT);
    }
    if is_bad_action(signal, new) {
        return Err(Errno::EINVAL);
    }
    if !view::is_process(ps, process) {
        return Err(Errno::ESRCH);
    }
    Ok(())
}

// Answers the action of a signal and, where a new one is given, stores it; without one it enquires.
pub fn sigaction(
    ps: &mut [u64],
    ts: &mut [u64],
    tb: &mut [u8],
    pb: &mut [u8],
    process: u32,
    signal: u32,
    new: Option<Action>,
) -> Answer
    ensures { stepped (call.sigaction process signal (given new)) result
        (lent ps.old ts.old tb.old pb.old) (lent ps.new ts.new tb.new pb.new) }
{
    check_action(ps, ts, tb, pb, process, signal, new)?;
    let old = view::action_of(ps, process, signal);
    if let Some(a) = new {
        effects::store_action(ps, ts, tb, pb, process, signal, stored_of(a));
    }
    Ok(Reply::OldAction(old))
}
