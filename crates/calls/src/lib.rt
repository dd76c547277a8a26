// Every call by its value: what a host hands in, and what the layer answers.
#![tactic(auto)]

ghost use Rattle.std.specs.Prelude.{◌≡◌};
ghost use Rattle.types.specs.Answers.{answer_of};
ghost use Rattle.sound.specs.Lent.{lent};
ghost use Rattle.answers.specs.Step.{step_on, stepped};
ghost use Rattle.calls.specs.Calls.{placing_of, sending_of, setting_of, asking_of, call_of};

use sigset::SigSet;
use types::{Action, Answer, NewProcess};

// ---- the calls by family, each with its arguments in the documented order

// Who lives.
#[derive(Clone, Copy)]
pub enum Placing {
    AddProcess(NewProcess),
    // creator, id
    AddThread(u32, u32),
    EndProcess(u32),
    EndThread(u32),
}

#[derive(Clone, Copy)]
pub enum Sending {
    // by, to, thread, signal
    Kill(u32, u32, u32, u32),
    // by, to, thread, signal, value
    Sigqueue(u32, u32, u32, u32, u64),
}

// Actions and masks.
#[derive(Clone, Copy)]
pub enum Setting {
    // process, signal, new action
    Sigaction(u32, u32, Option<Action>),
    // thread, way, set
    Sigmask(u32, u32, Option<SigSet>),
    // thread, saved mask
    Sigreturn(u32, SigSet),
}

// What changes no table.
#[derive(Clone, Copy)]
pub enum Asking {
    Sigpending(u32),
    Look(u32),
    // the process
    Who(u32),
}

#[derive(Clone, Copy)]
pub enum Call {
    Clear,
    Place(Placing),
    Send(Sending),
    Set(Setting),
    Ask(Asking),
    // the thread
    Take(u32),
}

// ---- a call of each family

fn place(ps: &mut [u64], ts: &mut [u64], tb: &mut [u8], pb: &mut [u8], c: Placing) -> Answer
    ensures { stepped (placing_of c) result (lent ps.old ts.old tb.old pb.old)
        (lent ps.new ts.new tb.new pb.new) }
{
    match c {
        Placing::AddProcess(new) => adding::add_process(ps, ts, tb, pb, new),
        Placing::AddThread(creator, id) => adding::add_thread(ps, ts, tb, pb, creator, id),
        Placing::EndProcess(id) => ending::end_process(ps, ts, tb, pb, id),
        Placing::EndThread(id) => ending::end_thread(ps, ts, tb, pb, id),
    }
}

fn send(ps: &mut [u64], ts: &mut [u64], tb: &mut [u8], pb: &mut [u8], c: Sending) -> Answer
    ensures { stepped (sending_of c) result (lent ps.old ts.old tb.old pb.old)
        (lent ps.new ts.new tb.new pb.new) }
{
    match c {
        Sending::Kill(by, to, thread, s) => sending::kill(ps, ts, tb, pb, by, to, thread, s),
        Sending::Sigqueue(by, to, thread, s, value) => {
            sending::sigqueue(ps, ts, tb, pb, by, to, thread, s, value)
        }
    }
}

fn set(ps: &mut [u64], ts: &mut [u64], tb: &mut [u8], pb: &mut [u8], c: Setting) -> Answer
    ensures { stepped (setting_of c) result (lent ps.old ts.old tb.old pb.old)
        (lent ps.new ts.new tb.new pb.new) }
{
    match c {
        Setting::Sigaction(process, s, new) => actions::sigaction(ps, ts, tb, pb, process, s, new),
        Setting::Sigmask(thread, way, set) => masks::sigmask(ps, ts, tb, pb, thread, way, set),
        Setting::Sigreturn(thread, saved) => masks::sigreturn(ps, ts, tb, pb, thread, saved),
    }
}

fn ask(ps: &[u64], ts: &[u64], tb: &[u8], pb: &[u8], c: Asking) -> Answer
    ensures { answer_of result ≡ (step_on (asking_of c) (lent ps.now ts.now tb.now pb.now)).1 }
{
    match c {
        Asking::Sigpending(thread) => masks::sigpending(ps, ts, tb, pb, thread),
        Asking::Look(thread) => looking::look(ps, ts, tb, pb, thread),
        Asking::Who(process) => looking::who(ps, ts, tb, pb, process),
    }
}

// One call on the lent tables. Any tables and any arguments are answered;
// a refused call leaves every table exactly as it was.
pub fn step(ps: &mut [u64], ts: &mut [u64], tb: &mut [u8], pb: &mut [u8], c: Call) -> Answer
    ensures { stepped (call_of c) result (lent ps.old ts.old tb.old pb.old)
        (lent ps.new ts.new tb.new pb.new) }
{
    match c {
        Call::Clear => clearing::clear(ps, ts, tb, pb),
        Call::Place(c) => place(ps, ts, tb, pb, c),
        Call::Send(c) => send(ps, ts, tb, pb, c),
        Call::Set(c) => set(ps, ts, tb, pb, c),
        Call::Ask(c) => ask(ps, ts, tb, pb, c),
        Call::Take(thread) => taking::take(ps, ts, tb, pb, thread),
    }
}
