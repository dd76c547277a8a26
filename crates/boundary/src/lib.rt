// The C boundary over the word tables: a call by its number, with its arguments as numbers, and its answer as words.
#![tactic(auto)]

ghost use Rattle.std.specs.Prelude.{◌≡◌, true, cond, [], ◌∷◌, ◌++◌, ◌≤◌, length, drop};
ghost use Rattle.limits.specs.Limits.{EFAULT, EINVAL, answer_words};
ghost use Rattle.lists.specs.Lists.{padded};
ghost use Rattle.sigset.specs.Set.{bits};
ghost use Rattle.types.specs.Values.{new_of};
ghost use Rattle.types.specs.Answers.{given, number, refused_by};
ghost use Rattle.sound.specs.Lent.{lent};
ghost use Rattle.calls.specs.Calls.{call_of};
ghost use Rattle.boundary.specs.Boundary.{where_given, is_call, numbered, accepted, usable, sent_word};
ghost use Rattle.boundary.specs.Boundary.{next_words, taker_words, taken_words, reply_words, served};

use calls::{Asking, Call, Placing, Sending, Setting};
use limits::{
    ANSWER_ABSORBED, ANSWER_ACTED, ANSWER_CAN_TAKE, ANSWER_DONE, ANSWER_DROPPED, ANSWER_END,
    ANSWER_HANDLER, ANSWER_KEPT, ANSWER_MARKED, ANSWER_NEXT_MARK, ANSWER_NEXT_NOTHING,
    ANSWER_NEXT_RECORD, ANSWER_NO_ACTION, ANSWER_NONE_CAN, ANSWER_NOTHING, ANSWER_OLD_ACTION,
    ANSWER_OLD_MASK, ANSWER_PENDING_SET, ANSWER_STOP, ANSWER_TESTED, ANSWER_WORDS,
    CALL_ADD_PROCESS, CALL_ADD_THREAD, CALL_CLEAR, CALL_END_PROCESS, CALL_END_THREAD, CALL_KILL,
    CALL_LOOK, CALL_SIGACTION, CALL_SIGMASK, CALL_SIGPENDING, CALL_SIGQUEUE, CALL_SIGRETURN,
    CALL_TAKE, CALL_WHO,
};
use sigset::SigSet;
use types::{Action, Errno, NewProcess, Pending, Reply, Sent, Siginfo, Taken};

// ---- the call

// The arguments of any call: six numbers of 32 bits and three of 64.
#[derive(Clone, Copy)]
pub struct Arguments {
    pub a: u32,
    pub b: u32,
    pub c: u32,
    pub d: u32,
    pub e: u32,
    pub f: u32,
    pub x: u64,
    pub y: u64,
    pub z: u64,
}

// An action or a set is given where the number before it is not 0.
fn where_given<T: Copy>(n: u32, value: T) -> Option<T>
    ensures { given result ≡ where_given n value }
{
    if n == 0 {
        return None;
    }
    Some(value)
}

fn new_process(g: Arguments) -> NewProcess
    ensures { result ≡ new_of g.a g.b g.c g.d g.e g.f (bits g.x) }
{
    NewProcess {
        id: g.a,
        real: g.b,
        effective: g.c,
        saved: g.d,
        session: g.e,
        thread: g.f,
        mask: SigSet(g.x),
    }
}

fn action(g: Arguments) -> Action
    ensures { result ≡ (record { handler = g.x; flags = g.y; mask = bits g.z }) }
{
    Action {
        handler: g.x,
        flags: g.y,
        mask: SigSet(g.z),
    }
}

// The call of a number, with its arguments in the documented order. The numbers are the C interface's.
fn call_of(number: u32, g: Arguments) -> Call
    requires { is_call number ≡ true }
    ensures { call_of result ≡ numbered number g }
{
    match number {
        CALL_CLEAR => Call::Clear,
        CALL_ADD_PROCESS => Call::Place(Placing::AddProcess(new_process(g))),
        CALL_ADD_THREAD => Call::Place(Placing::AddThread(g.a, g.b)),
        CALL_END_PROCESS => Call::Place(Placing::EndProcess(g.a)),
        CALL_END_THREAD => Call::Place(Placing::EndThread(g.a)),
        CALL_KILL => Call::Send(Sending::Kill(g.a, g.b, g.c, g.d)),
        CALL_SIGQUEUE => Call::Send(Sending::Sigqueue(g.a, g.b, g.c, g.d, g.x)),
        CALL_SIGACTION => Call::Set(Setting::Sigaction(g.a, g.b, where_given(g.c, action(g)))),
        CALL_SIGMASK => Call::Set(Setting::Sigmask(g.a, g.b, where_given(g.c, SigSet(g.x)))),
        CALL_SIGPENDING => Call::Ask(Asking::Sigpending(g.a)),
        CALL_LOOK => Call::Ask(Asking::Look(g.a)),
        CALL_WHO => Call::Ask(Asking::Who(g.a)),
        CALL_TAKE => Call::Take(g.a),
        _ => Call::Set(Setting::Sigreturn(g.a, SigSet(g.x))),
    }
}

// ---- the answer

// A first word, and up to three more.
fn short(number: u64, a: u64, b: u64, c: u64) -> [u64; ANSWER_WORDS]
    ensures { result ≡ padded 0 answer_words (number ∷ a ∷ b ∷ c ∷ []) }
{
    [number, a, b, c, 0, 0, 0, 0, 0, 0, 0, 0]
}

// What a send answers.
fn sent_word(sent: Sent) -> u64
    ensures { result ≡ sent_word sent }
{
    match sent {
        Sent::Tested => ANSWER_TESTED,
        Sent::Acted => ANSWER_ACTED,
        Sent::Dropped => ANSWER_DROPPED,
        Sent::Absorbed => ANSWER_ABSORBED,
        Sent::Marked => ANSWER_MARKED,
        Sent::Kept => ANSWER_KEPT,
    }
}

// What a look found.
fn next_words(next: Option<Pending>) -> [u64; ANSWER_WORDS]
    ensures { result ≡ padded 0 answer_words (next_words next) }
{
    let Some(found) = next else {
        return short(ANSWER_NEXT_NOTHING, 0, 0, 0);
    };
    match found {
        Pending::Mark(process, thread, signal) => {
            short(
                ANSWER_NEXT_MARK,
                process as u64,
                thread as u64,
                signal as u64,
            )
        }
        Pending::Record(r) => [
            ANSWER_NEXT_RECORD,
            r.process as u64,
            r.thread as u64,
            r.signal as u64,
            r.code as u64,
            r.sender as u64,
            r.uid as u64,
            r.value,
            0,
            0,
            0,
            0,
        ],
    }
}

// Who can take.
fn taker_words(taker: Option<u32>) -> [u64; ANSWER_WORDS]
    ensures { result ≡ padded 0 answer_words (taker_words taker) }
{
    match taker {
        Some(thread) => short(ANSWER_CAN_TAKE, thread as u64, 0, 0),
        None => short(ANSWER_NONE_CAN, 0, 0, 0),
    }
}

// A handler to run.
fn handler_words(
    handler: u64,
    signal: u32,
    r: Siginfo,
    flags: u64,
    saved: SigSet,
) -> [u64; ANSWER_WORDS]
    ensures { result ≡ padded 0 answer_words (taken_words (Some (Taken.Handler handler signal r flags saved))) }
{
    [
        ANSWER_HANDLER,
        handler,
        signal as u64,
        flags,
        saved.0,
        r.process as u64,
        r.thread as u64,
        r.signal as u64,
        r.code as u64,
        r.sender as u64,
        r.uid as u64,
        r.value,
    ]
}

// What a take answers.
fn taken_words(taken: Option<Taken>) -> [u64; ANSWER_WORDS]
    ensures { result ≡ padded 0 answer_words (taken_words taken) }
{
    let Some(outcome) = taken else {
        return short(ANSWER_NOTHING, 0, 0, 0);
    };
    match outcome {
        Taken::Handler(handler, signal, r, flags, saved) => {
            handler_words(handler, signal, r, flags, saved)
        }
        Taken::End(signal) => short(ANSWER_END, signal as u64, 0, 0),
        Taken::Stop(signal) => short(ANSWER_STOP, signal as u64, 0, 0),
        Taken::NoAction(signal) => short(ANSWER_NO_ACTION, signal as u64, 0, 0),
    }
}

// The words of an answer, with zeros behind.
fn reply_words(reply: Reply) -> [u64; ANSWER_WORDS]
    ensures { result ≡ padded 0 answer_words (reply_words reply) }
{
    match reply {
        Reply::Done => short(ANSWER_DONE, 0, 0, 0),
        Reply::Sent(sent) => short(sent_word(sent), 0, 0, 0),
        Reply::OldAction(a) => short(ANSWER_OLD_ACTION, a.handler, a.flags, a.mask.0),
        Reply::OldMask(m) => short(ANSWER_OLD_MASK, m.0, 0, 0),
        Reply::PendingSet(m) => short(ANSWER_PENDING_SET, m.0, 0, 0),
        Reply::Looked(next) => next_words(next),
        Reply::Taker(taker) => taker_words(taker),
        Reply::Taken(taken) => taken_words(taken),
    }
}

fn write(out: &mut [u64], words: [u64; ANSWER_WORDS])
    requires { answer_words ≤ length out.old }
    ensures { out.new ≡ words ++ drop answer_words out.old }
{
    out[..ANSWER_WORDS].copy_from_slice(&words);
}

// ---- one call

// Is there such a call, and room for any answer?
fn is_accepted(number: u32, room: usize) -> bool
    ensures { result ≡ accepted number room }
{
    let is_call = !(number < CALL_CLEAR) & !(CALL_SIGRETURN < number);
    is_call & !(room < ANSWER_WORDS)
}

// Does errno 14 not apply? Clearing checks lengths only.
fn is_usable(ps: &[u64], ts: &[u64], tb: &[u8], pb: &[u8], number: u32) -> bool
    ensures { result ≡ usable number (lent ps.now ts.now tb.now pb.now) }
{
    if number == CALL_CLEAR {
        return clearing::lengths_are(ps, ts, tb, pb);
    }
    sound::sound(ps, ts, tb, pb)
}

// Why a call is refused that is not accepted: 14 comes first.
fn refusal(ps: &[u64], ts: &[u64], tb: &[u8], pb: &[u8], n: u32) -> Errno
    ensures { number result ≡ cond (usable n (lent ps.now ts.now tb.now pb.now)) EINVAL EFAULT }
{
    if is_usable(ps, ts, tb, pb, n) {
        return Errno::EINVAL;
    }
    Errno::EFAULT
}

// One call by its number, with the answer's words in `out`; where it is refused nothing is written.
pub fn serve(
    ps: &mut [u64],
    ts: &mut [u64],
    tb: &mut [u8],
    pb: &mut [u8],
    out: &mut [u64],
    number: u32,
    g: Arguments,
) -> Result<(), Errno>
    ensures { record { tables = lent ps.new ts.new tb.new pb.new; words = out.new; errno = refused_by result }
        ≡ served number g out.old (lent ps.old ts.old tb.old pb.old) }
{
    if !is_accepted(number, out.len()) {
        return Err(refusal(ps, ts, tb, pb, number));
    }
    let reply = calls::step(ps, ts, tb, pb, call_of(number, g))?;
    write(out, reply_words(reply));
    Ok(())
}
