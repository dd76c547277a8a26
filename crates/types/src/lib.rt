// The values that the tables hold and that calls carry and answer, by value.
#![tactic(auto)]

ghost use Rattle.std.specs.Prelude.{◌≡◌};

use limits::{EAGAIN, EEXIST, EFAULT, EINVAL, EPERM, ESRCH, SIG_DFL};
use sigset::SigSet;

// What a process does about a signal: a handler number (0 default, 1 ignore), flags, and a mask.
#[derive(Clone, Copy, PartialEq, Eq, Debug)]
pub struct Action {
    pub handler: u64,
    pub flags: u64,
    pub mask: SigSet,
}

impl Action {
    // The action of every signal of a freshly added process.
    pub const DEFAULT: Action = Action {
        handler: SIG_DFL,
        flags: 0,
        mask: SigSet::EMPTY,
    };
}

// A pending signal with a value: document 01's record.
#[derive(Clone, Copy, PartialEq, Eq, Debug)]
pub struct Siginfo {
    pub process: u32,
    // 0 in the process buffer
    pub thread: u32,
    pub signal: u32,
    pub code: u32,
    pub sender: u32,
    // the sender's real user id
    pub uid: u32,
    pub value: u64,
}

// A process to add: its ids, its first thread and that thread's mask.
#[derive(Clone, Copy, PartialEq, Eq, Debug)]
pub struct NewProcess {
    pub id: u32,
    // user ids
    pub real: u32,
    pub effective: u32,
    pub saved: u32,
    pub session: u32,
    pub thread: u32,
    pub mask: SigSet,
}

// ---- what the calls answer, in document 01's words

// A send's answer.
#[derive(Clone, Copy)]
pub enum Sent {
    Tested,
    Acted,
    Dropped,
    Absorbed,
    Marked,
    Kept,
}

// A pending signal, as a thread takes it.
#[derive(Clone, Copy)]
pub enum Pending {
    // a mark: the process and the thread of its queue, and the signal
    Mark(u32, u32, u32),
    Record(Siginfo),
}

// What a taken signal comes to.
#[derive(Clone, Copy)]
pub enum Taken {
    // handler number, signal, record, flags, saved mask
    Handler(u64, u32, Siginfo, u64, SigSet),
    // the signal whose default outcome it is
    End(u32),
    Stop(u32),
    NoAction(u32),
}

// What an accepted call replies; "done" where it has nothing to say.
#[derive(Clone, Copy)]
pub enum Reply {
    Done,
    Sent(Sent),
    OldAction(Action),
    OldMask(SigSet),
    PendingSet(SigSet),
    // what the thread takes next, or nothing
    Looked(Option<Pending>),
    // the thread that can take something, or none
    Taker(Option<u32>),
    // what was taken, or nothing
    Taken(Option<Taken>),
}

// Why a call is refused, under POSIX's names.
#[derive(Clone, Copy, PartialEq, Eq, Debug)]
pub enum Errno {
    EPERM,
    ESRCH,
    EAGAIN,
    EFAULT,
    EEXIST,
    EINVAL,
}

// The number that document 01 gives it.
impl From<Errno> for u32 {
    ghost use Rattle.types.specs.Answers.{number};

    ghost from_gives = { λ e n. n ≡ number e };

    fn from(e: Errno) -> u32 {
        match e {
            Errno::EPERM => EPERM,
            Errno::ESRCH => ESRCH,
            Errno::EAGAIN => EAGAIN,
            Errno::EFAULT => EFAULT,
            Errno::EEXIST => EEXIST,
            Errno::EINVAL => EINVAL,
        }
    }
}

// The answer of a call.
pub type Answer = Result<Reply, Errno>;
