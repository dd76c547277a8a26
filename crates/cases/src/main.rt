// Document 01's "Numbers to run against": a table of calls,
// made one after the other through the boundary's entry, and a line for each number with what was answered.
// Signals that are taken have a flagless handler unless the case says otherwise, and a return follows each take.
#![tactic(auto)]

use limits::{
    ANSWER_ABSORBED, ANSWER_ACTED, ANSWER_CAN_TAKE, ANSWER_DONE, ANSWER_DROPPED, ANSWER_END,
    ANSWER_HANDLER, ANSWER_KEPT, ANSWER_MARKED, ANSWER_NONE_CAN, ANSWER_NOTHING, ANSWER_OLD_ACTION,
    ANSWER_OLD_MASK, ANSWER_PENDING_SET, ANSWER_STOP, ANSWER_TESTED, ANSWER_WORDS,
    CALL_ADD_PROCESS, CALL_CLEAR, CALL_KILL, CALL_SIGACTION, CALL_SIGMASK, CALL_SIGPENDING,
    CALL_SIGQUEUE, CALL_SIGRETURN, CALL_TAKE, CALL_WHO, SA_NODEFER, SIG_BLOCK, SIG_SETMASK,
    SIG_UNBLOCK, SIGCHLD, SIGCONT, SIGKILL, SIGTSTP,
};
use printing::{Call, Tables};
use std::{fmt, io};
use types::Errno;

// The one process, its thread, user and session.
const PID: u32 = 100;

const TID: u32 = 200;

const UID: u32 = 1000;

const SID: u32 = 1;

const HANDLER: u64 = 5000;

const SIGINT: u32 = 2;

const SIGUSR1: u32 = 10;

// Sets: of 40 alone, and of every signal.
const ONLY_40: u64 = 1 << (40 - 1);

const ALL_ONES: u64 = u64::MAX;

// An action or a set is given.
const GIVEN: u32 = 1;

// ---- the table

// A call of the one process and its thread. A send to thread 0 is to the process.
// The fields have no names, so that a row of the table is a line.
#[derive(Clone, Copy)]
enum Ask {
    Clear,
    // mask
    Process(u64),
    // signal, flags, mask
    Handler(u32, u64, u64),
    // way, the set that is given
    Mask(u32, Option<u64>),
    // thread, signal
    Kill(u32, u32),
    // thread, signal, value
    Queue(u32, u32, u64),
    Take,
    // to the mask that the last take saved
    Return,
    Pending,
    Who,
    // signal
    Enquire(u32),
}

#[derive(Clone, Copy)]
enum Row {
    // a text: a line begins, or goes on
    Line(&'static str),
    // a call whose answer is written only where it is a refusal
    Quiet(Ask),
    // a call whose answer is written
    Told(Ask),
    // a signal and how often it is queued, with values from 1 on
    Fill(u32, u64),
}

const ROWS: [Row; 139] = [
    // 1. Mask 0, way 0, all ones: mask 18446744073709289215, old 0.
    Row::Line("1. mask 0, way 0, all ones:"),
    Row::Quiet(Ask::Clear),
    Row::Quiet(Ask::Process(0)),
    Row::Told(Ask::Mask(SIG_BLOCK, Some(ALL_ONES))),
    Row::Told(Ask::Mask(SIG_BLOCK, None)),
    // 2. Mask 6, way 1, set 2: mask 4.
    Row::Line("\n2. mask 6, way 1, set 2:"),
    Row::Quiet(Ask::Clear),
    Row::Quiet(Ask::Process(6)),
    Row::Told(Ask::Mask(SIG_UNBLOCK, Some(2))),
    Row::Told(Ask::Mask(SIG_BLOCK, None)),
    // 3. Mask 6, way 7, no set: 6, accepted. With a set: 22.
    Row::Line("\n3. mask 6, way 7, no set:"),
    Row::Quiet(Ask::Clear),
    Row::Quiet(Ask::Process(6)),
    Row::Told(Ask::Mask(7, None)),
    Row::Line("\n3. mask 6, way 7, a set:"),
    Row::Told(Ask::Mask(7, Some(2))),
    // 4. Signal 10 with action mask 2048 from mask 0: mask 2560.
    Row::Line("\n4. signal 10, action mask 2048:"),
    Row::Quiet(Ask::Clear),
    Row::Quiet(Ask::Process(0)),
    Row::Quiet(Ask::Handler(SIGUSR1, 0, 2048)),
    Row::Quiet(Ask::Kill(0, SIGUSR1)),
    Row::Quiet(Ask::Take),
    Row::Told(Ask::Mask(SIG_BLOCK, None)),
    Row::Quiet(Ask::Return),
    // With NODEFER: 2048.
    Row::Line("\n4. with NODEFER:"),
    Row::Quiet(Ask::Clear),
    Row::Quiet(Ask::Process(0)),
    Row::Quiet(Ask::Handler(SIGUSR1, SA_NODEFER, 2048)),
    Row::Quiet(Ask::Kill(0, SIGUSR1)),
    Row::Quiet(Ask::Take),
    Row::Told(Ask::Mask(SIG_BLOCK, None)),
    Row::Quiet(Ask::Return),
    // Action mask all ones: 18446744073709289215.
    Row::Line("\n4. action mask all ones:"),
    Row::Quiet(Ask::Clear),
    Row::Quiet(Ask::Process(0)),
    Row::Quiet(Ask::Handler(SIGUSR1, 0, ALL_ONES)),
    Row::Quiet(Ask::Kill(0, SIGUSR1)),
    Row::Quiet(Ask::Take),
    Row::Told(Ask::Mask(SIG_BLOCK, None)),
    Row::Quiet(Ask::Return),
    // 5. 40 queued with 1, 2, 3, blocked, then unblocked: taken 1, 2, 3.
    Row::Line("\n5. 40 queued with 1, 2, 3, blocked:"),
    Row::Quiet(Ask::Clear),
    Row::Quiet(Ask::Process(ONLY_40)),
    Row::Quiet(Ask::Handler(40, 0, 0)),
    Row::Told(Ask::Queue(0, 40, 1)),
    Row::Told(Ask::Queue(0, 40, 2)),
    Row::Told(Ask::Queue(0, 40, 3)),
    Row::Told(Ask::Take),
    Row::Line("; unblocked:"),
    Row::Quiet(Ask::Mask(SIG_SETMASK, Some(0))),
    Row::Told(Ask::Take),
    Row::Quiet(Ask::Return),
    Row::Told(Ask::Take),
    Row::Quiet(Ask::Return),
    Row::Told(Ask::Take),
    Row::Quiet(Ask::Return),
    Row::Told(Ask::Take),
    // 6. 35 then 34 queued: 34 first.
    Row::Line("\n6. 35 then 34 queued:"),
    Row::Quiet(Ask::Clear),
    Row::Quiet(Ask::Process(0)),
    Row::Quiet(Ask::Handler(34, 0, 0)),
    Row::Quiet(Ask::Handler(35, 0, 0)),
    Row::Told(Ask::Queue(0, 35, 1)),
    Row::Told(Ask::Queue(0, 34, 2)),
    Row::Told(Ask::Take),
    Row::Quiet(Ask::Return),
    Row::Told(Ask::Take),
    Row::Quiet(Ask::Return),
    // 34 to the process, 35 to the thread: 34 first.
    Row::Line("\n6. 34 to the process, 35 to the thread:"),
    Row::Quiet(Ask::Clear),
    Row::Quiet(Ask::Process(0)),
    Row::Quiet(Ask::Handler(34, 0, 0)),
    Row::Quiet(Ask::Handler(35, 0, 0)),
    Row::Told(Ask::Queue(0, 34, 1)),
    Row::Told(Ask::Queue(TID, 35, 2)),
    Row::Told(Ask::Take),
    Row::Quiet(Ask::Return),
    Row::Told(Ask::Take),
    Row::Quiet(Ask::Return),
    // 34 to both: the thread's first.
    Row::Line("\n6. 34 to both:"),
    Row::Quiet(Ask::Clear),
    Row::Quiet(Ask::Process(0)),
    Row::Quiet(Ask::Handler(34, 0, 0)),
    Row::Told(Ask::Queue(0, 34, 1)),
    Row::Told(Ask::Queue(TID, 34, 2)),
    Row::Told(Ask::Take),
    Row::Quiet(Ask::Return),
    Row::Told(Ask::Take),
    Row::Quiet(Ask::Return),
    // 7. INT sent twice while blocked: marked, absorbed, taken once.
    Row::Line("\n7. INT sent twice while blocked:"),
    Row::Quiet(Ask::Clear),
    Row::Quiet(Ask::Process(2)),
    Row::Quiet(Ask::Handler(SIGINT, 0, 0)),
    Row::Told(Ask::Kill(0, SIGINT)),
    Row::Told(Ask::Kill(0, SIGINT)),
    Row::Quiet(Ask::Mask(SIG_SETMASK, Some(0))),
    Row::Told(Ask::Take),
    Row::Quiet(Ask::Return),
    Row::Told(Ask::Take),
    // 8. The 32nd record is kept, the 33rd answers 11; after one is taken the next is kept.
    Row::Line("\n8. the 32nd record, the 33rd, a take, one more:"),
    Row::Quiet(Ask::Clear),
    Row::Quiet(Ask::Process(0)),
    Row::Quiet(Ask::Handler(34, 0, 0)),
    Row::Fill(34, 31),
    Row::Told(Ask::Queue(0, 34, 32)),
    Row::Told(Ask::Queue(TID, 34, 33)),
    Row::Told(Ask::Take),
    Row::Quiet(Ask::Return),
    Row::Told(Ask::Queue(TID, 34, 33)),
    // With 32 pending, KILL acts, by either send.
    Row::Line("\n8. KILL with 32 pending, by kill:"),
    Row::Told(Ask::Kill(0, SIGKILL)),
    Row::Told(Ask::Who),
    Row::Line("\n8. by queue:"),
    Row::Quiet(Ask::Clear),
    Row::Quiet(Ask::Process(0)),
    Row::Fill(34, 32),
    Row::Told(Ask::Queue(0, SIGKILL, 7)),
    Row::Told(Ask::Who),
    // 9. TSTP pending, CONT sent: TSTP gone,
    Row::Line("\n9. TSTP pending, CONT sent:"),
    Row::Quiet(Ask::Clear),
    Row::Quiet(Ask::Process(ALL_ONES)),
    Row::Told(Ask::Kill(0, SIGTSTP)),
    Row::Told(Ask::Kill(TID, SIGCONT)),
    Row::Told(Ask::Pending),
    // and the other way round.
    Row::Line("\n9. CONT pending, TSTP sent:"),
    Row::Quiet(Ask::Clear),
    Row::Quiet(Ask::Process(ALL_ONES)),
    Row::Told(Ask::Kill(0, SIGCONT)),
    Row::Told(Ask::Kill(TID, SIGTSTP)),
    Row::Told(Ask::Pending),
    // 10. CHLD at default: dropped.
    Row::Line("\n10. CHLD at default:"),
    Row::Quiet(Ask::Clear),
    Row::Quiet(Ask::Process(0)),
    Row::Told(Ask::Kill(0, SIGCHLD)),
    // KILL enquired: default; with a new action: 22.
    Row::Line("\n10. KILL enquired after:"),
    Row::Told(Ask::Enquire(SIGKILL)),
    Row::Line("\n10. KILL with a new action:"),
    Row::Quiet(Ask::Handler(SIGKILL, 0, 0)),
    Row::Line("\n"),
];

// ---- a call

fn call_of(ask: Ask, saved: u64) -> Call {
    match ask {
        Ask::Clear => Call::new(CALL_CLEAR, [0; 6], [0; 3]),
        Ask::Process(mask) => Call::new(
            CALL_ADD_PROCESS,
            [PID, UID, UID, UID, SID, TID],
            [mask, 0, 0],
        ),
        Ask::Handler(signal, flags, mask) => {
            Call::new(
                CALL_SIGACTION,
                [PID, signal, GIVEN, 0, 0, 0],
                [HANDLER, flags, mask],
            )
        }
        Ask::Mask(way, Some(set)) => Call::new(
            CALL_SIGMASK,
            [TID, way, GIVEN, 0, 0, 0],
            [set, 0, 0],
        ),
        Ask::Mask(way, None) => Call::new(CALL_SIGMASK, [TID, way, 0, 0, 0, 0], [0; 3]),
        Ask::Kill(thread, signal) => Call::new(CALL_KILL, [PID, PID, thread, signal, 0, 0], [0; 3]),
        Ask::Queue(thread, signal, value) => {
            Call::new(
                CALL_SIGQUEUE,
                [PID, PID, thread, signal, 0, 0],
                [value, 0, 0],
            )
        }
        Ask::Take => Call::new(CALL_TAKE, [TID, 0, 0, 0, 0, 0], [0; 3]),
        Ask::Return => Call::new(CALL_SIGRETURN, [TID, 0, 0, 0, 0, 0], [saved, 0, 0]),
        Ask::Pending => Call::new(CALL_SIGPENDING, [TID, 0, 0, 0, 0, 0], [0; 3]),
        Ask::Who => Call::new(CALL_WHO, [PID, 0, 0, 0, 0, 0], [0; 3]),
        Ask::Enquire(signal) => Call::new(CALL_SIGACTION, [PID, signal, 0, 0, 0, 0], [0; 3]),
    }
}

// The words of an answer. No row looks.
#[derive(Clone, Copy)]
struct Answer([u64; ANSWER_WORDS]);

impl fmt::Display for Answer {
    fn fmt<W: fmt::Write>(&self, f: &mut fmt::Formatter<W>) -> fmt::Result {
        let [kind, a, b, c, _, _, thread, signal, _, _, _, value] = self.0;
        match kind {
            ANSWER_DONE => f.write_str("done"),
            ANSWER_TESTED => f.write_str("tested"),
            ANSWER_ACTED => f.write_str("acted"),
            ANSWER_DROPPED => f.write_str("dropped"),
            ANSWER_ABSORBED => f.write_str("absorbed"),
            ANSWER_MARKED => f.write_str("marked"),
            ANSWER_KEPT => f.write_str("kept"),
            ANSWER_OLD_ACTION => write!(f, "handler {a} flags {b} mask {c}"),
            ANSWER_OLD_MASK => write!(f, "mask {a}"),
            ANSWER_PENDING_SET => write!(f, "pending {a}"),
            ANSWER_CAN_TAKE => write!(f, "thread {a}"),
            ANSWER_NONE_CAN => f.write_str("none can"),
            ANSWER_NOTHING => f.write_str("nothing"),
            ANSWER_HANDLER => write!(f, "took {signal} of thread {thread} with {value}"),
            ANSWER_END => write!(f, "end {a}"),
            ANSWER_STOP => write!(f, "stop {a}"),
            _ => write!(f, "no action {a}"),
        }
    }
}

// A host: the tables that it lends, and the mask that the last take saved.
#[derive(Clone, Copy)]
struct Host {
    tables: Tables,
    saved: u64,
}

impl Host {
    // The answer's words, or the errno.
    fn make(&mut self, ask: Ask) -> Result<Answer, Errno> {
        let out = self.tables.serve(call_of(ask, self.saved))?;
        if out[0] == ANSWER_HANDLER {
            self.saved = out[4];
        }
        Ok(Answer(out))
    }

    fn ask(&mut self, rt: &impl Print, ask: Ask, is_told: bool) -> io::Result<()> {
        match self.make(ask) {
            Ok(answer) if is_told => print!(rt; " {answer}"),
            Ok(_) => Ok(()),
            Err(errno) => print!(rt; " refused {}", u32::from(errno)),
        }
    }

    fn fill(&mut self, rt: &impl Print, signal: u32, n: u64) -> io::Result<()> {
        for value in 1..=n {
            self.ask(rt, Ask::Queue(0, signal, value), false)?;
        }
        Ok(())
    }

    fn run(&mut self, rt: &impl Print, row: Row) -> io::Result<()> {
        match row {
            Row::Line(text) => print!(rt; "{text}"),
            Row::Quiet(ask) => self.ask(rt, ask, false),
            Row::Told(ask) => self.ask(rt, ask, true),
            Row::Fill(signal, n) => self.fill(rt, signal, n),
        }
    }
}

fn main(rt: HostRuntime) -> io::Result<()> {
    let mut host = Host {
        tables: Tables::ZERO,
        saved: 0,
    };
    for row in &ROWS {
        host.run(&rt, *row)?;
    }
    Ok(())
}
