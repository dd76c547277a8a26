// A worked history: a table of calls, the first of them clear, made one after the other through the boundary's entry.
// After each it writes the call, its answer, and what the tables then say, read from their words and bytes.
// host/ledger reads it.
#![tactic(auto)]

use limits::{
    ANSWER_ABSORBED, ANSWER_ACTED, ANSWER_CAN_TAKE, ANSWER_DONE, ANSWER_DROPPED, ANSWER_END,
    ANSWER_HANDLER, ANSWER_KEPT, ANSWER_MARKED, ANSWER_NEXT_MARK, ANSWER_NEXT_NOTHING,
    ANSWER_NEXT_RECORD, ANSWER_NONE_CAN, ANSWER_NOTHING, ANSWER_OLD_ACTION, ANSWER_OLD_MASK,
    ANSWER_PENDING_SET, ANSWER_STOP, ANSWER_TESTED, ANSWER_WORDS, CALL_ADD_PROCESS,
    CALL_ADD_THREAD, CALL_CLEAR, CALL_KILL, CALL_LOOK, CALL_SIGACTION, CALL_SIGMASK,
    CALL_SIGPENDING, CALL_SIGQUEUE, CALL_SIGRETURN, CALL_TAKE, CALL_WHO, SA_SIGINFO, SIG_IGN,
    SIG_UNBLOCK, SIGCONT, SIGKILL, SIGSTOP, SIGTSTP,
};
use printing::{Call, Code, Tables};
use std::{fmt, io};

// The operator's process and its thread.
const OPERATOR: u32 = 1;

const CONSOLE: u32 = 2;

// A user's process and its two threads.
const PROCESS: u32 = 100;

const MAIN: u32 = 200;

const WORKER: u32 = 201;

const USER: u32 = 1000;

const SESSION: u32 = 7;

const HANDLER: u64 = 5000;

const SIGINT: u32 = 2;

// Two realtime signals.
const BLOCKED: u32 = 40;

const OTHER: u32 = 41;

// The sets of one signal.
const ONLY_INT: u64 = 1 << (SIGINT - 1);

const ONLY_BLOCKED: u64 = 1 << (BLOCKED - 1);

// An action or a set is given.
const GIVEN: u32 = 1;

// ---- the history

// A call. The three user ids of a process are one, and an action and a set are always given.
// The fields have no names, so that a row of the history is a line.
#[derive(Clone, Copy)]
enum Row {
    Clear,
    // id, user, session, thread, mask
    AddProcess(u32, u32, u32, u32, u64),
    // creator, id
    AddThread(u32, u32),
    // by, to, thread, signal
    Kill(u32, u32, u32, u32),
    // by, to, thread, signal, value
    Queue(u32, u32, u32, u32, u64),
    // process, signal, handler, flags
    Action(u32, u32, u64, u64),
    // thread, way, set
    Mask(u32, u32, u64),
    // the thread, and so of a look and a take; of who the process
    Pending(u32),
    Look(u32),
    Who(u32),
    Take(u32),
    // thread, mask
    Return(u32, u64),
}

const HISTORY: [Row; 27] = [
    // Two processes, one of them with two threads that block other signals.
    Row::Clear,
    Row::AddProcess(OPERATOR, 0, OPERATOR, CONSOLE, 0),
    Row::AddProcess(PROCESS, USER, SESSION, MAIN, ONLY_INT | ONLY_BLOCKED),
    Row::AddThread(MAIN, WORKER),
    Row::Mask(WORKER, SIG_UNBLOCK, ONLY_BLOCKED),
    // A realtime signal is kept each time, a standard one is marked once; the user may not signal the operator.
    Row::Action(PROCESS, BLOCKED, HANDLER, SA_SIGINFO),
    Row::Queue(PROCESS, PROCESS, 0, BLOCKED, 1),
    Row::Queue(OPERATOR, PROCESS, 0, BLOCKED, 2),
    Row::Queue(PROCESS, PROCESS, 0, BLOCKED, 3),
    Row::Kill(PROCESS, PROCESS, 0, SIGINT),
    Row::Kill(OPERATOR, PROCESS, 0, SIGINT),
    Row::Kill(PROCESS, OPERATOR, 0, SIGINT),
    // CONT discards the stop signal, STOP discards CONT, and a stopped process takes nothing.
    Row::Queue(OPERATOR, PROCESS, WORKER, SIGTSTP, 4),
    Row::Kill(OPERATOR, PROCESS, 0, SIGCONT),
    Row::Kill(OPERATOR, PROCESS, 0, SIGSTOP),
    Row::Take(WORKER),
    Row::Kill(OPERATOR, PROCESS, 0, SIGCONT),
    // CONT goes to the thread in the lowest place; the worker takes the oldest record.
    Row::Who(PROCESS),
    Row::Take(MAIN),
    Row::Look(WORKER),
    Row::Take(WORKER),
    Row::Return(WORKER, ONLY_INT),
    // Storing ignore discards the records that are left;
    // KILL discards what a thread has pending, and a send finds nobody.
    Row::Action(PROCESS, BLOCKED, SIG_IGN, 0),
    Row::Queue(OPERATOR, PROCESS, WORKER, OTHER, 5),
    Row::Pending(MAIN),
    Row::Kill(OPERATOR, PROCESS, 0, SIGKILL),
    Row::Queue(OPERATOR, PROCESS, 0, OTHER, 6),
];

// The call in its documented form.
impl fmt::Display for Row {
    fn fmt<W: fmt::Write>(&self, f: &mut fmt::Formatter<W>) -> fmt::Result {
        match *self {
            Row::Clear => f.write_str("clear"),
            Row::AddProcess(id, user, session, thread, mask) => {
                write!(
                    f,
                    "add_process id={id} real={user} effective={user} saved={user} \
                    session={session} thread={thread} mask={mask}"
                )
            }
            Row::AddThread(creator, id) => write!(f, "add_thread creator={creator} id={id}"),
            Row::Kill(by, to, thread, signal) => {
                write!(f, "kill by={by} to={to} thread={thread} signal={signal}")
            }
            Row::Queue(by, to, thread, signal, value) => {
                write!(
                    f,
                    "queue by={by} to={to} thread={thread} signal={signal} value={value}"
                )
            }
            Row::Action(process, signal, handler, flags) => {
                write!(
                    f,
                    "action process={process} signal={signal} handler={handler} flags={flags} mask=0"
                )
            }
            Row::Mask(thread, way, set) => write!(f, "mask thread={thread} way={way} set={set}"),
            Row::Pending(thread) => write!(f, "pending thread={thread}"),
            Row::Look(thread) => write!(f, "look thread={thread}"),
            Row::Who(process) => write!(f, "who process={process}"),
            Row::Take(thread) => write!(f, "take thread={thread}"),
            Row::Return(thread, mask) => write!(f, "return thread={thread} mask={mask}"),
        }
    }
}

// ---- one call

fn call_of(row: Row) -> Call {
    match row {
        Row::Clear => Call::new(CALL_CLEAR, [0; 6], [0; 3]),
        Row::AddProcess(id, user, session, t, mask) => {
            Call::new(
                CALL_ADD_PROCESS,
                [id, user, user, user, session, t],
                [mask, 0, 0],
            )
        }
        Row::AddThread(creator, id) => Call::new(
            CALL_ADD_THREAD,
            [creator, id, 0, 0, 0, 0],
            [0; 3],
        ),
        Row::Kill(by, to, t, s) => Call::new(CALL_KILL, [by, to, t, s, 0, 0], [0; 3]),
        Row::Queue(by, to, t, s, value) => {
            Call::new(CALL_SIGQUEUE, [by, to, t, s, 0, 0], [value, 0, 0])
        }
        Row::Action(p, s, handler, flags) => {
            Call::new(CALL_SIGACTION, [p, s, GIVEN, 0, 0, 0], [handler, flags, 0])
        }
        Row::Mask(t, way, set) => Call::new(CALL_SIGMASK, [t, way, GIVEN, 0, 0, 0], [set, 0, 0]),
        Row::Pending(t) => Call::new(CALL_SIGPENDING, [t, 0, 0, 0, 0, 0], [0; 3]),
        Row::Look(t) => Call::new(CALL_LOOK, [t, 0, 0, 0, 0, 0], [0; 3]),
        Row::Who(p) => Call::new(CALL_WHO, [p, 0, 0, 0, 0, 0], [0; 3]),
        Row::Take(t) => Call::new(CALL_TAKE, [t, 0, 0, 0, 0, 0], [0; 3]),
        Row::Return(t, mask) => Call::new(CALL_SIGRETURN, [t, 0, 0, 0, 0, 0], [mask, 0, 0]),
    }
}

// ---- its answer

// The words of a record.
#[derive(Clone, Copy)]
struct Record([u64; 7]);

impl fmt::Display for Record {
    fn fmt<W: fmt::Write>(&self, f: &mut fmt::Formatter<W>) -> fmt::Result {
        let [process, thread, signal, code, sender, uid, value] = self.0;
        let code = Code(code);
        write!(
            f,
            "({process} {thread} {signal} {code} {sender} {uid} {value})"
        )
    }
}

// The words of an answer, in docs/CALLS.md's words.
#[derive(Clone, Copy)]
struct Answer([u64; ANSWER_WORDS]);

impl fmt::Display for Answer {
    fn fmt<W: fmt::Write>(&self, f: &mut fmt::Formatter<W>) -> fmt::Result {
        let [kind, a, b, c, d, p, t, s, code, sender, uid, value] = self.0;
        match kind {
            ANSWER_DONE => f.write_str("done"),
            ANSWER_TESTED => f.write_str("tested"),
            ANSWER_ACTED => f.write_str("acted"),
            ANSWER_DROPPED => f.write_str("dropped"),
            ANSWER_ABSORBED => f.write_str("absorbed"),
            ANSWER_MARKED => f.write_str("marked"),
            ANSWER_KEPT => f.write_str("kept"),
            ANSWER_OLD_ACTION => write!(f, "old action handler={a} flags={b} mask={c}"),
            ANSWER_OLD_MASK => write!(f, "old mask {a}"),
            ANSWER_PENDING_SET => write!(f, "pending set {a}"),
            ANSWER_NEXT_NOTHING => f.write_str("looked nothing"),
            ANSWER_NEXT_MARK => write!(f, "looked mark of {c} in queue {a} {b}"),
            ANSWER_NEXT_RECORD => write!(f, "looked record {}", Record([a, b, c, d, p, t, s])),
            ANSWER_CAN_TAKE => write!(f, "can take {a}"),
            ANSWER_NONE_CAN => f.write_str("none can"),
            ANSWER_NOTHING => f.write_str("nothing"),
            ANSWER_HANDLER => {
                let r = Record([p, t, s, code, sender, uid, value]);
                write!(f, "handler {a} signal {b} record {r} flags {c} saved {d}")
            }
            ANSWER_END => write!(f, "end {a}"),
            ANSWER_STOP => write!(f, "stop {a}"),
            _ => write!(f, "no action {a}"),
        }
    }
}

// Makes a call and writes it, its answer and the tables after it.
fn run(rt: &impl Print, t: &mut Tables, row: Row) -> io::Result<()> {
    println!(rt; "call {row}")?;
    match t.serve(call_of(row)) {
        Ok(words) => println!(rt; "answer {}", Answer(words))?,
        Err(errno) => println!(rt; "answer refused {}", u32::from(errno))?,
    }
    t.print(rt)
}

fn main(rt: HostRuntime) -> io::Result<()> {
    let mut t = Tables::ZERO;
    for row in &HISTORY {
        run(&rt, &mut t, *row)?;
    }
    Ok(())
}
