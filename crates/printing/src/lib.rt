// What the programs share: a call, the tables that they lend, and what they write of them.
// A contract cannot speak of output; each program's file `stdout` does. A failed write is the caller's error.
#![tactic(auto)]

ghost use Rattle.std.specs.Prelude.{◌≡◌, ◌≤◌, ◌<◌, MatchResult};
ghost use Rattle.limits.specs.Limits.{process_places, thread_places, buffer_records, signals};
ghost use Rattle.types.specs.Answers.{number};
ghost use Rattle.sound.specs.Lent.{lent};
ghost use Rattle.printing.specs.Serving.{served_on};

use boundary::Arguments;
use limits::{
    ACTION_FLAGS, ACTION_HANDLER, ACTION_MASK, ACTION_WORDS, ANSWER_WORDS, BUFFER_BYTES,
    BUFFER_RECORDS, HEAD_WORDS, PROCESS_EFFECTIVE, PROCESS_ID, PROCESS_MARKS, PROCESS_PLACES,
    PROCESS_REAL, PROCESS_SAVED, PROCESS_SESSION, PROCESS_STOPPED, PROCESS_TABLE, PROCESS_WORDS,
    SI_QUEUE, SIGNALS, THREAD_ID, THREAD_MARKS, THREAD_MASK, THREAD_PLACES, THREAD_PROCESS,
    THREAD_TABLE, THREAD_WORDS,
};
use sigset::SigSet;
use std::{fmt, io};
use types::{Action, Errno};

// ---- a word

// A record's code: a queued one's is below zero.
#[derive(Clone, Copy)]
pub struct Code(pub u64);

impl fmt::Display for Code {
    fn fmt<W: fmt::Write>(&self, f: &mut fmt::Formatter<W>) -> fmt::Result {
        let n = self.0;
        if n == SI_QUEUE as u64 {
            f.write_str("-1")
        } else {
            write!(f, "{n}")
        }
    }
}

// The members of a set, a space before each.
#[derive(Clone, Copy)]
struct Members(SigSet);

impl fmt::Display for Members {
    fn fmt<W: fmt::Write>(&self, f: &mut fmt::Formatter<W>) -> fmt::Result {
        for s in 1..=SIGNALS {
            if self.0.has(s) {
                write!(f, " {s}")?;
            }
        }
        Ok(())
    }
}

// ---- the tables

// A signal's action, where it is not the default action.
fn action(rt: &impl Print, ps: &[u64; PROCESS_TABLE], place: usize, signal: u32) -> io::Result<()>
    requires { (place < process_places) × ((1 ≤ signal) × (signal ≤ signals)) }
{
    let process = place * PROCESS_WORDS;
    let at = process + HEAD_WORDS + (signal as usize - 1) * ACTION_WORDS;
    let a = Action {
        handler: ps[at + ACTION_HANDLER],
        flags: ps[at + ACTION_FLAGS],
        mask: SigSet(ps[at + ACTION_MASK]),
    };
    if a == Action::DEFAULT {
        return Ok(());
    }
    println!(rt;
        "action process={} signal={signal} handler={} flags={} mask={:#x}",
        ps[process + PROCESS_ID],
        a.handler,
        a.flags,
        a.mask.0
    )
}

fn actions(rt: &impl Print, ps: &[u64; PROCESS_TABLE], place: usize) -> io::Result<()>
    requires { place < process_places }
{
    for s in 1..=SIGNALS {
        action(rt, ps, place, s)?;
    }
    Ok(())
}

// A live process; nothing of a free place.
fn process(rt: &impl Print, ps: &[u64; PROCESS_TABLE], place: usize) -> io::Result<()>
    requires { place < process_places }
{
    let at = place * PROCESS_WORDS;
    if ps[at + PROCESS_ID] == 0 {
        return Ok(());
    }
    println!(rt;
        "process id={} real={} effective={} saved={} session={} stopped={} marks{}",
        ps[at + PROCESS_ID],
        ps[at + PROCESS_REAL],
        ps[at + PROCESS_EFFECTIVE],
        ps[at + PROCESS_SAVED],
        ps[at + PROCESS_SESSION],
        ps[at + PROCESS_STOPPED],
        Members(SigSet(ps[at + PROCESS_MARKS]))
    )?;
    actions(rt, ps, place)
}

fn processes(rt: &impl Print, ps: &[u64; PROCESS_TABLE]) -> io::Result<()> {
    for place in 0..PROCESS_PLACES {
        process(rt, ps, place)?;
    }
    Ok(())
}

// A live thread; nothing of a free place.
fn thread(rt: &impl Print, ts: &[u64; THREAD_TABLE], place: usize) -> io::Result<()>
    requires { place < thread_places }
{
    let at = place * THREAD_WORDS;
    if ts[at + THREAD_ID] == 0 {
        return Ok(());
    }
    println!(rt;
        "thread id={} process={} mask={:#x} marks{}",
        ts[at + THREAD_ID],
        ts[at + THREAD_PROCESS],
        ts[at + THREAD_MASK],
        Members(SigSet(ts[at + THREAD_MARKS]))
    )
}

fn threads(rt: &impl Print, ts: &[u64; THREAD_TABLE]) -> io::Result<()> {
    for place in 0..THREAD_PLACES {
        thread(rt, ts, place)?;
    }
    Ok(())
}

// A record in use; nothing of a free slot.
fn record(rt: &impl Print, b: &[u8; BUFFER_BYTES], slot: usize) -> io::Result<()>
    requires { slot < buffer_records }
{
    let r = siginfo::read(b, slot);
    if r.process == 0 {
        return Ok(());
    }
    println!(rt;
        "record process={} thread={} signal={} code={} sender={} uid={} value={}",
        r.process,
        r.thread,
        r.signal,
        Code(r.code as u64),
        r.sender,
        r.uid,
        r.value
    )
}

fn records(rt: &impl Print, b: &[u8; BUFFER_BYTES]) -> io::Result<()> {
    for slot in 0..BUFFER_RECORDS {
        record(rt, b, slot)?;
    }
    Ok(())
}

// The tables that a program lends.
#[derive(Clone, Copy)]
pub struct Tables {
    pub processes: [u64; PROCESS_TABLE],
    pub threads: [u64; THREAD_TABLE],
    pub thread_buffer: [u8; BUFFER_BYTES],
    pub process_buffer: [u8; BUFFER_BYTES],
}

impl Tables {
    pub const ZERO: Tables = Tables {
        processes: [0; PROCESS_TABLE],
        threads: [0; THREAD_TABLE],
        thread_buffer: [0; BUFFER_BYTES],
        process_buffer: [0; BUFFER_BYTES],
    };

    // Makes a call on them: the answer's words, or the errno.
    pub fn serve(&mut self, call: Call) -> Result<[u64; ANSWER_WORDS], Errno>
        ensures tables { lent self.new.processes self.new.threads self.new.thread_buffer self.new.process_buffer
            ≡ (served_on self.old call).tables }
        ensures answer { MatchResult result
            (λ words. ((served_on self.old call).errno ≡ 0) × (words ≡ (served_on self.old call).words))
            (λ errno. number errno ≡ (served_on self.old call).errno) }
    {
        let [a, b, c, d, e, f] = call.words;
        let [x, y, z] = call.wide;
        let mut out = [0; ANSWER_WORDS];
        boundary::serve(
            &mut self.processes,
            &mut self.threads,
            &mut self.thread_buffer,
            &mut self.process_buffer,
            &mut out,
            call.number,
            Arguments {
                a,
                b,
                c,
                d,
                e,
                f,
                x,
                y,
                z,
            },
        )?;
        Ok(out)
    }

    // Writes a line for all that is in use.
    pub fn print(&self, rt: &impl Print) -> io::Result<()> {
        processes(rt, &self.processes)?;
        threads(rt, &self.threads)?;
        records(rt, &self.thread_buffer)?;
        records(rt, &self.process_buffer)
    }
}

// A call as a host makes it: its number and its arguments, those of 32 bits before those of 64.
#[derive(Clone, Copy)]
pub struct Call {
    pub number: u32,
    pub words: [u32; 6],
    pub wide: [u64; 3],
}

impl Call {
    pub fn new(number: u32, words: [u32; 6], wide: [u64; 3]) -> Call
        ensures { result ≡ (record { number = number; words = words; wide = wide }) }
    {
        Call {
            number,
            words,
            wide,
        }
    }
}
