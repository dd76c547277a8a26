// A buffer of records: those in use come first, oldest first, and the rest is zero.
#![tactic(auto)]

ghost use Rattle.std.specs.Prelude.{◌≡◌, true, ◌≤◌, ◌<◌, length, drop, replicate, position};
ghost use Rattle.limits.specs.Limits.{buffer_records, buffer_bytes};
ghost use Rattle.lists.specs.Lists.{all, count, keep};
ghost use Rattle.lists.proofs.Loops.{cleared};
ghost use Rattle.types.specs.Values.{no_siginfo};
ghost use Rattle.rules.specs.View.{in_queue, queue_of, same_queue, target_queue};
ghost use Rattle.rules.specs.Store.{in_use, on_slots, of_process};
ghost use Rattle.rules.specs.Sound.{is_zero};
ghost use Rattle.queue.specs.Queue.{slots_of, records_of, is_laid, appended, remove_at, is_left, signals_in};

use limits::{BUFFER_BYTES, BUFFER_RECORDS, RECORD_BYTES};
use sigset::SigSet;
use types::Siginfo;

// What a discard takes away: the records of a process or of a thread that ends,
// or those of a process whose signals are in a set.
#[derive(Clone, Copy)]
pub enum Discarded {
    OfProcess(u32),
    OfThread(u32),
    OfSignals(u32, SigSet),
}

// ---- one record

fn in_use(r: Siginfo) -> bool
    ensures { result ≡ in_use r }
{
    r.process != 0
}

// Is it of the queue of a process, thread 0, or of one of its threads?
fn is_of(r: Siginfo, process: u32, thread: u32) -> bool
    ensures { result ≡ same_queue (target_queue process thread) (queue_of r) }
{
    (process == r.process) & (thread == r.thread)
}

fn in_queue(r: Siginfo, process: u32, thread: u32, signal: u32) -> bool
    ensures { result ≡ in_queue (target_queue process thread) signal r }
{
    is_of(r, process, thread) & (r.signal == signal)
}

fn is_left(r: Siginfo, discarded: Discarded) -> bool
    ensures { result ≡ is_left discarded r }
{
    match discarded {
        Discarded::OfProcess(process) => r.process != process,
        Discarded::OfThread(thread) => r.thread != thread,
        Discarded::OfSignals(process, signals) => {
            let hit = signals.has(r.signal);
            !((r.process == process) & hit)
        }
    }
}

// ---- reading

// How many records are in use.
pub fn used(b: &[u8]) -> usize
    requires { length b.now ≡ buffer_bytes }
    ensures { result ≡ length (records_of b.now) }
{
    (0..BUFFER_RECORDS)
        .position(|i| !in_use(siginfo::read(b, i)))
        .unwrap_or(BUFFER_RECORDS)
}

// The index of the oldest record of a queue and signal.
pub fn first_of(b: &[u8], process: u32, thread: u32, signal: u32) -> Option<usize>
    requires { length b.now ≡ buffer_bytes }
    ensures { result ≡ position (in_queue (target_queue process thread) signal) (records_of b.now) }
{
    for i in 0..used(b) {
        if in_queue(siginfo::read(b, i), process, thread, signal) {
            return Some(i);
        }
    }
    None
}

// The signals that have a record of a queue.
pub fn signals_of(b: &[u8], process: u32, thread: u32) -> SigSet
    requires { length b.now ≡ buffer_bytes }
    ensures { result ≡ signals_in (target_queue process thread) (records_of b.now) }
{
    let n = used(b);
    let mut set = SigSet::EMPTY;
    for i in 0..n {
        let r = siginfo::read(b, i);
        if is_of(r, process, thread) {
            set = set.union(SigSet::of_signal(r.signal));
        }
    }
    set
}

// How many records a process has in the buffer.
pub fn count_of(b: &[u8], process: u32) -> usize
    requires { length b.now ≡ buffer_bytes }
    ensures { result ≡ count (of_process process) (records_of b.now) }
{
    let n = used(b);
    let mut k: usize = 0;
    for i in 0..n {
        let r = siginfo::read(b, i);
        if r.process == process {
            k += 1;
        }
    }
    k
}

// Are the slots from a place on all zero?
fn zero_from(b: &[u8], from: usize) -> bool
    requires { (length b.now ≡ buffer_bytes) × (from ≤ buffer_records) }
    ensures { result ≡ all is_zero (drop from (slots_of b.now)) }
{
    zeros::all_zero(&b[from * RECORD_BYTES..])
}

// Is the buffer laid out? Any bytes of any length are answered.
pub fn is_laid(b: &[u8]) -> bool
    ensures { result ≡ is_laid b.now }
{
    if b.len() != BUFFER_BYTES {
        return false;
    }
    let n = used(b);
    zero_from(b, n)
}

// ---- changing

// Zeroes the slots from j up to, not including, n.
fn clear(b: &mut [u8], j: usize, n: usize)
    requires { (length b.old ≡ buffer_bytes) × ((j ≤ n) × (n ≤ buffer_records)) }
    ensures { slots_of b.new ≡ cleared no_siginfo (slots_of b.old) j n }
{
    b[j * RECORD_BYTES..n * RECORD_BYTES].fill(0);
}

// No record is left, whatever the buffer held.
pub fn empty(b: &mut [u8])
    requires { length b.old ≡ buffer_bytes }
    ensures { slots_of b.new ≡ replicate buffer_records no_siginfo }
{
    clear(b, 0, BUFFER_RECORDS);
}

// One record more, behind the others.
pub fn append(b: &mut [u8], r: Siginfo)
    requires b_value { is_laid b.old ≡ true }
    requires b_len_bound { length (records_of b.old) < buffer_records }
    ensures { slots_of b.new ≡ on_slots (appended r) (slots_of b.old) }
{
    let n = used(b);
    siginfo::write(b, n, r);
}

// The discarded records go, and the others keep their order.
pub fn discard(b: &mut [u8], discarded: Discarded)
    requires { is_laid b.old ≡ true }
    ensures { slots_of b.new ≡ on_slots (keep (is_left discarded)) (slots_of b.old) }
{
    let n = used(b);
    let mut j: usize = 0;
    for i in 0..n {
        let r = siginfo::read(b, i);
        if is_left(r, discarded) {
            siginfo::write(b, j, r);
            j += 1;
        }
    }
    clear(b, j, n);
}

// The record at k goes, and the later ones move down by one.
pub fn remove(b: &mut [u8], k: usize)
    requires b_value { is_laid b.old ≡ true }
    requires k_in_bounds { k < length (records_of b.old) }
    ensures { slots_of b.new ≡ on_slots (remove_at k) (slots_of b.old) }
{
    let n = used(b);
    // `rotate_left` of the bytes is slower: 27,107 instructions a take for 24,004
    for i in k..n - 1 {
        let r = siginfo::read(b, i + 1);
        siginfo::write(b, i, r);
    }
    clear(b, n - 1, n);
}
