// Is each record of the two buffers sound? The second half of the test of the whole store: one pass over each buffer,
// held against what was noted of the places.
#![tactic(auto)]

ghost use Rattle.std.specs.Prelude.{◌≡◌, true, false, cond, [], ◌≤◌, ◌<◌, length, get_or, MatchOption};
ghost use Rattle.limits.specs.Limits.{process_places, buffer_records, buffer_bytes};
ghost use Rattle.types.specs.declared.Siginfo.{Siginfo};
ghost use Rattle.queue.specs.Queue.{records_of};
ghost use Rattle.tables.specs.Tables.{processes_of, threads_of};
ghost use Rattle.soundness.specs.Check.{tallies, is_fresh, is_delivered, bumped, noted, within_at, all_within};
ghost use Rattle.soundness.specs.Check.{records_ok};
ghost use Rattle.soundness.specs.Pass.{Pass, AddsUp, thread_pass, process_pass};
ghost use Rattle.soundness.proofs.Turns.{thread-adds-up, process-adds-up};
ghost use Rattle.tables.proofs.Words.{length-processes_of, length-threads_of};

use limits::{
    LAST_STANDARD, PROCESS_ID, PROCESS_MARKS, PROCESS_PLACES, RECORD_LIMIT, SI_QUEUE, THREAD_MARKS,
    THREAD_PLACES,
};
use places::SoundPlaces;
use sigset::SigSet;
use types::Siginfo;

// ---- the queues that the records of a buffer wait in

// The places of a record's process and of its queue.
#[derive(Clone, Copy)]
pub struct Aim {
    pub process: usize,
    pub queue: usize,
}

trait Queues<const N: usize> {
    ghost pass: { Self → Pass };

    // What is marked in a queue.
    fn marks(&self, queue: usize) -> u64
        requires { queue < N }
        ensures { result ≡ get_or ((pass self.now).seen []) queue 0 };

    // Where the record is aimed, if there are its process and its queue and it is not ignored.
    fn aim(&self, r: Siginfo) -> Option<Aim>
        ensures { MatchOption result ((pass self.now).aimed r ≡ false)
            (λ at. ((pass self.now).aimed r ≡ true)
            × (((at.process < process_places) × (at.process ≡ (pass self.now).process r))
            × ((at.queue < N) × (at.queue ≡ (pass self.now).queue r)))) };

    ghost adds_up: { (q : Self) → AddsUp N (pass q) };
}

// Was the record queued, with a signal that it may name and that its process does not ignore?
fn is_delivered(ignores: SigSet, r: Siginfo) -> bool
    ensures { result ≡ is_delivered ignores r }
{
    let s = r.signal;
    if !decide::is_nameable(s) {
        return false;
    }
    let hit = ignores.has(s);
    (r.code == SI_QUEUE) & !hit
}

// The queues of the threads. A record's process is the one in its thread's owner's place.
#[derive(Drop)]
struct ThreadQueues<'a>(&'a SoundPlaces<'a>);

impl Queues<THREAD_PLACES> for ThreadQueues<'_> {
    ghost pass = { λ q. thread_pass (processes_of q.0.now.processes.words.now)
        (threads_of q.0.now.threads.words.now) };

    ghost adds_up = { λ q. thread-adds-up _ _ _ _ (length-processes_of _) (length-threads_of _) q.0.now.sound };

    fn marks(&self, queue: usize) -> u64 {
        let places = self.0;
        tables::thread_field_at(places.threads.words, queue, THREAD_MARKS)
    }

    fn aim(&self, r: Siginfo) -> Option<Aim> {
        let places = self.0;
        let queue = places.threads.place_of(r.thread as u64)?;
        let process = places.owners[queue] as usize;
        if tables::field_at(places.processes.words, process, PROCESS_ID) != r.process as u64 {
            return None;
        }
        is_delivered(places.ignored[process], r).then_some(Aim { process, queue })
    }
}

// The queues of the processes. Their records name no thread.
#[derive(Drop)]
struct ProcessQueues<'a>(&'a SoundPlaces<'a>);

impl Queues<PROCESS_PLACES> for ProcessQueues<'_> {
    ghost pass = { λ q. process_pass (processes_of q.0.now.processes.words.now) };

    ghost adds_up = { λ q. process-adds-up _ _ _ (threads_of q.0.now.threads.words.now) (length-processes_of _)
        (length-threads_of _) q.0.now.sound };

    fn marks(&self, queue: usize) -> u64 {
        let places = self.0;
        tables::field_at(places.processes.words, queue, PROCESS_MARKS)
    }

    fn aim(&self, r: Siginfo) -> Option<Aim> {
        let places = self.0;
        let process = places.processes.place_of(r.process as u64)?;
        let aimed = (r.thread == 0) & is_delivered(places.ignored[process], r);
        aimed.then_some(Aim {
            process,
            queue: process,
        })
    }
}

// ---- what the records so far add up to

// How many each process has, and the words of the sets that are pending in each queue: the definitions read words.
#[derive(Drop)]
struct Pending<const N: usize> {
    counts: [usize; PROCESS_PLACES],
    seen: [u64; N],
}

// The standard signals, which are pending at most once.
const STANDARD: SigSet = SigSet((1 << LAST_STANDARD) - 1);

impl<const N: usize> Pending<N> {
    // The record is counted and noted, unless its signal may be pending only once and is so already.
    fn admit(&mut self, at: Aim, s: u32) -> bool
        requires inside { (at.process < process_places) × (at.queue < N) }
        requires room { get_or self.old.counts at.process 0 ≤ buffer_records }
        ensures value { result ≡ is_fresh self.old.seen at.queue s }
        ensures counts_after { self.new.counts ≡ cond result (bumped self.old.counts at.process) self.old.counts }
        ensures seen_after { self.new.seen ≡ cond result (noted self.old.seen at.queue s) self.old.seen }
    {
        let before = SigSet(self.seen[at.queue]);
        let once = before.intersect(STANDARD);
        if once.has(s) {
            return false;
        }
        self.counts[at.process] += 1;
        let after = before.union(SigSet::of_signal(s));
        self.seen[at.queue] = after.0;
        true
    }
}

// ---- all records

// Before the first record, what is pending in a queue is its marks.
fn all_marks<const N: usize, Q: Queues<N>>(queues: &Q, seen: &mut [u64; N])
    ensures { seen.new ≡ (Q.pass queues.now).seen [] }
{
    for (queue, marks) in seen.iter_mut().enumerate() {
        *marks = queues.marks(queue);
    }
}

// How many records each process has in the buffer, if all of them are as they must be.
fn counted<const N: usize, Q: Queues<N>>(
    queues: &Q,
    buffer: &[u8],
) -> Option<[usize; PROCESS_PLACES]>
    requires { length buffer.now ≡ buffer_bytes }
    ensures { MatchOption result ((Q.pass queues.now).ok (records_of buffer.now) ≡ false)
        (λ counts. ((Q.pass queues.now).ok (records_of buffer.now) ≡ true)
        × (counts ≡ tallies (Q.pass queues.now).processes (records_of buffer.now))) }
{
    let mut pending = Pending {
        counts: [0; PROCESS_PLACES],
        seen: [0; N],
    };
    all_marks(queues, &mut pending.seen);
    for slot in 0..queue::used(buffer) {
        let r = siginfo::read(buffer, slot);
        let at = queues.aim(r)?;
        if !pending.admit(at, r.signal) {
            return None;
        }
    }
    Some(pending.counts)
}

fn within_at(cs: &[usize; PROCESS_PLACES], ds: &[usize; PROCESS_PLACES], place: usize) -> bool
    requires { place < process_places }
    ensures { result ≡ within_at cs.now ds.now place }
{
    if RECORD_LIMIT < cs[place] {
        return false;
    }
    ds[place] <= RECORD_LIMIT - cs[place]
}

// Has no process more records than it may, both buffers counted in?
fn all_within(cs: &[usize; PROCESS_PLACES], ds: &[usize; PROCESS_PLACES]) -> bool
    ensures { result ≡ all_within cs.now ds.now }
{
    (0..PROCESS_PLACES).all(|place| within_at(cs, ds, place))
}

// Are the records of both buffers as they must be, and is no process over the limit?
pub fn records_ok<'a>(places: &'a SoundPlaces<'a>, tb: &[u8], pb: &[u8]) -> bool
    requires { (length tb.now ≡ buffer_bytes) × (length pb.now ≡ buffer_bytes) }
    ensures { result ≡ records_ok (processes_of places.now.processes.words.now)
        (threads_of places.now.threads.words.now) (records_of tb.now) (records_of pb.now) }
{
    let Some(to_threads) = counted(&ThreadQueues(places), tb) else {
        return false;
    };
    let Some(to_processes) = counted(&ProcessQueues(places), pb) else {
        return false;
    };
    all_within(&to_threads, &to_processes)
}
