// The thread table as a host lends it: a row of thread records.
#![tactic(auto)]

ghost use Rattle.std.specs.Prelude.{◌≡◌, ◌<◌, length, get_or, set, position};
ghost use Rattle.limits.specs.Limits.{thread_places, thread_table};
ghost use Rattle.threads.specs.Records.{no_thread, with_mask, has_id, with_mask_at, words_of, records_of};
ghost use Rattle.threads.specs.Records.{with_record};

use limits::{THREAD_ID, THREAD_MARKS, THREAD_MASK, THREAD_PROCESS, THREAD_WORDS};
use sigset::SigSet;

// One record, as document 01 names its fields; all are words of 64 bits, so a C host has the same struct.
#[repr(C)]
#[derive(Clone, Copy, PartialEq, Eq, Debug)]
pub struct Thread {
    pub id: u64,
    // the id of its process
    pub process: u64,
    pub mask: SigSet,
    pub marks: SigSet,
}

// The first place whose record has that id.
pub fn find_thread(ts: &[Thread], id: u64) -> Option<usize>
    ensures { result ≡ position (has_id id) ts.now }
{
    ts.iter().position(|t| t.id == id)
}

// The mask of the record at place i becomes m, in place; where it is m already, nothing is written.
pub fn set_mask(ts: &mut [Thread], i: usize, m: SigSet)
    requires { i < length ts.old }
    ensures { ts.new ≡ set ts.old i (with_mask m (get_or ts.old i no_thread)) }
{
    if ts[i].mask != m {
        ts[i].mask = m;
    }
}

// The mask of the first record with that id becomes m, in place.
pub fn put_mask(ts: &mut [Thread], id: u64, m: SigSet)
    ensures { ts.new ≡ with_mask_at id m ts.old }
{
    if let Some(i) = find_thread(ts, id) {
        set_mask(ts, i, m);
    }
}

// ---- the row as words and back

// The words of record i become those of t.
fn put_record(ws: &mut [u64], i: usize, t: Thread)
    requires { (length ws.old ≡ thread_table) × (i < thread_places) }
    ensures { ws.new ≡ with_record i t ws.old }
{
    ws[i * THREAD_WORDS + THREAD_ID] = t.id;
    ws[i * THREAD_WORDS + THREAD_PROCESS] = t.process;
    ws[i * THREAD_WORDS + THREAD_MASK] = t.mask.0;
    ws[i * THREAD_WORDS + THREAD_MARKS] = t.marks.0;
}

// The record at place i of the words.
fn record_at(ws: &[u64], i: usize) -> Thread
    requires { (length ws.now ≡ thread_table) × (i < thread_places) }
    ensures { result ≡ get_or (records_of thread_places ws.now) i no_thread }
{
    Thread {
        id: ws[i * THREAD_WORDS + THREAD_ID],
        process: ws[i * THREAD_WORDS + THREAD_PROCESS],
        mask: SigSet(ws[i * THREAD_WORDS + THREAD_MASK]),
        marks: SigSet(ws[i * THREAD_WORDS + THREAD_MARKS]),
    }
}

// The words become those of the records.
pub fn load_words(ts: &[Thread], ws: &mut [u64])
    requires { (length ts.now ≡ thread_places) × (length ws.old ≡ thread_table) }
    ensures { ws.new ≡ words_of ts.now }
{
    for (i, t) in ts.iter().enumerate() {
        put_record(ws, i, *t);
    }
}

// The records become those of the words; a record that is the same already is not written to.
pub fn store_words(ts: &mut [Thread], ws: &[u64])
    requires { (length ts.old ≡ thread_places) × (length ws.now ≡ thread_table) }
    ensures { ts.new ≡ records_of thread_places ws.now }
{
    for (i, t) in ts.iter_mut().enumerate() {
        let u = record_at(ws, i);
        if *t != u {
            *t = u;
        }
    }
}
