// The process table and the thread table as words: a place found by id, read, written, filled and cleared.
// Functions in pairs are a line each over what is common: a trait of the two tables and its laws would be longer.
#![tactic(auto)]

ghost use Rattle.std.specs.Prelude.{◌≡◌, ◌+◌, ◌-◌, ◌*◌, ◌≤◌, ◌<◌, length, get_or, set, replicate, position};
ghost use Rattle.std.proofs.lemmas.List.Edits.{sets};
ghost use Rattle.limits.specs.Limits.{process_places, process_table, thread_places, thread_table, signals};
ghost use Rattle.limits.specs.Limits.{process_words};
ghost use Rattle.limits.specs.Limits.{head_words, action_words, thread_words};
ghost use Rattle.lists.specs.Lists.{find};
ghost use Rattle.rules.specs.View.{is_process, is_thread, action_of};
ghost use Rattle.rules.specs.Store.{free_process, free_thread, is_free_process, is_free_thread};
ghost use Rattle.rules.specs.Adding.{added_process};
ghost use Rattle.tables.specs.Tables.{processes_of, threads_of, held_processes, held_threads, process_at, thread_at};
ghost use Rattle.tables.specs.Tables.{ids_of, LiveProcess, LiveThread};
ghost use Rattle.tables.specs.Tables.{head_to, thread_to, with_field, with_thread_field, has_id, has_live_id};
ghost use Rattle.tables.specs.Tables.{has_thread_id};
ghost use Rattle.tables.specs.Tables.{placed, acted, thread_placed};

use limits::{
    ACTION_FLAGS, ACTION_HANDLER, ACTION_MASK, ACTION_WORDS, HEAD_WORDS, PROCESS_EFFECTIVE,
    PROCESS_ID, PROCESS_PLACES, PROCESS_REAL, PROCESS_SAVED, PROCESS_SESSION, PROCESS_WORDS,
    THREAD_ID, THREAD_MASK, THREAD_PLACES, THREAD_PROCESS, THREAD_WORDS,
};
use sigset::SigSet;
use types::{Action, NewProcess};

// ---- one word of a place: every field of a head and of a thread is read and written by these
//      four, at its named offset

pub fn field_at(ps: &[u64], place: usize, field: usize) -> u64
    requires { (length ps.now ≡ process_table) × ((place < process_places) × (field < head_words)) }
    ensures { result ≡ get_or (head_to (process_at ps.now place)) field 0 }
{
    ps[place * PROCESS_WORDS + field]
}

pub fn put_field(ps: &mut [u64], place: usize, field: usize, value: u64)
    requires { (length ps.old ≡ process_table) × ((place < process_places) × (field < head_words)) }
    ensures { processes_of ps.new
        ≡ set (processes_of ps.old) place (with_field field value (process_at ps.old place)) }
{
    ps[place * PROCESS_WORDS + field] = value;
}

pub fn thread_field_at(ts: &[u64], place: usize, field: usize) -> u64
    requires { (length ts.now ≡ thread_table) × ((place < thread_places) × (field < thread_words)) }
    ensures { result ≡ get_or (thread_to (thread_at ts.now place)) field 0 }
{
    ts[place * THREAD_WORDS + field]
}

pub fn put_thread_field(ts: &mut [u64], place: usize, field: usize, value: u64)
    requires { (length ts.old ≡ thread_table) × ((place < thread_places) × (field < thread_words)) }
    ensures { threads_of ts.new
        ≡ set (threads_of ts.old) place (with_thread_field field value (thread_at ts.old place)) }
{
    ts[place * THREAD_WORDS + field] = value;
}

// ---- the action of a signal

// Where its words begin.
fn action_base(place: usize, signal: u32) -> usize
    requires { (place < process_places) × ((1 ≤ signal) × (signal ≤ signals)) }
    ensures { result ≡ place * process_words + head_words + (signal - 1) * action_words }
{
    place * PROCESS_WORDS + HEAD_WORDS + (signal - 1) as usize * ACTION_WORDS
}

pub fn action_at(ps: &[u64], place: usize, signal: u32) -> Action
    requires { (length ps.now ≡ process_table) × ((place < process_places) × ((1 ≤ signal) × (signal ≤ signals))) }
    ensures { result ≡ action_of (process_at ps.now place).holds signal }
{
    let from = action_base(place, signal);
    Action {
        handler: ps[from + ACTION_HANDLER],
        flags: ps[from + ACTION_FLAGS],
        mask: SigSet(ps[from + ACTION_MASK]),
    }
}

pub fn put_action(ps: &mut [u64], place: usize, signal: u32, a: Action)
    requires { (length ps.old ≡ process_table) × ((place < process_places) × ((1 ≤ signal) × (signal ≤ signals))) }
    ensures { processes_of ps.new
        ≡ set (processes_of ps.old) place (acted signal a (process_at ps.old place)) }
{
    let to = action_base(place, signal);
    ps[to + ACTION_HANDLER] = a.handler;
    ps[to + ACTION_FLAGS] = a.flags;
    ps[to + ACTION_MASK] = a.mask.0;
}

// ---- places by id

// The lowest place of a table that has this id, its first word.
fn place_of(ws: &[u64], width: usize, places: usize, id: u64) -> Option<usize>
    requires { (length ws.now ≡ places * width) × (1 ≤ width) }
    ensures { result ≡ position (has_id id) (ids_of width places ws.now) }
{
    (0..places).position(|i| ws[i * width] == id)
}

// The same of an id that is live: 0 is none.
fn live_place(ws: &[u64], width: usize, places: usize, id: u64) -> Option<usize>
    requires { (length ws.now ≡ places * width) × (1 ≤ width) }
    ensures { result ≡ position (has_live_id id) (ids_of width places ws.now) }
{
    if id == 0 {
        return None;
    }
    place_of(ws, width, places, id)
}

pub fn thread_place(ts: &[u64], id: u64) -> Option<usize>
    requires { length ts.now ≡ thread_table }
    ensures { result ≡ position (has_thread_id id) (held_threads ts.now) }
{
    place_of(ts, THREAD_WORDS, THREAD_PLACES, id)
}

// The place of a process, if it is live.
pub fn find_process(ps: &[u64], process: u64) -> Option<usize>
    requires { length ps.now ≡ process_table }
    ensures { result ≡ position (is_process process) (held_processes ps.now) }
{
    live_place(ps, PROCESS_WORDS, PROCESS_PLACES, process)
}

pub fn find_thread(ts: &[u64], thread: u64) -> Option<usize>
    requires { length ts.now ≡ thread_table }
    ensures { result ≡ position (is_thread thread) (held_threads ts.now) }
{
    live_place(ts, THREAD_WORDS, THREAD_PLACES, thread)
}

// The place of a process that is live.
pub fn live_process(ps: &[u64], process: u32) -> usize
    requires { LiveProcess process ps.now }
    ensures inside { result < process_places }
    ensures place { result ≡ find (is_process process) (held_processes ps.now) }
{
    find_process(ps, process as u64).unwrap()
}

pub fn live_thread(ts: &[u64], thread: u32) -> usize
    requires { LiveThread thread ts.now }
    ensures inside { result < thread_places }
    ensures place { result ≡ find (is_thread thread) (held_threads ts.now) }
{
    find_thread(ts, thread as u64).unwrap()
}

// The lowest free place.
pub fn free_process(ps: &[u64]) -> Option<usize>
    requires { length ps.now ≡ process_table }
    ensures { result ≡ position is_free_process (held_processes ps.now) }
{
    place_of(ps, PROCESS_WORDS, PROCESS_PLACES, 0)
}

pub fn free_thread(ts: &[u64]) -> Option<usize>
    requires { length ts.now ≡ thread_table }
    ensures { result ≡ position is_free_thread (held_threads ts.now) }
{
    place_of(ts, THREAD_WORDS, THREAD_PLACES, 0)
}

// ---- a place cleared and filled

// Zeroes n words.
fn clear(ws: &mut [u64], from: usize, n: usize)
    requires { from + n ≤ length ws.old }
    ensures { ws.new ≡ sets ws.old from (replicate n 0) }
{
    ws[from..from + n].fill(0);
}

pub fn clear_process(ps: &mut [u64], place: usize)
    requires { (length ps.old ≡ process_table) × (place < process_places) }
    ensures { processes_of ps.new ≡ set (processes_of ps.old) place free_process }
{
    clear(ps, place * PROCESS_WORDS, PROCESS_WORDS);
}

pub fn clear_thread(ts: &mut [u64], place: usize)
    requires { (length ts.old ≡ thread_table) × (place < thread_places) }
    ensures { threads_of ts.new ≡ set (threads_of ts.old) place free_thread }
{
    clear(ts, place * THREAD_WORDS, THREAD_WORDS);
}

// Every place of a table, whatever it held.
pub fn clear_processes(ps: &mut [u64])
    requires { length ps.old ≡ process_table }
    ensures { processes_of ps.new ≡ replicate process_places free_process }
{
    ps.fill(0);
}

pub fn clear_threads(ts: &mut [u64])
    requires { length ts.old ≡ thread_table }
    ensures { threads_of ts.new ≡ replicate thread_places free_thread }
{
    ts.fill(0);
}

// A new process into a place, whatever it held.
pub fn fill_process(ps: &mut [u64], place: usize, new: NewProcess)
    requires { (length ps.old ≡ process_table) × (place < process_places) }
    ensures { processes_of ps.new
        ≡ set (processes_of ps.old) place (placed (added_process new)) }
{
    let id = new.id as u64;
    let real = new.real as u64;
    let effective = new.effective as u64;
    let saved = new.saved as u64;
    let session = new.session as u64;
    clear_process(ps, place);
    put_field(ps, place, PROCESS_ID, id);
    put_field(ps, place, PROCESS_REAL, real);
    put_field(ps, place, PROCESS_EFFECTIVE, effective);
    put_field(ps, place, PROCESS_SAVED, saved);
    put_field(ps, place, PROCESS_SESSION, session);
}

// A new thread into a place, whatever it held.
pub fn fill_thread(ts: &mut [u64], place: usize, id: u32, process: u32, mask: SigSet)
    requires { (length ts.old ≡ thread_table) × (place < thread_places) }
    ensures { threads_of ts.new
        ≡ set (threads_of ts.old) place (thread_placed id process mask) }
{
    clear_thread(ts, place);
    put_thread_field(ts, place, THREAD_ID, id as u64);
    put_thread_field(ts, place, THREAD_PROCESS, process as u64);
    put_thread_field(ts, place, THREAD_MASK, mask.0);
}
