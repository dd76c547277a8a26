// A look at the next signal of a thread, and who can take one.
#![tactic(auto)]

ghost use Rattle.std.specs.Prelude.{◌≡◌, true, length, get_or, ◌<◌, position};
ghost use Rattle.limits.specs.Limits.{thread_places, buffer_records, buffer_bytes, record_bytes};
ghost use Rattle.lists.specs.Rows.{row};
ghost use Rattle.types.specs.Answers.{answer_of};
ghost use Rattle.rules.specs.Types as call;
ghost use Rattle.rules.specs.Types.{no_thread};
ghost use Rattle.rules.specs.Taking.{can_take_some};
ghost use Rattle.tables.specs.Tables.{held_threads};
ghost use Rattle.sound.specs.Lent.{view_of, sound_tables, lent};
ghost use Rattle.answers.specs.Step.{step_on};
ghost use Rattle.looking.specs.Looks.{look_slot, look_bytes};

use limits::{BUFFER_RECORDS, RECORD_BYTES, THREAD_ID, THREAD_PLACES, THREAD_PROCESS};
use types::{Answer, Pending, Reply};

// ---- the look

// The bytes of a slot.
fn slot_of(b: &[u8], k: usize) -> &[u8]
    requires { (length b.now ≡ buffer_bytes) × (k < buffer_records) }
    ensures { result.now ≡ row record_bytes b.now k }
{
    let from = k * RECORD_BYTES;
    let to = from + RECORD_BYTES;
    &b[from..to]
}

// The slot of the record that a thread takes next, by number: those of the thread buffer from 1 on,
// then those of the process buffer; 0 for a mark, for nothing, and where the look is refused.
// The number is what the C interface hands out.
pub fn look_slot(ps: &[u64], ts: &[u64], tb: &[u8], pb: &[u8], thread: u32) -> usize
    ensures { result ≡ look_slot thread (lent ps.now ts.now tb.now pb.now) }
{
    if view::check_thread(ps, ts, tb, pb, thread).is_err() {
        return 0;
    }
    match next::next_of(ps, ts, tb, pb, thread) {
        None => 0,
        Some(Pending::Mark(_, _, _)) => 0,
        Some(Pending::Record(r)) => {
            if r.thread == 0 {
                let k = queue::first_of(pb, r.process, r.thread, r.signal).unwrap();
                return BUFFER_RECORDS + k + 1;
            }
            queue::first_of(tb, r.process, r.thread, r.signal).unwrap() + 1
        }
    }
}

// The 32 bytes of the record that a thread takes next, in the buffer that holds it;
// an empty part for a mark, for nothing, and where the look is refused.
pub fn look_part<'a>(ps: &[u64], ts: &[u64], tb: &'a [u8], pb: &'a [u8], thread: u32) -> &'a [u8]
    ensures { result.now ≡ look_bytes thread (lent ps.now ts.now tb.now pb.now) }
{
    let n = look_slot(ps, ts, tb, pb, thread);
    if n == 0 {
        return &tb[0..0];
    }
    if n <= BUFFER_RECORDS {
        return slot_of(tb, n - 1);
    }
    slot_of(pb, n - 1 - BUFFER_RECORDS)
}

// What the look found, or its errno.
pub fn look(ps: &[u64], ts: &[u64], tb: &[u8], pb: &[u8], thread: u32) -> Answer
    ensures { answer_of result ≡ (step_on (call.look thread) (lent ps.now ts.now tb.now pb.now)).1 }
{
    view::check_thread(ps, ts, tb, pb, thread)?;
    Ok(Reply::Looked(next::next_of(ps, ts, tb, pb, thread)))
}

// ---- who can take

// Is the thread in a place of the process, and can it take something?
fn can_take(ps: &[u64], ts: &[u64], tb: &[u8], pb: &[u8], process: u32, place: usize) -> bool
    requires pb_value { sound_tables (lent ps.now ts.now tb.now pb.now) ≡ true }
    requires place_lt_thread_places { place < thread_places }
    ensures { result ≡ can_take_some (view_of (lent ps.now ts.now tb.now pb.now)) process
        (get_or (held_threads ts.now) place no_thread) }
{
    if process == 0 {
        return false;
    }
    if tables::thread_field_at(ts, place, THREAD_PROCESS) != process as u64 {
        return false;
    }
    let thread = tables::thread_field_at(ts, place, THREAD_ID) as u32;
    next::next_signal(ps, ts, tb, pb, thread).is_some()
}

// The lowest place whose thread can.
fn taker_place(ps: &[u64], ts: &[u64], tb: &[u8], pb: &[u8], process: u32) -> Option<usize>
    requires { sound_tables (lent ps.now ts.now tb.now pb.now) ≡ true }
    ensures { result ≡ position (can_take_some (view_of (lent ps.now ts.now tb.now pb.now)) process)
        (held_threads ts.now) }
{
    for place in 0..THREAD_PLACES {
        if can_take(ps, ts, tb, pb, process, place) {
            return Some(place);
        }
    }
    None
}

// Names the live thread of a process in the lowest place that can take something, or says that none can.
pub fn who(ps: &[u64], ts: &[u64], tb: &[u8], pb: &[u8], process: u32) -> Answer
    ensures { answer_of result ≡ (step_on (call.who process) (lent ps.now ts.now tb.now pb.now)).1 }
{
    view::check_process(ps, ts, tb, pb, process)?;
    let Some(place) = taker_place(ps, ts, tb, pb, process) else {
        return Ok(Reply::Taker(None));
    };
    let taker = tables::thread_field_at(ts, place, THREAD_ID) as u32;
    Ok(Reply::Taker(Some(taker)))
}
