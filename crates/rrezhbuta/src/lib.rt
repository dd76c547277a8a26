// The layer as a host links it: the thread table is a lent row of records, and every call goes through one entry.
#![tactic(auto)]

ghost use Rattle.std.specs.Prelude.{◌≡◌, length};
ghost use Rattle.limits.specs.Limits.{thread_places, thread_table};
ghost use Rattle.boundary.specs.Boundary.{arguments};
ghost use Rattle.rrezhbuta.specs.Entry.{host, call_on, mask_in, row_after, look_at, slot_at};

use boundary::Arguments;
use limits::{CALL_SIGMASK, CALL_SIGRETURN, EFAULT, THREAD_MASK, THREAD_PLACES, THREAD_TABLE};
use sigset::SigSet;
use threads::Thread;

// The mask of the first thread with that id; empty where none has it.
fn mask_of(ws: &[u64], id: u64) -> SigSet
    requires { length ws.now ≡ thread_table }
    ensures { result ≡ mask_in ws.now id }
{
    match tables::thread_place(ws, id) {
        Some(place) => SigSet(tables::thread_field_at(ws, place, THREAD_MASK)),
        None => SigSet::EMPTY,
    }
}

// What a call that was accepted changed of the thread table goes back into the row. A mask call and a return
// from a handler change one mask at most, and the thread is searched for in the row.
fn hand_back(ts: &mut [Thread], ws: &[u64], number: u32, thread: u32)
    requires { (length ts.old ≡ thread_places) × (length ws.now ≡ thread_table) }
    ensures { ts.new ≡ row_after number thread ws.now ts.old }
{
    if (number == CALL_SIGMASK) | (number == CALL_SIGRETURN) {
        let mask = mask_of(ws, thread as u64);
        threads::put_mask(ts, thread as u64, mask);
    } else {
        threads::store_words(ts, ws);
    }
}

// ---- what a host calls; rrezhbuta_c is what it links

// One call by its number, on the words of the row. Returns 0, with the answer's words in `out`, or an errno, as in C;
// then nothing is written.
pub fn rrezhbuta_call(
    ps: &mut [u64],
    tb: &mut [u8],
    pb: &mut [u8],
    out: &mut [u64],
    ts: &mut [Thread],
    number: u32,
    a: u32,
    b: u32,
    c: u32,
    d: u32,
    e: u32,
    f: u32,
    x: u64,
    y: u64,
    z: u64,
) -> u64
    ensures { (host ps.new tb.new pb.new out.new ts.new, result)
        ≡ call_on number (arguments a b c d e f x y z) (host ps.old tb.old pb.old out.old ts.old) }
{
    if ts.len() != THREAD_PLACES {
        return EFAULT as u64;
    }
    let mut ws = [0u64; THREAD_TABLE];
    threads::load_words(ts, &mut ws);
    let g = Arguments {
        a,
        b,
        c,
        d,
        e,
        f,
        x,
        y,
        z,
    };
    match boundary::serve(ps, &mut ws, tb, pb, out, number, g) {
        Ok(()) => {
            hand_back(ts, &ws, number, a);
            0
        }
        Err(refusal) => u32::from(refusal) as u64,
    }
}

// ---- the look

// An empty part of a buffer.
fn no_part(b: &[u8]) -> &[u8]
    ensures { length result.now ≡ 0 }
{
    &b[0..0]
}

// The 32 bytes of the record that a thread takes next, in the buffer that holds it;
// an empty part for a mark, for nothing, and where the look is refused.
pub fn look_part<'a>(ps: &[u64], tb: &'a [u8], pb: &'a [u8], ts: &[Thread], thread: u32) -> &'a [u8]
    ensures { result.now ≡ look_at ps.now tb.now pb.now ts.now thread }
{
    if ts.len() != THREAD_PLACES {
        return no_part(tb);
    }
    let mut ws = [0u64; THREAD_TABLE];
    threads::load_words(ts, &mut ws);
    looking::look_part(ps, &ws, tb, pb, thread)
}

// The same for a host that calls it from C, which cannot be handed a part: 0 for the empty one,
// then the slots of the thread buffer from 1 on, then those of the process buffer.
pub fn rrezhbuta_look_slot(ps: &[u64], tb: &[u8], pb: &[u8], ts: &[Thread], thread: u32) -> u64
    ensures { result ≡ slot_at ps.now tb.now pb.now ts.now thread }
{
    if ts.len() != THREAD_PLACES {
        return 0;
    }
    let mut ws = [0u64; THREAD_TABLE];
    threads::load_words(ts, &mut ws);
    looking::look_slot(ps, &ws, tb, pb, thread) as u64
}
