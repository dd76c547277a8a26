// Is the store sound? One test of the four lent tables, for any words, any bytes and any lengths.
#![tactic(auto)]

ghost use Rattle.std.specs.Prelude.{◌≡◌, true, length};
ghost use Rattle.limits.specs.Limits.{process_table, thread_table};
ghost use Rattle.queue.specs.Queue.{is_laid};
ghost use Rattle.sound.specs.Lent.{sound_tables, lent};

use hints::HINT_SLOTS;
use limits::{PROCESS_TABLE, THREAD_TABLE};
use places::{Processes, SoundPlaces, Threads};

// Places, then records, of tables of the right lengths, with nothing behind their records.
fn contents_ok(ps: &[u64], ts: &[u64], tb: &[u8], pb: &[u8]) -> bool
    requires ps_len { (length ps.now ≡ process_table) × (length ts.now ≡ thread_table) }
    requires tb_value { (is_laid tb.now ≡ true) × (is_laid pb.now ≡ true) }
    ensures { result ≡ sound_tables (lent ps.now ts.now tb.now pb.now) }
{
    let mut process_hints = [0; HINT_SLOTS];
    let mut thread_hints = [0; HINT_SLOTS];
    let processes = Processes::of(ps, &mut process_hints);
    let threads = Threads::of(ts, &mut thread_hints);
    match SoundPlaces::of(&processes, &threads) {
        Some(places) => records::records_ok(&places, tb, pb),
        None => false,
    }
}

// Is the store sound? Any words, any bytes and any lengths are answered.
pub fn sound(ps: &[u64], ts: &[u64], tb: &[u8], pb: &[u8]) -> bool
    ensures { result ≡ sound_tables (lent ps.now ts.now tb.now pb.now) }
{
    if (ps.len() != PROCESS_TABLE) | (ts.len() != THREAD_TABLE) {
        return false;
    }
    if !queue::is_laid(tb) {
        return false;
    }
    if !queue::is_laid(pb) {
        return false;
    }
    contents_ok(ps, ts, tb, pb)
}

// The same under the name that a host calls; sound_c is what it links.
pub fn rrezhbuta_sound(ps: &[u64], ts: &[u64], tb: &[u8], pb: &[u8]) -> bool
    ensures { result ≡ sound_tables (lent ps.now ts.now tb.now pb.now) }
{
    sound(ps, ts, tb, pb)
}
