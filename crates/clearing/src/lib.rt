// Clearing the store.
#![tactic(auto)]

ghost use Rattle.std.specs.Prelude.{◌≡◌};
ghost use Rattle.rules.specs.Types as call;
ghost use Rattle.sound.specs.Lent.{lengths_are, lent};
ghost use Rattle.answers.specs.Step.{stepped};

use limits::{BUFFER_BYTES, PROCESS_TABLE, THREAD_TABLE};
use types::{Answer, Errno, Reply};

pub fn lengths_are(ps: &[u64], ts: &[u64], tb: &[u8], pb: &[u8]) -> bool
    ensures { result ≡ lengths_are (lent ps.now ts.now tb.now pb.now) }
{
    let buffers = (tb.len() == BUFFER_BYTES) & (pb.len() == BUFFER_BYTES);
    (ps.len() == PROCESS_TABLE) & ((ts.len() == THREAD_TABLE) & buffers)
}

// Clears the whole store, sound or not.
pub fn clear(ps: &mut [u64], ts: &mut [u64], tb: &mut [u8], pb: &mut [u8]) -> Answer
    ensures { stepped call.clear result (lent ps.old ts.old tb.old pb.old)
        (lent ps.new ts.new tb.new pb.new) }
{
    if !lengths_are(ps, ts, tb, pb) {
        return Err(Errno::EFAULT);
    }
    effects::forget(ps, ts, tb, pb);
    Ok(Reply::Done)
}
