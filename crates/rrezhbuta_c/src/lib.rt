// What a host links of rrezhbuta: librrezhbuta.a.
#![tactic(auto)]

ghost use Rattle.std.specs.Prelude.{◌≡◌};
ghost use Rattle.boundary.specs.Boundary.{arguments};
ghost use Rattle.rrezhbuta.specs.Entry.{host, call_on, slot_at};

use threads::Thread;

// One call by its number, on the words of the row. Returns 0, with the answer's words in `out`, or an errno;
// then nothing is written.
#[unsafe(no_mangle)]
pub extern "C" fn rrezhbuta_call(
    ps: &mut [u64],
    tb: &mut [u8],
    pb: &mut [u8],
    out: &mut [u64],
    ts: &mut [Thread],
    number: u32,
    a: u32,
    b: u32,
    c: u32,
    d: u32,
    e: u32,
    f: u32,
    x: u64,
    y: u64,
    z: u64,
) -> u64
    ensures { (host ps.new tb.new pb.new out.new ts.new, result)
        ≡ call_on number (arguments a b c d e f x y z) (host ps.old tb.old pb.old out.old ts.old) }
{
    rrezhbuta::rrezhbuta_call(ps, tb, pb, out, ts, number, a, b, c, d, e, f, x, y, z)
}

// The part that a look gives: 0 for the empty one,
// then the slots of the thread buffer from 1 on, then those of the process buffer.
#[unsafe(no_mangle)]
pub extern "C" fn rrezhbuta_look_slot(
    ps: &[u64],
    tb: &[u8],
    pb: &[u8],
    ts: &[Thread],
    thread: u32,
) -> u64
    ensures { result ≡ slot_at ps.now tb.now pb.now ts.now thread }
{
    rrezhbuta::rrezhbuta_look_slot(ps, tb, pb, ts, thread)
}
