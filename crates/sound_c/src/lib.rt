// What a host links of sound: libsound.a.
#![tactic(auto)]

ghost use Rattle.std.specs.Prelude.{◌≡◌};
ghost use Rattle.sound.specs.Lent.{sound_tables, lent};

// Is the store sound? Any words, any bytes and any lengths are answered.
#[unsafe(no_mangle)]
pub extern "C" fn rrezhbuta_sound(ps: &[u64], ts: &[u64], tb: &[u8], pb: &[u8]) -> bool
    ensures { result ≡ sound_tables (lent ps.now ts.now tb.now pb.now) }
{
    sound::rrezhbuta_sound(ps, ts, tb, pb)
}
