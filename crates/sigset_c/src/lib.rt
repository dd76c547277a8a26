// What a host links of sigset: libsigset.a.
#![tactic(auto)]

ghost use Rattle.std.specs.Prelude.{◌≡◌};
ghost use Rattle.sigset.specs.Set.{lowest, bits};

// The lowest member, or 0 where there is none.
#[unsafe(no_mangle)]
pub extern "C" fn rrezhbuta_lowest(set: u64) -> u32
    ensures { result ≡ lowest (bits set) }
{
    sigset::rrezhbuta_lowest(set)
}
