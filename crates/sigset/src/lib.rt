// Signal sets. Signal s, from 1 to 64, is bit s - 1.
#![tactic(auto)]

ghost use Rattle.std.specs.Prelude.{◌≡◌};
ghost use Rattle.sigset.specs.Set.{has, union, without, intersect, maskable, of_signal, lowest, nonzero, bits};

use limits::{SIGKILL, SIGNALS, SIGSTOP};

#[repr(C)]
#[derive(Clone, Copy, PartialEq, Eq, Debug)]
pub struct SigSet(pub u64);

impl SigSet {
    pub const EMPTY: SigSet = SigSet(0);
    // KILL and STOP, which no mask holds.
    pub const UNMASKABLE: SigSet = SigSet((1 << (SIGKILL - 1)) | (1 << (SIGSTOP - 1)));

    // The set that has s alone; empty where s is no signal.
    pub fn of_signal(s: u32) -> SigSet
        ensures { result ≡ of_signal s }
    {
        if s == 0 || SIGNALS < s {
            return SigSet::EMPTY;
        }
        SigSet(1u64 << (s - 1))
    }

    pub fn union(self, other: SigSet) -> SigSet
        ensures { result ≡ union self other }
    {
        SigSet(self.0 | other.0)
    }

    // The members that are not in the other.
    pub fn without(self, other: SigSet) -> SigSet
        ensures { result ≡ without self other }
    {
        SigSet(self.0 & !other.0)
    }

    pub fn intersect(self, other: SigSet) -> SigSet
        ensures { result ≡ intersect self other }
    {
        SigSet(self.0 & other.0)
    }

    pub fn has(self, s: u32) -> bool
        ensures { result ≡ has self s }
    {
        if s == 0 || SIGNALS < s {
            return false;
        }
        (self.0 >> (s - 1)) % 2 == 1
    }

    // The set without KILL and STOP: what a mask may hold of it.
    pub fn maskable(self) -> SigSet
        ensures { result ≡ maskable self }
    {
        self.without(SigSet::UNMASKABLE)
    }

    pub fn lowest(self) -> Option<u32>
        ensures { result ≡ nonzero (lowest self) }
    {
        if self.0 == 0 {
            return None;
        }
        Some(self.0.trailing_zeros() + 1)
    }
}

// The lowest member under the name that a host calls, 0 where there is none; sigset_c is what it links.
pub fn rrezhbuta_lowest(set: u64) -> u32
    ensures { result ≡ lowest (bits set) }
{
    SigSet(set).lowest().unwrap_or(0)
}
