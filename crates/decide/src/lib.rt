// Tests on single values: what a signal, an action, a set or an id is.
#![tactic(auto)]

ghost use Rattle.std.specs.Prelude.{◌≡◌, eqb};
ghost use Rattle.std.specs.Int.Bits.{bit_and};
ghost use Rattle.limits.specs.Limits.{known_flags};
ghost use Rattle.rules.specs.Signals.{is_signal, standard, ignoring, ignored};
ghost use Rattle.rules.specs.Sound.{good_id, good_user, is_default, unmasked, nameable};

use limits::{
    KNOWN_FLAGS, LARGEST_ID, LARGEST_USER, LAST_STANDARD, SIG_DFL, SIG_IGN, SIGCHLD, SIGKILL,
    SIGNALS, SIGSTOP, SIGURG, SIGWINCH,
};
use sigset::SigSet;
use types::Action;

// ---- signals

pub fn is_signal(s: u32) -> bool
    ensures { result ≡ is_signal s }
{
    (1 <= s) & (s <= SIGNALS)
}

pub fn is_standard(s: u32) -> bool
    ensures { result ≡ standard s }
{
    (1 <= s) & (s <= LAST_STANDARD)
}

// A signal that a record may name: any but KILL and STOP.
pub fn is_nameable(s: u32) -> bool
    ensures { result ≡ nameable s }
{
    is_signal(s) & !((s == SIGKILL) | (s == SIGSTOP))
}

// A signal that is ignored by default.
pub fn is_ignoring(s: u32) -> bool
    ensures { result ≡ ignoring s }
{
    (s == SIGCHLD) | ((s == SIGURG) | (s == SIGWINCH))
}

// ---- actions

// The action ignores the signal, by choice or by default.
pub fn is_ignored(a: Action, s: u32) -> bool
    ensures { result ≡ ignored a s }
{
    (a.handler == SIG_IGN) | ((a.handler == SIG_DFL) & is_ignoring(s))
}

pub fn is_default(a: Action) -> bool
    ensures { result ≡ is_default a }
{
    a == Action::DEFAULT
}

// Has the word no flag but the known ones?
pub fn are_flags_known(flags: u64) -> bool
    ensures { result ≡ eqb (bit_and flags known_flags) flags }
{
    flags & KNOWN_FLAGS == flags
}

// ---- sets and ids

// The set has neither KILL nor STOP.
pub fn is_unmasked(m: SigSet) -> bool
    ensures { result ≡ unmasked m }
{
    !(m.has(SIGKILL) | m.has(SIGSTOP))
}

pub fn is_id(n: u64) -> bool
    ensures { result ≡ good_id n }
{
    (1 <= n) & (n <= LARGEST_ID as u64)
}

pub fn is_user(n: u64) -> bool
    ensures { result ≡ good_user n }
{
    n <= LARGEST_USER as u64
}
