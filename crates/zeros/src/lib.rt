// Are the words, or the bytes, of a slice all zero? A block is read to its end and what it holds put together,
// so that the compiler reads many at once.
#![tactic(auto)]

ghost use Rattle.std.specs.Prelude.{◌≡◌, ◌&&◌, ◌<◌, ℕ, Bool, true};
ghost use Rattle.std.proofs.Common.{arith};
ghost use Rattle.lists.specs.Lists.{all};
ghost use Rattle.zeros.specs.Zeros.{is_nought, zero_is_nought};
ghost use Rattle.zeros.specs.declared.TheConstants.{BLOCK_WORDS, BLOCK_BYTES};

// A part of a constant length is read best.
const BLOCK_WORDS: usize = 128;

const BLOCK_BYTES: usize = 1024;

// A word or a byte, and how many make a block. The two impls are alike: no macro may write them.
pub trait Word: Copy {
    const ZERO: Self;

    const BLOCK: usize;

    ghost ZERO: { Self };

    ghost BLOCK: { ℕ };

    ghost is_zero: { Self → Bool };

    fn or(self, other: Self) -> Self
        ensures { is_zero result ≡ (is_zero self && is_zero other) };

    fn is_zero(self) -> bool
        ensures { result ≡ is_zero self };

    ghost zero_is_zero: { is_zero ZERO ≡ true };

    ghost block_is_some: { 0 < BLOCK };
}

#[tactic(auto, using(crate::proofs::Zeros::or_nought), unfolding(crate::specs::Zeros::is_nought))]
impl Word for u64 {
    const ZERO: u64 = 0;

    const BLOCK: usize = BLOCK_WORDS;

    ghost ZERO = { 0 };

    ghost BLOCK = { BLOCK_WORDS };

    ghost is_zero = { is_nought };

    ghost zero_is_zero = { zero_is_nought };

    ghost block_is_some = { Prim.omega arith };

    fn or(self, other: u64) -> u64 {
        self | other
    }

    fn is_zero(self) -> bool {
        self == 0
    }
}

#[tactic(auto, using(crate::proofs::Zeros::or_nought), unfolding(crate::specs::Zeros::is_nought))]
impl Word for u8 {
    const ZERO: u8 = 0;

    const BLOCK: usize = BLOCK_BYTES;

    ghost ZERO = { 0 };

    ghost BLOCK = { BLOCK_BYTES };

    ghost is_zero = { is_nought };

    ghost zero_is_zero = { zero_is_nought };

    ghost block_is_some = { Prim.omega arith };

    fn or(self, other: u8) -> u8 {
        self | other
    }

    fn is_zero(self) -> bool {
        self == 0
    }
}

fn block_zero<T: Word>(ws: &[T]) -> bool
    ensures { result ≡ all T.is_zero ws.now }
{
    let mut some = T::ZERO;
    for w in ws {
        some = some.or(*w);
    }
    some.is_zero()
}

pub fn all_zero<T: Word>(ws: &[T]) -> bool
    ensures { result ≡ all T.is_zero ws.now }
{
    let mut rest = ws;
    while let Some((block, behind)) = rest.split_at_checked(T::BLOCK) {
        if !block_zero(block) {
            return false;
        }
        rest = behind;
    }
    block_zero(rest)
}
