//! Operators on single bits.

ghost use Rattle.std.specs.Prelude.{◌≡◌, ℕ, ◌<◌, ◌≤◌, ◌^◌};
ghost use Rattle.value_range.specs.AluRows.{filled, with_bits, common_bits, other_bits};

use crate::range::{Range, norm};

/// The least 2^k - 1 that is not below a word.
#[tactic(auto, unfolding(crate::specs::AluRows::filled))]
fn fill(word: u64) -> u64
    ensures equal { result ≡ filled word }
    ensures not_below { word ≤ result }
    ensures least { (k : ℕ) → word < 2 ^ k → result < 2 ^ k }
{
    if word == 0 {
        0
    } else {
        0xffff_ffff_ffff_ffffu64 >> word.leading_zeros()
    }
}

/// The bits of either: not below either, nor above all bits that there may be.
#[tactic(auto, using(crate::proofs::RowBounds::zero_some), unfolding(crate::specs::AluRows::with_bits))]
pub(crate) fn with_bits(a: Range, b: Range) -> Range
    ensures { result ≡ with_bits a b }
{
    norm(
        a.lo().max(b.lo()),
        fill(a.hi() | b.hi()),
        a.zeros().min(b.zeros()),
    )
}

/// The bits of both: not above either.
#[tactic(auto, using(crate::proofs::RowBounds::zero_some), unfolding(crate::specs::AluRows::common_bits))]
pub(crate) fn common_bits(a: Range, b: Range) -> Range
    ensures { result ≡ common_bits a b }
{
    norm(0, a.hi().min(b.hi()), a.zeros().max(b.zeros()))
}

/// The bits of one alone: not above all bits that there may be.
#[tactic(auto, using(crate::proofs::RowBounds::zero_some), unfolding(crate::specs::AluRows::other_bits))]
pub(crate) fn other_bits(a: Range, b: Range) -> Range
    ensures { result ≡ other_bits a b }
{
    norm(0, fill(a.hi() | b.hi()), a.zeros().min(b.zeros()))
}
