//! Quotients and remainders.

ghost use Rattle.std.specs.Prelude.{◌≡◌};
ghost use Rattle.value_range.specs.AluRows.{divided, left_over};

use crate::range::{Range, exact, norm};

/// By a known number from the least to the greatest; by zero it is 0.
#[tactic(auto, using(crate::proofs::RowBounds::zero_some), unfolding(crate::specs::AluRows::divided))]
pub(crate) fn divided(a: Range, b: Range) -> Range
    ensures { result ≡ divided a b }
{
    if b.lo() != b.hi() {
        norm(0, a.hi(), 0)
    } else if b.lo() == 0 {
        exact(0)
    } else {
        norm(a.lo() / b.lo(), a.hi() / b.lo(), 0)
    }
}

/// By a known number what is below it; by zero, or by a greater number, the dividend stays.
#[tactic(auto, using(crate::proofs::RowBounds::zero_some), unfolding(crate::specs::AluRows::left_over))]
pub(crate) fn left_over(a: Range, b: Range) -> Range
    ensures { result ≡ left_over a b }
{
    if b.lo() != b.hi() {
        norm(0, a.hi(), 0)
    } else if b.lo() == 0 || a.hi() < b.lo() {
        a
    } else {
        norm(0, b.lo() - 1, 0)
    }
}
