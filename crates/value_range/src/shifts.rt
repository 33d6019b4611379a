//! Shifts.

ghost use Rattle.std.specs.Prelude.{◌≡◌, ◌<◌};
ghost use Rattle.bpf_insn_types.specs.Words.{modulus};
ghost use Rattle.value_range.specs.AluRows.{shifted_left_by, shifted_left, shifted_right, shifted_signed};

use crate::range::{Range, norm, top};
use crate::widths::{spread, within};
use bpf_insn_types::{Width, shift_amount};

/// To the left by a known amount: where nothing wraps, from the least to the greatest.
#[tactic(auto, using(crate::proofs::RowBounds::zero_some), unfolding(crate::specs::AluRows::shifted_left_by))]
fn shifted_left_by(width: Width, a: Range, amount: u32) -> Range
    requires { amount < 64 }
    ensures { result ≡ shifted_left_by width a amount }
{
    let zeros = (a.zeros() + amount).min(64);
    match within(width, (a.hi() as u128) << amount) {
        Some(hi) => norm(a.lo() << amount, hi, zeros),
        None => spread(width, zeros),
    }
}

/// To the left. By an unknown amount the trailing zeros stay.
#[tactic(auto, using(crate::proofs::RowBounds::zero_some), unfolding(crate::specs::AluRows::shifted_left))]
pub(crate) fn shifted_left(width: Width, a: Range, b: Range) -> Range
    ensures { result ≡ shifted_left width a b }
{
    if b.lo() == b.hi() {
        shifted_left_by(width, a, shift_amount(width, b.lo()))
    } else {
        spread(width, a.zeros())
    }
}

/// To the right, by a known amount from the least to the greatest.
#[tactic(auto, using(crate::proofs::RowBounds::zero_some), unfolding(crate::specs::AluRows::shifted_right))]
pub(crate) fn shifted_right(width: Width, a: Range, b: Range) -> Range
    ensures { result ≡ shifted_right width a b }
{
    if b.lo() == b.hi() {
        let amount = shift_amount(width, b.lo());
        norm(
            a.lo() >> amount,
            a.hi() >> amount,
            a.zeros().saturating_sub(amount),
        )
    } else {
        norm(0, a.hi(), 0)
    }
}

/// To the right with the sign: where that is clear, the same.
#[tactic(auto, using(crate::proofs::RowBounds::zero_some), unfolding(crate::specs::AluRows::shifted_signed))]
pub(crate) fn shifted_signed(width: Width, a: Range, b: Range) -> Range
    ensures { result ≡ shifted_signed width a b }
{
    if a.hi() <= top(width).hi() / 2 {
        shifted_right(width, a, b)
    } else {
        top(width)
    }
}
