//! Sums, differences and products.

ghost use Rattle.std.specs.Prelude.{◌≡◌, ◌<◌};
ghost use Rattle.bpf_insn_types.specs.Words.{modulus};
ghost use Rattle.value_range.specs.AluRows.{added, subtracted, multiplied};

use crate::range::{Range, norm};
use crate::widths::{spread, within};
use bpf_insn_types::Width;

/// Where no sum wraps, from the least to the greatest.
#[tactic(auto, using(crate::proofs::RowBounds::added_some), unfolding(crate::specs::AluRows::added))]
pub(crate) fn added(width: Width, a: Range, b: Range) -> Range
    ensures { result ≡ added width a b }
{
    let zeros = a.zeros().min(b.zeros());
    match within(width, a.hi() as u128 + b.hi() as u128) {
        Some(hi) => norm(a.lo() + b.lo(), hi, zeros),
        None => spread(width, zeros),
    }
}

/// Where no difference wraps, from the least to the greatest.
#[tactic(auto, using(crate::proofs::RowBounds::subtracted_some), unfolding(crate::specs::AluRows::subtracted))]
pub(crate) fn subtracted(width: Width, a: Range, b: Range) -> Range
    ensures { result ≡ subtracted width a b }
{
    let zeros = a.zeros().min(b.zeros());
    if a.lo() >= b.hi() {
        norm(a.lo() - b.hi(), a.hi() - b.lo(), zeros)
    } else {
        spread(width, zeros)
    }
}

/// Where no product wraps, from the least to the greatest.
#[tactic(auto, using(crate::proofs::RowBounds::multiplied_some), unfolding(crate::specs::AluRows::multiplied))]
pub(crate) fn multiplied(width: Width, a: Range, b: Range) -> Range
    ensures { result ≡ multiplied width a b }
{
    let zeros = (a.zeros() + b.zeros()).min(64);
    match within(width, a.hi() as u128 * b.hi() as u128) {
        Some(hi) => norm(a.lo() * b.lo(), hi, zeros),
        None => spread(width, zeros),
    }
}
