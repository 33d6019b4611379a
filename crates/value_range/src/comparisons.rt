//! The rows of conditions, a function a row.

ghost use Rattle.std.specs.Prelude.{◌≡◌, ◌≢◌};
ghost use Rattle.value_range.specs.RefineRows.{equal, without, different, greater, not_less, swapped, tested};

use crate::bounds::round_down;
use crate::condition::Condition;
use crate::range::{Range, norm};
use bpf_insn_types::Width;

/// Equal: what both have in common.
#[tactic(auto, unfolding(crate::specs::RefineRows::equal))]
pub(crate) fn equal(a: Range, b: Range) -> Option<(Range, Range)>
    ensures { result ≡ equal a b }
{
    let zeros = a.zeros().max(b.zeros());
    let lo = a.lo().max(b.lo());
    let hi = round_down(a.hi().min(b.hi()), zeros);
    if hi < lo {
        return None;
    }
    let common = norm(lo, hi, zeros);
    Some((common, common))
}

/// Unequal: an exact one is cut off an end of the other.
#[tactic(auto, unfolding(crate::specs::RefineRows::different))]
pub(crate) fn different(a: Range, b: Range) -> Option<(Range, Range)>
    ensures { result ≡ different a b }
{
    let first = a.lo() == a.hi();
    let second = b.lo() == b.hi();
    if first && second {
        if a.lo() == b.lo() { None } else { Some((a, b)) }
    } else if first {
        Some((a, without(a.lo(), b)))
    } else if second {
        Some((without(b.lo(), a), b))
    } else {
        Some((a, b))
    }
}

/// A range of several words without a number at one of its ends.
#[tactic(auto, unfolding(crate::specs::RefineRows::without))]
fn without(number: u64, range: Range) -> Range
    requires { range.lo ≢ range.hi }
    ensures { result ≡ without number range }
{
    if range.lo() == number {
        norm(range.lo() + (1 << range.zeros()), range.hi(), range.zeros())
    } else if range.hi() == number {
        norm(range.lo(), range.hi() - (1 << range.zeros()), range.zeros())
    } else {
        range
    }
}

/// Greater: the first is above the second's least word, the second below the first's greatest.
#[tactic(auto, unfolding(crate::specs::RefineRows::greater))]
pub(crate) fn greater(a: Range, b: Range) -> Option<(Range, Range)>
    ensures { result ≡ greater a b }
{
    if a.hi() <= b.lo() {
        return None;
    }
    let first = norm(a.lo().max(b.lo() + 1), a.hi(), a.zeros());
    let second = norm(b.lo(), b.hi().min(a.hi() - 1), b.zeros());
    Some((first, second))
}

/// Not less: the first isn't below the second's least word, nor the second above the first's greatest.
#[tactic(auto, unfolding(crate::specs::RefineRows::not_less))]
pub(crate) fn not_less(a: Range, b: Range) -> Option<(Range, Range)>
    ensures { result ≡ not_less a b }
{
    if a.hi() < b.lo() {
        return None;
    }
    let first = norm(a.lo().max(b.lo()), a.hi(), a.zeros());
    let second = norm(b.lo(), b.hi().min(a.hi()), b.zeros());
    Some((first, second))
}

/// The operands exchanged.
pub(crate) fn exchanged(refined: Option<(Range, Range)>) -> Option<(Range, Range)>
    ensures { result ≡ swapped refined }
{
    match refined {
        None => None,
        Some((second, first)) => Some((first, second)),
    }
}

/// Any condition: whether two exact ranges meet it.
#[tactic(auto, unfolding(crate::specs::RefineRows::tested))]
pub(crate) fn tested(
    condition: Condition,
    width: Width,
    a: Range,
    b: Range,
) -> Option<(Range, Range)>
    ensures { result ≡ tested condition width a b }
{
    let are_exact = a.lo() == a.hi() && b.lo() == b.hi();
    if are_exact && !condition.says(width, a.lo(), b.lo()) {
        None
    } else {
        Some((a, b))
    }
}
