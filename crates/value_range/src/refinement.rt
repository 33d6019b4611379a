//! The table of conditions on ranges.

ghost use Rattle.std.specs.Prelude.{◌≡◌, ℕ, ◌^◌, true, false, ◌&&◌, nat_lt, IfSome, IfNone};
ghost use Rattle.value_range.specs.{Spans.{IsSpan, Contains}, RefineRows.{says, refine_row, refined}};

use crate::comparisons::{different, equal, exchanged, greater, not_less, tested};
use crate::condition::Condition;
use crate::range::Range;
use bpf_insn_types::{Compare, Width};

/// The ranges of both operands where the condition holds. They contain every pair of words of a and b
/// that meets it; None where no pair does.
pub fn refine(condition: Condition, width: Width, a: Range, b: Range) -> Option<(Range, Range)>
    ensures equal { result ≡ refined condition width a b }
    ensures some { IfSome result (λ pair. (x y : ℕ) → Contains a x → Contains b y
        → says condition width x y ≡ true → Contains pair.0 x × Contains pair.1 y) }
    ensures none { IfNone result ((x y : ℕ) → Contains a x → Contains b y → says condition width x y ≡ false) }
{
    refined(condition, width, a, b)
}

/// The row of a condition; of ranges that aren't of 32 bits, at 32 bits, whether exact ones meet it.
#[tactic(auto, unfolding(crate::specs::RefineRows::refined))]
fn refined(condition: Condition, width: Width, a: Range, b: Range) -> Option<(Range, Range)>
    ensures equal { result ≡ refined condition width a b }
    ensures first { IsSpan a }
    ensures second { IsSpan b }
{
    let greatest = a.hi().max(b.hi());
    match width {
        Width::W32 => {
            if greatest < 0x1_0000_0000 {
                refine_row(condition, width, a, b)
            } else {
                tested(condition, width, a, b)
            }
        }
        Width::W64 => refine_row(condition, width, a, b),
    }
}

/// The row of a condition.
fn refine_row(condition: Condition, width: Width, a: Range, b: Range) -> Option<(Range, Range)>
    ensures { result ≡ refine_row condition width a b }
{
    match condition {
        Condition::Holds(Compare::Eq) => equal(a, b),
        Condition::Holds(Compare::Ne) => different(a, b),
        Condition::Holds(Compare::Gt) => greater(a, b),
        Condition::Holds(Compare::Ge) => not_less(a, b),
        Condition::Holds(Compare::Lt) => exchanged(greater(b, a)),
        Condition::Holds(Compare::Le) => exchanged(not_less(b, a)),
        Condition::Holds(_) => tested(condition, width, a, b),
        Condition::NotSet => tested(condition, width, a, b),
    }
}
