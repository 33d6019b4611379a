//! What depends on the width of an operation alone.

ghost use Rattle.std.specs.Prelude.{◌≡◌, ◌-◌, ◌<◌, ◌≤◌, IfSome, IfNone};
ghost use Rattle.bpf_insn_types.specs.Words.{modulus};
ghost use Rattle.value_range.specs.Spans.{norm};

use crate::range::{Range, norm, top};
use bpf_insn_types::Width;

/// The number, where it is one of the width.
pub(crate) fn within(width: Width, number: u128) -> Option<u64>
    ensures some { IfSome result (λ n. (n ≡ number) × (n < modulus width)) }
    ensures none { IfNone result (modulus width ≤ number) }
{
    if number <= top(width).hi() as u128 {
        Some(number as u64)
    } else {
        None
    }
}

/// Every number of the width that has n trailing zeros.
#[tactic(auto, using(crate::proofs::RowBounds::zero_some))]
pub(crate) fn spread(width: Width, zeros: u32) -> Range
    requires { zeros ≤ 64 }
    ensures { result ≡ norm 0 (modulus width - 1) zeros }
{
    norm(0, top(width).hi(), zeros)
}
