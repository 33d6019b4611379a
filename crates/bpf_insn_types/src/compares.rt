//! The tests of conditional jumps.

ghost use Rattle.std.specs.Prelude.{◌≡◌, ◌<◌};
ghost use Rattle.bpf_insn_types.specs.Words.{modulus, compared, holds};

use crate::insn::{Compare, Width};
use crate::widths::{low_part, signed_value};

/// Whether the test of a conditional jump holds for two words: at 32 bits for their lower halves
/// (RFC 9669, section 4.3).
pub fn compare_words(width: Width, compare: Compare, a: u64, b: u64) -> bool
    ensures { result ≡ holds width compare a b }
{
    compare_numbers(width, compare, low_part(width, a), low_part(width, b))
}

/// The same for two numbers of the width.
fn compare_numbers(width: Width, compare: Compare, a: u64, b: u64) -> bool
    requires first { a < modulus width }
    requires second { b < modulus width }
    ensures { result ≡ compared width compare a b }
{
    match compare {
        Compare::Eq => a == b,
        Compare::Gt => a > b,
        Compare::Ge => a >= b,
        Compare::Set => a & b != 0,
        Compare::Ne => a != b,
        Compare::Sgt => signed_value(width, a) > signed_value(width, b),
        Compare::Sge => signed_value(width, a) >= signed_value(width, b),
        Compare::Lt => a < b,
        Compare::Le => a <= b,
        Compare::Slt => signed_value(width, a) < signed_value(width, b),
        Compare::Sle => signed_value(width, a) <= signed_value(width, b),
    }
}
