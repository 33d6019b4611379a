//! Sign-extending moves.

ghost use Rattle.std.specs.Prelude.{◌≡◌, ◌+◌};
ghost use Rattle.bpf_insn_types.specs.Words.{moved_signed, low_modulus};

use crate::insn::{MovsxBits, Width};
use crate::widths::greatest;

/// The low 8, 16 or 32 bits of a word, sign-extended to the width; at 32 bits the upper half is
/// cleared (RFC 9669, section 4.1, MOVSX).
pub fn movsx_word(width: Width, bits: MovsxBits, b: u64) -> u64
    ensures { result ≡ moved_signed width bits b }
{
    let low = greatest_low(bits);
    let number = b % (low + 1);
    if number <= low / 2 {
        number
    } else {
        number + (greatest(width) - low)
    }
}

/// The greatest number of n low bits.
fn greatest_low(bits: MovsxBits) -> u64
    ensures { result + 1 ≡ low_modulus bits }
{
    match bits {
        MovsxBits::B8 => 0xff,
        MovsxBits::B16 => 0xffff,
        MovsxBits::B32 => 0xffff_ffff,
    }
}
