//! What depends on the width of an operation alone.

ghost use Rattle.std.specs.Prelude.{◌≡◌, ◌+◌, ◌%◌, ◌<◌};
ghost use Rattle.bpf_insn_types.specs.Words.{modulus, shift, signed};

use crate::insn::Width;

/// The low 32 or 64 bits of a word, the others cleared.
pub(crate) fn low_part(width: Width, a: u64) -> u64
    ensures { result ≡ a % modulus width }
{
    match width {
        Width::W32 => a % 0x1_0000_0000,
        Width::W64 => a,
    }
}

/// The greatest number of the width.
pub(crate) fn greatest(width: Width) -> u64
    ensures { result + 1 ≡ modulus width }
{
    match width {
        Width::W32 => 0xffff_ffff,
        Width::W64 => 0xffff_ffff_ffff_ffff,
    }
}

/// By how many bits a shift moves: its amount modulo the number of bits (RFC 9669, section 4.1).
pub fn shift_amount(width: Width, amount: u64) -> u32
    ensures equal { result ≡ shift width amount }
    ensures below { result < 64 }
{
    match width {
        Width::W32 => (amount % 32) as u32,
        Width::W64 => (amount % 64) as u32,
    }
}

/// A number of the width, read as signed.
pub(crate) fn signed_value(width: Width, a: u64) -> i64
    requires { a < modulus width }
    ensures { result ≡ signed width a }
{
    match width {
        Width::W32 => (a as u32).cast_signed() as i64,
        Width::W64 => a.cast_signed(),
    }
}
