//! Operations of one operand.

ghost use Rattle.std.specs.Prelude.{◌≡◌, ◌/◌};
ghost use Rattle.bpf_insn_types.specs.Words.{low_modulus, endian_modulus};
ghost use Rattle.value_range.specs.AluRows.{low32, negative, extended_range, little, ordered, top_bits};

use crate::range::{Range, exact, norm, top};
use crate::widths::spread;
use bpf_insn_types::{ByteOrder, EndianBits, MovsxBits, Width};

/// Numbers of 32 bits in place of those that may be greater.
#[tactic(auto, unfolding(crate::specs::AluRows::low32))]
pub(crate) fn low32(range: Range) -> Range
    ensures { result ≡ low32 range }
{
    if range.hi() < 0x1_0000_0000 {
        range
    } else if range.lo() == range.hi() {
        exact(range.lo() % 0x1_0000_0000)
    } else {
        top(Width::W32)
    }
}

/// The negative, of which the trailing zeros are known.
#[tactic(auto, using(crate::proofs::RowBounds::zero_some), unfolding(crate::specs::AluRows::negative))]
pub(crate) fn negative(width: Width, a: Range) -> Range
    ensures { result ≡ negative width a }
{
    spread(width, a.zeros())
}

/// A sign-extending move: where the sign is clear, the operand.
#[tactic(auto, using(crate::proofs::RowBounds::zero_some), unfolding(crate::specs::AluRows::extended_range))]
pub(crate) fn extended(width: Width, bits: MovsxBits, b: Range) -> Range
    ensures { result ≡ extended_range width bits b }
{
    if b.hi() < sign_bit(bits) {
        b
    } else {
        top(width)
    }
}

/// The number of the sign bit alone.
fn sign_bit(bits: MovsxBits) -> u64
    ensures { result ≡ low_modulus bits / 2 }
{
    match bits {
        MovsxBits::B8 => 0x80,
        MovsxBits::B16 => 0x8000,
        MovsxBits::B32 => 0x8000_0000,
    }
}

/// The low bits in a byte order: reversed nothing is known.
pub(crate) fn ordered(order: ByteOrder, bits: EndianBits, a: Range) -> Range
    ensures { result ≡ ordered order bits a }
{
    match order {
        ByteOrder::Le => little(bits, a),
        ByteOrder::Be => every(bits),
        ByteOrder::Swap => every(bits),
    }
}

/// The low bits as they stand.
#[tactic(auto, using(crate::proofs::RowBounds::zero_some), unfolding(crate::specs::AluRows::little))]
fn little(bits: EndianBits, a: Range) -> Range
    ensures { result ≡ little bits a }
{
    let all = every(bits);
    if a.hi() <= all.hi() { a } else { all }
}

/// Every number of n bits.
#[tactic(auto, using(crate::proofs::RowBounds::zero_some))]
fn every(bits: EndianBits) -> Range
    ensures { result ≡ top_bits bits }
{
    match bits {
        EndianBits::B16 => norm(0, 0xffff, 0),
        EndianBits::B32 => top(Width::W32),
        EndianBits::B64 => top(Width::W64),
    }
}
