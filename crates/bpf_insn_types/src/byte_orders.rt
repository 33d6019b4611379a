//! The order of a word's low bytes, on a little-endian host.

ghost use Rattle.std.specs.{Prelude.{◌≡◌, ◌%◌}, Int.{swap_bytes}};
ghost use Rattle.bpf_insn_types.specs.Words.{in_order, endian_modulus, endian_integers};

use crate::insn::{ByteOrder, EndianBits};

/// The low 16, 32 or 64 bits of a word, as they stand for little endian and with their bytes
/// reversed for big endian and for a swap; the other bits are cleared (RFC 9669, section 4.2).
pub fn endian_word(order: ByteOrder, bits: EndianBits, a: u64) -> u64
    ensures { result ≡ in_order order bits a }
{
    match order {
        ByteOrder::Le => low_bits(bits, a),
        ByteOrder::Be => reversed(bits, a),
        ByteOrder::Swap => reversed(bits, a),
    }
}

/// The low bits, the others cleared.
fn low_bits(bits: EndianBits, a: u64) -> u64
    ensures { result ≡ a % endian_modulus bits }
{
    match bits {
        EndianBits::B16 => a % 0x1_0000,
        EndianBits::B32 => a % 0x1_0000_0000,
        EndianBits::B64 => a,
    }
}

/// The low bits, their bytes reversed.
fn reversed(bits: EndianBits, a: u64) -> u64
    ensures { result ≡ swap_bytes (endian_integers bits) (a % endian_modulus bits) }
{
    match bits {
        EndianBits::B16 => ((a % 0x1_0000) as u16).swap_bytes() as u64,
        EndianBits::B32 => ((a % 0x1_0000_0000) as u32).swap_bytes() as u64,
        EndianBits::B64 => a.swap_bytes(),
    }
}
