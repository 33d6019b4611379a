//! How many bytes an access has.

ghost use Rattle.std.specs.Prelude.{◌≡◌, ◌≤◌};
ghost use Rattle.bpf_insn_types.specs.Sizes.{bytes_of, atomic_bytes};

use bpf_insn_types::{Size, Width};

/// The bytes of a size (RFC 9669, section 5).
pub fn bytes_of(size: Size) -> u32
    ensures bytes { result ≡ bytes_of size }
    ensures some { 1 ≤ result }
    ensures most { result ≤ 8 }
{
    match size {
        Size::B => 1,
        Size::H => 2,
        Size::W => 4,
        Size::Dw => 8,
    }
}

/// The bytes of an atomic access (RFC 9669, section 5.3).
pub fn atomic_bytes(width: Width) -> u32
    ensures bytes { result ≡ atomic_bytes width }
    ensures some { 1 ≤ result }
    ensures most { result ≤ 8 }
{
    match width {
        Width::W32 => 4,
        Width::W64 => 8,
    }
}
