//! The bytes of BPF programs, and back, in the terms of RFC 9669. Each program has one spelling in
//! bytes, and no bytes spell two programs.
//!
//! ```text
//! let insns = decode(alloc, b"\x95\0\0\0\0\0\0\0")?;    // [Insn::Exit]
//! let bytes = encode(alloc, &insns)?;                   // the same 8 bytes
//! let cut = decode(alloc, b"\x95\0\0\0\0\0\0");        // CodecFault::Incomplete at slot 0
//! let unknown = decode(alloc, b"\x8d\0\0\0\0\0\0\0");   // CodecFault::UnknownOpcode at slot 0, printed as I2
//! ```
#![tactic(auto)]

mod codec_error;
mod decoding;
mod encoding;
mod form;
pub mod laws;
mod slot;

pub use bpf_insn_types::{
    AluOp, AtomicOp, ByteOrder, Callee, Compare, EndianBits, ImmKind, Insn, MovsxBits, Operand,
    Reg, SimpleOp, Size, Unit, Width, slots,
};
pub use codec_error::{CodecError, CodecFault};
pub use decoding::decode;
pub use encoding::encode;
