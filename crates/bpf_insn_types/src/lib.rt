//! The instructions of a BPF program as a type, in the terms of RFC 9669; a program with the maps that it declares,
//! and the limits of both; and what operators, byte orders and comparisons compute on words, at both widths.
#![tactic(auto)]

mod arithmetic;
mod byte_orders;
mod compares;
pub mod extension;
pub mod insn;
pub mod limits;
mod moves;
pub mod reg;
pub mod unit;
mod widths;

ghost use Rattle.bpf_insn_types.specs.{WordBounds.{ResultsFit}, WordRows.{WordRows}};

pub use arithmetic::{alu_word, neg_word};
pub use byte_orders::endian_word;
pub use compares::compare_words;
pub use extension::Extension;
pub use insn::{
    AluOp, AtomicOp, ByteOrder, Callee, Compare, EndianBits, ImmKind, Insn, MovsxBits, Operand,
    SimpleOp, Size, Width, slots,
};
pub use limits::{
    FRAME_BYTES, MAX_ELEMENTS, MAX_ITERATIONS, MAX_MAPS, MAX_OFFSET, MAX_SLOTS, elements_of,
    slot_count,
};
pub use moves::movsx_word;
pub use reg::Reg;
pub use unit::Unit;
pub use widths::shift_amount;

/// The definitions give the values that RFC 9669 asks for, on a row for each operator, byte order
/// and comparison. Nothing runs here: the contract is the law.
pub fn worked_words()
    ensures { WordRows }
{}

/// The law of ranges: every result at 32 bits is below 2^32 and at 64 bits below 2^64, whatever the
/// operands, and a byte order's result is below 2 to the power of its bits.
pub fn results_fit()
    ensures { ResultsFit }
{}
