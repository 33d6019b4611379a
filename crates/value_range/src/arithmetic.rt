//! The table of operations on ranges.

ghost use Rattle.std.specs.Prelude.{◌≡◌, ℕ};
ghost use Rattle.value_range.specs.{Spans.{IsSpan, Contains}, AluRows.{of_operands, span_of}};
ghost use Rattle.value_range.specs.AluRows.{meant, range_at_width, operand, alu_row, row, alu_reads_exact, reads_exact};

use crate::bits::{common_bits, other_bits, with_bits};
use crate::moves::{extended, low32, negative, ordered};
use crate::operation::Operation;
use crate::quotients::{divided, left_over};
use crate::range::{Range, exact, top};
use crate::shifts::{shifted_left, shifted_right, shifted_signed};
use crate::sums::{added, multiplied, subtracted};
use bpf_insn_types::{AluOp, Width, alu_word, endian_word, movsx_word, neg_word, results_fit};

/// What an operation leaves: the meaning of exact operands, or the operation's row. It contains the
/// result of every pair of words in the operands.
pub fn alu(operation: Operation, width: Width, a: Range, b: Range) -> Range
    ensures equal { result ≡ span_of operation width a b }
    ensures contains { (x y : ℕ) → Contains a x → Contains b y → Contains result (meant operation width x y) }
{
    results_fit();
    let first = operand(operation, width, a);
    let second = operand(operation, width, b);
    of_operands(operation, width, first, second)
}

/// An operand, save of byte orders a number of the width.
fn operand(operation: Operation, width: Width, range: Range) -> Range
    ensures { result ≡ operand operation width range }
{
    match operation {
        Operation::Alu(_) => operand_of(width, range),
        Operation::Neg => operand_of(width, range),
        Operation::Movsx(_) => operand_of(width, range),
        Operation::Endian(_, _) => range,
    }
}

fn operand_of(width: Width, range: Range) -> Range
    ensures { result ≡ range_at_width width range }
{
    match width {
        Width::W32 => low32(range),
        Width::W64 => range,
    }
}

/// Of exact operands the meaning, else the row.
#[tactic(auto, unfolding(crate::specs::AluRows::of_operands))]
fn of_operands(operation: Operation, width: Width, a: Range, b: Range) -> Range
    ensures equal { result ≡ of_operands operation width a b }
    ensures first { IsSpan a }
    ensures second { IsSpan b }
{
    if reads_exact(operation, a, b) {
        exact(meaning(operation, width, a.lo(), b.lo()))
    } else {
        row(operation, width, a, b)
    }
}

/// What an operation gives of two words.
fn meaning(operation: Operation, width: Width, a: u64, b: u64) -> u64
    ensures { result ≡ meant operation width a b }
{
    match operation {
        Operation::Alu(op) => alu_word(width, op, a, b),
        Operation::Neg => neg_word(width, a),
        Operation::Movsx(bits) => movsx_word(width, bits, b),
        Operation::Endian(order, bits) => endian_word(order, bits, a),
    }
}

/// Whether all operands that an operation reads are exact.
fn reads_exact(operation: Operation, a: Range, b: Range) -> bool
    ensures equal { result ≡ reads_exact operation a b }
    ensures first { IsSpan a }
    ensures second { IsSpan b }
{
    let first = a.lo() == a.hi();
    let second = b.lo() == b.hi();
    match operation {
        Operation::Alu(AluOp::Mov) => second,
        Operation::Alu(_) => first && second,
        Operation::Neg => first,
        Operation::Movsx(_) => second,
        Operation::Endian(_, _) => first,
    }
}

/// The row of an operation.
fn row(operation: Operation, width: Width, a: Range, b: Range) -> Range
    ensures { result ≡ row operation width a b }
{
    match operation {
        Operation::Alu(op) => alu_row(op, width, a, b),
        Operation::Neg => negative(width, a),
        Operation::Movsx(bits) => extended(width, bits, b),
        Operation::Endian(order, bits) => ordered(order, bits, a),
    }
}

/// The row of an operator.
fn alu_row(op: AluOp, width: Width, a: Range, b: Range) -> Range
    ensures { result ≡ alu_row op width a b }
{
    match op {
        AluOp::Add => added(width, a, b),
        AluOp::Sub => subtracted(width, a, b),
        AluOp::Mul => multiplied(width, a, b),
        AluOp::Div => divided(a, b),
        AluOp::Mod => left_over(a, b),
        AluOp::Sdiv => top(width),
        AluOp::Smod => top(width),
        AluOp::Or => with_bits(a, b),
        AluOp::And => common_bits(a, b),
        AluOp::Xor => other_bits(a, b),
        AluOp::Lsh => shifted_left(width, a, b),
        AluOp::Rsh => shifted_right(width, a, b),
        AluOp::Arsh => shifted_signed(width, a, b),
        AluOp::Mov => b,
    }
}
