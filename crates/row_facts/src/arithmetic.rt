//! What operators leave of facts.

ghost use Rattle.std.specs.Prelude.{◌≡◌, ℕ, ◌%◌, ◌<◌, ◌^◌, true};
ghost use Rattle.bpf_insn_types.specs.{declared.insn.Width.TheVariants.{W32, W64}, Words.{alu}};
ghost use Rattle.value_range.specs.{Spans.{Contains}, AluRows.{meant}};
ghost use Rattle.row_facts.specs.Facts.{IsOnLine, IsSure, IsSumOfBits};

use crate::fact::{Fact, number, number_of, within};
use crate::lines::{Line, anything, cut, product, quotient, sum};
use bpf_insn_types::{AluOp, Width};
use value_range::{Operation, Range, alu};

/// Whether no bit may be set in both.
fn are_disjoint(first: Range, second: Range) -> bool
    ensures { result ≡ true → (x y : ℕ) → Contains first x → Contains second y → IsSumOfBits x y }
{
    second.hi() >> first.zeros().min(63) == 0 || first.hi() >> second.zeros().min(63) == 0
}

/// The line of products with a number, of shifts to the left or right by one, or of the bits that one has.
fn line_by_number(op: AluOp, line: Line, n: u64) -> Line
    ensures { (index x : ℕ) → IsOnLine line index x → x < 2 ^ 64 → IsOnLine result index (alu W64 op x n) }
{
    match op {
        AluOp::Mul => product(line, n),
        AluOp::Lsh => product(line, 1 << (n % 64)),
        AluOp::Rsh => quotient(line, (n % 64) as u32),
        AluOp::And => cut(line, (!n).trailing_zeros()),
        _ => anything(),
    }
}

/// The line of what an operator gives at 64 bits.
fn line_of(op: AluOp, first: Fact, second: Fact) -> Line
    ensures { (index x y : ℕ) → IsSure first index x → IsSure second index y → IsOnLine result index (alu W64 op x y) }
{
    match op {
        AluOp::Mov => second.line,
        AluOp::Add => sum(first.line, second.line),
        AluOp::Sub => sum(first.line, product(second.line, u64::MAX)),
        AluOp::Or | AluOp::Xor => {
            if are_disjoint(first.range, second.range) {
                sum(first.line, second.line)
            } else {
                anything()
            }
        }
        _ => match number_of(second.range) {
            Some(n) => line_by_number(op, first.line, n),
            None => anything(),
        },
    }
}

/// Whether an operator gives at 32 bits the lower half of what it gives at 64.
fn is_lower_half(op: AluOp, second: Range) -> bool
    ensures { result ≡ true → (x y : ℕ) → Contains second y → alu W32 op x y ≡ alu W64 op x y % 2 ^ 32 }
{
    match op {
        AluOp::Add | AluOp::Sub | AluOp::Mul | AluOp::Or | AluOp::And | AluOp::Xor | AluOp::Mov =>
            true,
        AluOp::Lsh => second.hi() < 32,
        _ => false,
    }
}

/// What is known of an operator's result at 32 bits, by the line of the one at 64.
fn computed_low(op: AluOp, first: Range, second: Range, line: Line) -> Fact
    ensures { (index x y : ℕ) → Contains first x → Contains second y → IsOnLine line index (alu W64 op x y) →
        IsSure result index (alu W32 op x y) }
{
    let range = alu(Operation::Alu(op), Width::W32, first, second);
    if !is_lower_half(op, second) {
        return within(range, anything());
    }
    let wide = alu(Operation::Alu(op), Width::W64, first, second);
    if wide.hi() < 0x1_0000_0000 {
        within(wide, line)
    } else {
        within(range, cut(line, 32))
    }
}

/// What is known of an operator's result.
pub(crate) fn computed(width: Width, op: AluOp, first: Fact, second: Fact) -> Fact
    ensures { (index x y : ℕ) → IsSure first index x → IsSure second index y →
        IsSure result index (alu width op x y) }
{
    let one = first.range;
    let two = second.range;
    let line = line_of(op, first, second);
    match width {
        Width::W64 => within(alu(Operation::Alu(op), Width::W64, one, two), line),
        Width::W32 => computed_low(op, one, two, line),
    }
}

/// What is known of the result of an operation on one value.
pub(crate) fn computed_of_one(operation: Operation, width: Width, value: Fact) -> Fact
    ensures { (index x : ℕ) → IsSure value index x → IsSure result index (meant operation width x x) }
{
    within(alu(operation, width, value.range, value.range), anything())
}
