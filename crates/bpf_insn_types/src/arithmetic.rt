//! Arithmetic on words.

ghost use Rattle.std.specs.Prelude.{◌≡◌, ◌<◌};
ghost use Rattle.bpf_insn_types.specs.Words.{modulus, quotient, remainder, signed_quotient, signed_remainder};
ghost use Rattle.bpf_insn_types.specs.Words.{arithmetic_shift, computed, alu, negated, shift};

use crate::insn::{AluOp, Width};
use crate::widths::{greatest, low_part, shift_amount, signed_value};

/// What a register has after an operation on two words: at 32 bits the lower halves count, and the
/// upper half of the result is cleared (RFC 9669, section 4.1).
pub fn alu_word(width: Width, op: AluOp, a: u64, b: u64) -> u64
    ensures { result ≡ alu width op a b }
{
    compute(width, op, low_part(width, a), low_part(width, b))
}

/// The negative of a word, modulo the width (RFC 9669, section 4.1).
pub fn neg_word(width: Width, a: u64) -> u64
    ensures { result ≡ negated width a }
{
    low_part(width, 0u64.wrapping_sub(a))
}

/// An operator on two numbers of the width.
fn compute(width: Width, op: AluOp, a: u64, b: u64) -> u64
    requires first { a < modulus width }
    requires second { b < modulus width }
    ensures { result ≡ computed width op a b }
{
    match op {
        AluOp::Add => low_part(width, a.wrapping_add(b)),
        AluOp::Sub => low_part(width, a.wrapping_sub(b)),
        AluOp::Mul => low_part(width, a.wrapping_mul(b)),
        AluOp::Div => divide(a, b),
        AluOp::Sdiv => divide_signed(width, a, b),
        AluOp::Or => a | b,
        AluOp::And => a & b,
        AluOp::Lsh => low_part(width, a << shift_amount(width, b)),
        AluOp::Rsh => a >> shift_amount(width, b),
        AluOp::Mod => take_remainder(a, b),
        AluOp::Smod => take_signed_remainder(width, a, b),
        AluOp::Xor => a ^ b,
        AluOp::Mov => b,
        AluOp::Arsh => shift_signed(width, a, b),
    }
}

/// By zero it is 0.
fn divide(a: u64, b: u64) -> u64
    ensures { result ≡ quotient a b }
{
    if b == 0 { 0 } else { a / b }
}

/// By zero the dividend stays.
fn take_remainder(a: u64, b: u64) -> u64
    ensures { result ≡ remainder a b }
{
    if b == 0 { a } else { a % b }
}

/// Rounds toward zero. By zero it is 0, and the least number by -1 is itself.
fn divide_signed(width: Width, a: u64, b: u64) -> u64
    requires first { a < modulus width }
    requires second { b < modulus width }
    ensures { result ≡ signed_quotient width a b }
{
    if b == 0 {
        return 0;
    }
    let quotient = signed_value(width, a).wrapping_div(signed_value(width, b));
    low_part(width, quotient.cast_unsigned())
}

/// Has the dividend's sign. By zero the dividend stays, and the least number by -1 leaves 0.
fn take_signed_remainder(width: Width, a: u64, b: u64) -> u64
    requires first { a < modulus width }
    requires second { b < modulus width }
    ensures { result ≡ signed_remainder width a b }
{
    if b == 0 {
        return a;
    }
    let remainder = signed_value(width, a).wrapping_rem(signed_value(width, b));
    low_part(width, remainder.cast_unsigned())
}

/// Brings in the sign bit: of a negative number the complement is shifted.
fn shift_signed(width: Width, a: u64, b: u64) -> u64
    requires { a < modulus width }
    ensures { result ≡ arithmetic_shift (modulus width) a (shift width b) }
{
    let top = greatest(width);
    let amount = shift_amount(width, b);
    if a <= top / 2 {
        a >> amount
    } else {
        top - ((top - a) >> amount)
    }
}
