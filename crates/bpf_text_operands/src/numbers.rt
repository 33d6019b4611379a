//! Registers, numbers with a sign, and distances.

ghost use Rattle.std.specs.{Prelude.{◌≡◌, ◌≤◌, ◌<◌, ◌^◌, pos, neg_ℤ, IfOk, FitsSigned}, Int.{w16}};
ghost use Rattle.bpf_text_lex.specs.Numbers.{number_in};
ghost use Rattle.bpf_text_operands.specs.SignedNumbers.{is_register, register_at, back, signed_at, is_ahead};
ghost use Rattle.bpf_text_operands.specs.SignedNumbers.{is_offset, offset_at, distance_to};

use bpf_insn_types::Reg;
use bpf_text_lex::{TextFault, has_only_digits, is_negative, is_numeral, read_number};

/// Whether a word is an `r` and digits.
pub(crate) fn is_register(word: &[u8]) -> bool
    ensures { result ≡ is_register word.now }
{
    word.len() > 1 && word[0] == b'r' && has_only_digits(&word[1..])
}

/// The register that a word names.
pub(crate) fn register_at(word: &[u8]) -> Result<Reg, TextFault>
    ensures { result ≡ register_at word.now }
{
    if !is_register(word) {
        return Err(TextFault::Form);
    }
    match read_number(&word[1..], 10) {
        Ok(number) => Reg::new(number as u8).ok_or(TextFault::Register),
        Err(_) => Err(TextFault::Register),
    }
}

/// The negative of a number.
fn minus(number: u64) -> i32
    requires { number ≤ 2 ^ 31 }
    ensures { result ≡ neg_ℤ (pos number) }
{
    (-(number as i64)) as i32
}

/// The digits after a minus sign as a number down to a limit.
fn back(digits: &[u8], limit: u64) -> Result<i32, TextFault>
    requires { limit ≤ 2 ^ 31 }
    ensures value { result ≡ back (number_in limit digits.now) }
    ensures small { IfOk result (λ n. limit ≤ 2 ^ 15 → FitsSigned w16 n) }
{
    Ok(minus(read_number(digits, limit)?))
}

/// The number of a word, in a field of -bound to bound - 1.
pub(crate) fn signed_at(word: &[u8], bound: u64) -> Result<i32, TextFault>
    requires low { 0 < bound }
    requires high { bound ≤ 2 ^ 31 }
    ensures value { result ≡ signed_at bound word.now }
    ensures small { IfOk result (λ n. bound ≤ 2 ^ 15 → FitsSigned w16 n) }
{
    if is_negative(word) {
        return back(&word[1..], bound);
    }
    Ok(read_number(word, bound - 1)? as i32)
}

/// Whether a word is a plus sign and a number of any size.
fn is_ahead(word: &[u8]) -> bool
    ensures { result ≡ is_ahead word.now }
{
    !word.is_empty() && word[0] == b'+' && is_numeral(&word[1..])
}

/// Whether a word is a number of any size that has a sign.
pub(crate) fn is_offset(word: &[u8]) -> bool
    ensures { result ≡ is_offset word.now }
{
    is_negative(word) || is_ahead(word)
}

/// The number of a word, which has a sign, in a field of -bound to bound - 1.
pub(crate) fn offset_at(word: &[u8], bound: u64) -> Result<i32, TextFault>
    requires low { 0 < bound }
    requires high { bound ≤ 2 ^ 31 }
    ensures value { result ≡ offset_at bound word.now }
    ensures small { IfOk result (λ n. bound ≤ 2 ^ 15 → FitsSigned w16 n) }
{
    if is_negative(word) {
        return signed_at(word, bound);
    }
    if is_ahead(word) {
        return Ok(read_number(&word[1..], bound - 1)? as i32);
    }
    Err(TextFault::Form)
}

/// The distance from the slot after one slot to another, in a field of -bound to bound - 1.
pub(crate) fn distance_to(target: u32, bound: u64, slot: u32) -> Result<i32, TextFault>
    requires high { bound ≤ 2 ^ 31 }
    ensures value { result ≡ distance_to bound slot target }
    ensures small { IfOk result (λ n. bound ≤ 2 ^ 15 → FitsSigned w16 n) }
{
    let (slot, target) = (u64::from(slot), u64::from(target));
    if slot < target {
        let distance = target - slot - 1;
        if distance < bound {
            return Ok(distance as i32);
        }
    } else {
        let distance = slot + 1 - target;
        if distance <= bound {
            return Ok(minus(distance));
        }
    }
    Err(TextFault::Field)
}
