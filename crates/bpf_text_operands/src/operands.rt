//! The operands of a line.

ghost use Rattle.std.specs.Prelude.{◌≡◌, ◌<◌, ◌≤◌, ◌-◌, ◌^◌, Some, None, IfSome, IfNone, IfOk, FitsSigned, length};
ghost use Rattle.std.specs.{Prelude.{position, ◌==◌}, Int.{w16}};
ghost use Rattle.bpf_text_operands.specs.{LabelTable.{label_slots}, Operands.{both_fit, all_fit}};
ghost use Rattle.bpf_text_operands.specs.SignedNumbers.{register_at, signed_at, offset_at, distance_at};
ghost use Rattle.bpf_text_operands.specs.Operands.{pair};
ghost use Rattle.bpf_text_operands.specs.Operands.{is_sign, is_bracketed, inside, base_part, offset_part, address_at};
ghost use Rattle.bpf_text_operands.specs.Operands.{value_at, cut_comma, both_at, operands_at, fits};

use crate::kind::{Kind, Kinds};
use crate::labels::Labels;
use crate::numbers::{distance_to, is_offset, is_register, offset_at, register_at, signed_at};
use bpf_text_lex::{Operands, TextFault, Value, is_name, is_number, read_number, trim};

/// The bound of distances and offsets of 16 bits, which lie from its negative to below it.
const NEAR: u64 = 1 << 15;

/// The bound of distances of 32 bits.
const FAR: u64 = 1 << 31;

/// Both, or the least fault.
fn pair<A: Copy, B: Copy>(
    a: Result<A, TextFault>,
    b: Result<B, TextFault>,
) -> Result<(A, B), TextFault>
    ensures { result ≡ pair a b }
{
    match (a, b) {
        (Ok(a), Ok(b)) => Ok((a, b)),
        (Ok(_), Err(fault)) | (Err(fault), Ok(_)) => Err(fault),
        (Err(fault), Err(other)) => Err(if fault.number() <= other.number() {
            fault
        } else {
            other
        }),
    }
}

/// Whether a byte is a sign.
fn is_sign(byte: u8) -> bool
    ensures { result ≡ is_sign byte }
{
    byte == b'+' || byte == b'-'
}

/// Where a text has its first sign.
fn sign_at(text: &[u8]) -> Option<usize>
    ensures { result ≡ position is_sign text.now }
{
    text.iter().position(|b| is_sign(*b))
}

/// Whether a word is between brackets.
fn is_bracketed(word: &[u8]) -> bool
    ensures { result ≡ is_bracketed word.now }
{
    word.len() > 1 && word[0] == b'[' && word[word.len() - 1] == b']'
}

/// What is between the brackets: the base, and the offset from its sign on.
fn split_address(word: &[u8]) -> (&[u8], &[u8])
    requires { 2 ≤ length word.now }
    ensures base { result.0.now ≡ base_part (inside word.now) }
    ensures offset { result.1.now ≡ offset_part (inside word.now) }
{
    let inside = &word[1..word.len() - 1];
    match sign_at(inside) {
        Some(at) => inside.split_at(at),
        None => (inside, &[]),
    }
}

/// A distance of 16 bits.
fn near(distance: Result<i32, TextFault>) -> Result<i16, TextFault>
    requires { IfOk distance (λ d. FitsSigned w16 d) }
    ensures { result ≡ distance }
{
    Ok(distance? as i16)
}

/// The memory that a word names.
fn address_at(word: &[u8]) -> Result<Value, TextFault>
    ensures { result ≡ address_at word.now }
{
    if !is_bracketed(word) {
        return Err(TextFault::Form);
    }
    let (base, offset) = split_address(word);
    let (base, offset) = pair(register_at(base), near(offset_at(offset, NEAR)))?;
    Ok(Value::Address(base, offset))
}

/// The distance of a word from a slot: a label, or a number with its sign.
fn distance_at(word: &[u8], bound: u64, labels: &Labels<'_>, slot: u32) -> Result<i32, TextFault>
    requires low { 0 < bound }
    requires high { bound ≤ 2 ^ 31 }
    ensures value { result ≡ distance_at (label_slots labels.now) bound slot word.now }
    ensures small { IfOk result (λ n. bound ≤ 2 ^ 15 → FitsSigned w16 n) }
{
    if !is_name(word) {
        return offset_at(word, bound);
    }
    match labels.get(word) {
        Some(label) => distance_to(label.slot, bound, slot),
        None => Err(TextFault::UnknownLabel),
    }
}

/// The operand of a kind that a word is at a slot.
fn value_at(kind: Kind, word: &[u8], labels: &Labels<'_>, slot: u32) -> Result<Value, TextFault>
    ensures { result ≡ value_at (label_slots labels.now) slot kind word.now }
{
    match kind {
        Kind::Reg => Ok(Value::Reg(register_at(word)?)),
        Kind::RegOrImm if is_register(word) => Ok(Value::Reg(register_at(word)?)),
        Kind::RegOrImm | Kind::Imm => Ok(Value::Imm(signed_at(word, FAR)?)),
        Kind::Wide => Ok(Value::Wide(read_number(word, u64::MAX)?)),
        Kind::Distance => Ok(Value::Distance(near(distance_at(word, NEAR, labels, slot))?)),
        Kind::FarDistance => Ok(Value::FarDistance(distance_at(word, FAR, labels, slot)?)),
        Kind::Address => address_at(word),
    }
}

/// Where a text has its first comma.
fn comma_at(text: &[u8]) -> Option<usize>
    ensures { result ≡ position (λ b. b == 44) text.now }
{
    text.iter().position(|b| *b == b',')
}

/// What is on both sides of a text's first comma.
fn cut_comma(text: &[u8]) -> Option<(&[u8], &[u8])>
    ensures some { IfSome result (λ x. cut_comma text.now ≡ Some (x.0.now, x.1.now)) }
    ensures none { IfNone result (cut_comma text.now ≡ None) }
{
    let at = comma_at(text)?;
    Some((&text[..at], &text[at + 1..]))
}

/// Two operands, with a comma between them.
fn both_at(
    kinds: (Kind, Kind),
    text: &[u8],
    labels: &Labels<'_>,
    slot: u32,
) -> Result<(Value, Value), TextFault>
    ensures { result ≡ both_at (label_slots labels.now) slot kinds.0 kinds.1 (cut_comma text.now) }
{
    match cut_comma(text) {
        Some((first, second)) => pair(
            value_at(kinds.0, trim(first), labels, slot),
            value_at(kinds.1, trim(second), labels, slot),
        ),
        None => Err(TextFault::Form),
    }
}

/// The operands of these kinds that a text is, parted by commas with blanks round them.
pub(crate) fn operands_at(
    kinds: Kinds,
    text: &[u8],
    labels: &Labels<'_>,
    slot: u32,
) -> Result<Operands, TextFault>
    ensures { result ≡ operands_at (label_slots labels.now) slot kinds text.now }
{
    match kinds {
        Kinds::Zero if text.is_empty() => Ok(Operands::Zero),
        Kinds::Zero => Err(TextFault::Form),
        Kinds::One(kind) => Ok(Operands::One(value_at(kind, trim(text), labels, slot)?)),
        Kinds::Two(first, second) => {
            let (a, b) = both_at((first, second), text, labels, slot)?;
            Ok(Operands::Two(a, b))
        }
        Kinds::Three(first, second, third) => {
            let Some((word, others)) = cut_comma(text) else {
                return Err(TextFault::Form);
            };
            let (a, (b, c)) = pair(
                value_at(first, trim(word), labels, slot),
                both_at((second, third), others, labels, slot),
            )?;
            Ok(Operands::Three(a, b, c))
        }
    }
}

/// Whether a word has the form of a kind, and its registers exist.
fn fits(kind: Kind, word: &[u8]) -> bool
    ensures { result ≡ fits kind word.now }
{
    match kind {
        Kind::Reg => register_at(word).is_ok(),
        Kind::RegOrImm if is_register(word) => register_at(word).is_ok(),
        Kind::RegOrImm | Kind::Imm | Kind::Wide => is_number(word),
        Kind::Distance | Kind::FarDistance => is_name(word) || is_offset(word),
        Kind::Address if is_bracketed(word) => {
            let (base, offset) = split_address(word);
            register_at(base).is_ok() && is_offset(offset)
        }
        Kind::Address => false,
    }
}

/// Whether two operands with a comma between them have the forms of their kinds, and their registers exist.
fn both_fit(kinds: (Kind, Kind), text: &[u8]) -> bool
    ensures { result ≡ both_fit kinds.0 kinds.1 (cut_comma text.now) }
{
    match cut_comma(text) {
        Some((first, second)) => fits(kinds.0, trim(first)) && fits(kinds.1, trim(second)),
        None => false,
    }
}

/// Whether a text has the form of operands of these kinds, and its registers exist.
pub(crate) fn all_fit(kinds: Kinds, text: &[u8]) -> bool
    ensures { result ≡ all_fit kinds text.now }
{
    match kinds {
        Kinds::Zero => text.is_empty(),
        Kinds::One(kind) => fits(kind, trim(text)),
        Kinds::Two(first, second) => both_fit((first, second), text),
        Kinds::Three(first, second, third) => match cut_comma(text) {
            Some((word, others)) => fits(first, trim(word)) && both_fit((second, third), others),
            None => false,
        },
    }
}
