//! Decimal numbers, each of which has one spelling.

ghost use Rattle.std.specs.Prelude.{◌≡◌, ◌≤◌, ℕ, IfOk, ◌&&◌, ◌||◌, ◌==◌, nat_lt, nat_le, if◌then◌else◌, IsTrue, Some};
ghost use Rattle.std.specs.{Prelude.{None, length, slice_index}, Char.{is_ascii_digit}, Fmt.{decimal}, List.{list_all}};
ghost use Rattle.bpf_text_lex.specs.Numbers.{is_numeral, is_negative, is_number, value_of, number_in};

use crate::text_error::TextFault;

/// Whether all bytes are decimal digits.
pub fn has_only_digits(word: &[u8]) -> bool
    ensures { result ≡ list_all is_ascii_digit word.now }
{
    word.iter().all(|b| b.is_ascii_digit())
}

/// Whether the word is one digit, or its first byte is above the digit 0.
fn has_no_zero_in_front(word: &[u8]) -> bool
    ensures { result ≡ ((length word.now == 1) || nat_lt 48 (slice_index word.now 0)) }
{
    word.len() == 1 || (!word.is_empty() && word[0] > b'0')
}

/// Whether the word is an unsigned number of any size: `0`, or digits without a zero in front.
pub fn is_numeral(word: &[u8]) -> bool
    ensures { result ≡ is_numeral word.now }
{
    has_only_digits(word) && has_no_zero_in_front(word)
}

/// Whether the word is a negative number of any size: a minus sign before digits without a zero in front.
pub fn is_negative(word: &[u8]) -> bool
    ensures { result ≡ is_negative word.now }
{
    word.len() > 1 && word[0] == b'-' && word[1] > b'0' && is_numeral(&word[1..])
}

/// Whether the word is a number of any size.
pub fn is_number(word: &[u8]) -> bool
    ensures { result ≡ is_number word.now }
{
    is_numeral(word) || is_negative(word)
}

/// The number that the digits spell, or None where it is above the limit.
fn value_up_to(digits: &[u8], limit: u64) -> Option<u64>
    requires { IsTrue (list_all is_ascii_digit digits.now) }
    ensures { result ≡ (if nat_le (value_of digits.now) limit then Some (value_of digits.now) else None) }
{
    let mut value: u64 = 0;
    for b in digits {
        let longer = u128::from(value) * 10 + u128::from(*b - b'0');
        if longer > u128::from(limit) {
            return None;
        }
        value = longer as u64;
    }
    Some(value)
}

/// The number of a field, by the cases of its definition.
fn number_in(word: &[u8], limit: u64) -> Result<u64, TextFault>
    ensures { result ≡ number_in limit word.now }
{
    if is_numeral(word) {
        return value_up_to(word, limit).ok_or(TextFault::Field);
    }
    if is_negative(word) {
        return Err(TextFault::Field);
    }
    Err(TextFault::Form)
}

/// The number of a field whose numbers are 0 to the limit. It is `Form` where the word is no number:
/// a number is `0` or digits without a zero in front, with a minus sign before it only where it isn't
/// 0. It is `Field` where the number is negative or above the limit.
pub fn read_number(word: &[u8], limit: u64) -> Result<u64, TextFault>
    ensures cases { result ≡ number_in limit word.now }

    // A number is read from its decimal digits, and from nothing else.
    ensures spelling { IfOk result (λ n. (word.now ≡ decimal n) × (n ≤ limit)) }
    ensures only { (n : ℕ) → n ≤ limit → word.now ≡ decimal n → result ≡ Ok n }
{
    number_in(word, limit)
}
