//! Lines of numbers.

ghost use Rattle.std.specs.{Prelude.{◌≡◌, ◌<◌, ◌-◌, ◌^◌, All, IfOk}, List.{list_all}};
ghost use Rattle.bpf_text_lex.specs.{Words.{words_of}, Refusals.{at_line, text_refusal}};
ghost use Rattle.bpf_text_lex.specs.{Numbers.{is_number, number_in}, Fields.{numbers_in, fields_of, fields_after}};
ghost use Rattle.bpf_insn_types.specs.Outcome.{MatchesUnlessMemory};

use crate::numbers::{is_number, read_number};
use crate::text_error::{TextError, TextFault};
use crate::words::{Words, next_word};
use std::alloc::{AllocError, Global};

/// Whether each word of a line is a number of any size.
fn are_numbers(words: Words<'_>) -> bool
    ensures { result ≡ list_all is_number words.entry }
{
    let mut words = words;
    while let Some(word) = words.next() {
        if !is_number(word) {
            return false;
        }
    }
    true
}

/// The number of a field whose numbers are 0 to the limit.
fn read_field(word: &[u8], limit: u64, line: u32) -> Result<u64, TextError>
    ensures { MatchesUnlessMemory text_refusal (λ n. n) result (at_line line (number_in limit word.now)) }
{
    match read_number(word, limit) {
        Ok(number) => Ok(number),
        Err(fault) => Err(fault.at(line)),
    }
}

/// The numbers of a line's words, each in a field of 0 to the limit, or the first fault.
fn read_numbers(
    alloc: Global,
    words: Words<'_>,
    limit: u64,
    line: u32,
) -> Result<Vec<u64>, TextError>
    ensures { MatchesUnlessMemory text_refusal (λ v. v.items) result (at_line line (numbers_in limit words.entry)) }
{
    let mut words = words;
    let mut numbers = Vec::new(alloc);
    while let Some(word) = words.next() {
        numbers.push(read_field(word, limit, line)?)?;
    }
    Ok(numbers)
}

/// The numbers of a line's words, each in a field of 0 to the limit. A word that is no number is
/// found before one outside its field.
pub fn read_fields(
    alloc: Global,
    words: &[u8],
    limit: u64,
    line: u32,
) -> Result<Vec<u64>, TextError>
    ensures { MatchesUnlessMemory text_refusal (λ v. v.items) result
        (at_line line (fields_of limit (words_of words.now))) }
{
    if !are_numbers(Words::of(words)) {
        return Err(TextFault::Form.at(line));
    }
    read_numbers(alloc, Words::of(words), limit, line)
}

/// The same numbers as `u32`.
fn narrowed(alloc: Global, numbers: &[u64]) -> Result<Vec<u32>, AllocError>
    requires { All (λ n. n < 2 ^ 32) numbers.now }
    ensures { IfOk result (λ v. v.items ≡ numbers.now) }
{
    let mut narrow = Vec::new(alloc);
    for number in numbers {
        narrow.push(*number as u32)?;
    }
    Ok(narrow)
}

/// The numbers after a line's first word, which has to be this one, each in a field of 32 bits. A word
/// that is no number is found before one outside its field.
pub fn read_fields_after(
    alloc: Global,
    first: &[u8],
    content: &[u8],
    line: u32,
) -> Result<Vec<u32>, TextError>
    ensures { MatchesUnlessMemory text_refusal (λ v. v.items) result
        (at_line line (fields_after first.now (words_of content.now))) }
{
    match next_word(content) {
        Some((word, rest)) if word == first => {
            let numbers = read_fields(alloc, rest, u64::from(u32::MAX), line)?;
            Ok(narrowed(alloc, &numbers)?)
        }
        _ => Err(TextFault::Form.at(line)),
    }
}
