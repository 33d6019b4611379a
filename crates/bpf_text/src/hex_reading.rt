//! The hex form of a unit, read.

ghost use Rattle.std.specs.Prelude.{◌≡◌, ◌≤◌, ◌+◌, [], IfOk, vec_len};
ghost use Rattle.hex.specs.Hex.{decode_of};
ghost use Rattle.bpf_text_lex.specs.{Words.{words_of}, Refusals.{at_line, text_refusal}};
ghost use Rattle.bpf_insn_types.specs.Outcome.{MatchesUnlessMemory};
ghost use Rattle.bpf_text.specs.HexText.{as_bytes, bytes_of_lines, bytes_behind, hex_text};

use bpf_text_lex::{Lines, TextError, TextFault, next_word, read_head};
use hex::FromHexError;
use std::alloc::Global;
use std::marker::Model;

/// The most bytes of a unit's instructions: 4,096 slots of 8.
const MAX_BYTES: usize = 32_768;

/// What the hex form of a unit gives. In contracts it is its sizes and bytes.
#[derive(Drop)]
pub struct HexUnit {
    /// The number of elements of each map, map 0 first.
    pub sizes: Vec<u32>,
    /// The bytes of the instructions, of which no reader has said yet that they are any.
    pub bytes: Vec<u8>,
}

impl Model for HexUnit {
    ghost use Rattle.bpf_text.specs.HexText.{SizesAndBytes};

    ghost Value = { SizesAndBytes };

    ghost view = { λ u. record { sizes = u.sizes.items; bytes = u.bytes.items } };
}

/// The bytes of a word of hex digits, or the fault of its line.
fn read_digits(alloc: Global, word: &[u8], line: u32, before: usize) -> Result<Vec<u8>, TextError>
    requires { before ≤ 32768 }
    ensures meaning { MatchesUnlessMemory text_refusal (λ v. v.items) result
        (at_line line (as_bytes before (decode_of word.now))) }
    ensures room { IfOk result (λ v. before + vec_len v ≤ 32768) }
{
    match hex::decode(alloc, word) {
        Ok(bytes) => {
            if bytes.len() > MAX_BYTES - before {
                return Err(TextFault::TooLong.at(line));
            }
            Ok(bytes)
        }
        Err(FromHexError::OutOfMemory) => Err(TextError::Memory),
        Err(_) => Err(TextFault::Form.at(line)),
    }
}

/// The bytes that a line gives after this many bytes of the lines before it, or its fault.
fn read_bytes(alloc: Global, content: &[u8], line: u32, before: usize) -> Result<Vec<u8>, TextError>
    requires { before ≤ 32768 }
    ensures meaning { MatchesUnlessMemory text_refusal (λ v. v.items) result
        (at_line line (bytes_of_lines before (words_of content.now))) }
    ensures room { IfOk result (λ v. before + vec_len v ≤ 32768) }
{
    let Some((word, rest)) = next_word(content) else {
        return Err(TextFault::Form.at(line));
    };
    if next_word(rest).is_some() {
        return Err(TextFault::Form.at(line));
    }
    read_digits(alloc, word, line, before)
}

/// The bytes of lines.
fn read_lines(alloc: Global, lines: Lines<'_>) -> Result<Vec<u8>, TextError>
    ensures { MatchesUnlessMemory text_refusal (λ v. v.items) result (bytes_behind [] lines.entry) }
{
    let mut lines = lines;
    let mut bytes = Vec::new(alloc);
    while let Some(line) = lines.next() {
        let more = read_bytes(alloc, line.content, line.number, bytes.len())?;
        bytes.extend_from_slice(&more)?;
    }
    Ok(bytes)
}

/// The sizes and bytes of a unit in hex form: at most 1,048,576 bytes, a first line `maps` and the
/// sizes of 1 to 16 maps of at least 1 element and together at most 65,536, then lines of an even
/// number of hex digits in either case, at most 32,768 bytes in all. `;` begins a comment, and empty
/// lines are skipped.
///
/// The refusal is the least line over all faults of the text, and there the least fault: `TooLong` at
/// line 0, `Form` at line 0 where there is no first line, `Form`, `Field` for a size outside 0 to
/// 2^32 - 1, `TooLong` at the line that passes 32,768 bytes, `Limits` for sizes that break the limits.
/// `Memory` may come in place of any answer.
#[tactic(auto, unfolding(crate::specs::HexText::hex_parts_of))]
pub fn read_hex(alloc: Global, text: &str) -> Result<HexUnit, TextError>
    ensures { MatchesUnlessMemory text_refusal (λ u. u) result (hex_text text.now) }
{
    let mut lines = Lines::of(text)?;
    let Some(head) = lines.next() else {
        return Err(TextFault::Form.at(0));
    };
    let sizes = read_head(alloc, head.content, head.number)?;
    let bytes = read_lines(alloc, lines)?;
    Ok(HexUnit { sizes, bytes })
}
