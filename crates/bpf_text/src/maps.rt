//! The values of maps as a text.

ghost use Rattle.std.specs.Prelude.{◌≡◌, ◌≤◌, ◌<◌, ◌+◌, ◌-◌, ◌^◌, length, IsTrue, IfOk, vec_len, [], ◌∷◌, slice_index};
ghost use Rattle.std.specs.Prelude.{◌==◌};
ghost use Rattle.bpf_text_lex.specs.{Numbers.{number_in}, Words.{words_of}};
ghost use Rattle.bpf_text_lex.specs.Refusals.{at_line, text_refusal};
ghost use Rattle.bpf_insn_types.specs.Outcome.{MatchesUnlessMemory};
ghost use Rattle.bpf_text.specs.MapsText.{lists, label_number, is_map_label, is_map_head, is_turn, fits_as_map};
ghost use Rattle.bpf_text.specs.MapsText.{values_read, maps_behind, maps_text};

use bpf_insn_types::{MAX_ELEMENTS, MAX_MAPS};
use bpf_text_lex::{Lines, TextError, TextFault, is_number, next_word, read_fields, read_number};
use std::alloc::Global;

/// Whether the word is a number and a colon.
fn is_label(label: &[u8]) -> bool
    ensures { result ≡ is_map_label label.now }
{
    let Some(end) = label.len().checked_sub(1) else {
        return false;
    };
    label[end] == b':' && is_number(&label[..end])
}

/// Whether the line of a map may begin with these words.
fn is_map_head(word: &[u8], label: &[u8]) -> bool
    ensures { result ≡ is_map_head word.now label.now }
{
    word == b"map".as_slice() && is_label(label)
}

/// Whether the label's number is that of this map.
fn is_turn(label: &[u8], number: usize) -> bool
    requires { 0 < length label.now }
    ensures { result ≡ is_turn number (number_in (2 ^ 64 - 1) (label_number label.now)) }
{
    match read_number(&label[..label.len() - 1], u64::MAX) {
        Ok(n) => n == number as u64,
        Err(_) => false,
    }
}

/// Whether values may be those of this map, after this many values of the maps before it.
fn fits_as_map(label: &[u8], number: usize, held: usize, values: &[u64]) -> bool
    requires label { 0 < length label.now }
    requires held { held ≤ 65536 }
    ensures test { result ≡ fits_as_map number held label.now values.now }
    ensures room { IsTrue result → held + length values.now ≤ 65536 }
{
    if !is_turn(label, number) {
        return false;
    }
    number < MAX_MAPS && !values.is_empty() && values.len() <= MAX_ELEMENTS as usize - held
}

/// The values of the map of this number, after this many values of the maps before it, or the
/// fault of its line.
fn read_values(
    alloc: Global,
    content: &[u8],
    line: u32,
    number: usize,
    held: usize,
) -> Result<Vec<u64>, TextError>
    requires { held ≤ 65536 }
    ensures meaning { MatchesUnlessMemory text_refusal (λ v. v.items) result
        (at_line line (values_read number held (words_of content.now))) }
    ensures room { IfOk result (λ v. held + vec_len v ≤ 65536) }
{
    let Some((word, rest)) = next_word(content) else {
        return Err(TextFault::Form.at(line));
    };
    let Some((label, rest)) = next_word(rest) else {
        return Err(TextFault::Form.at(line));
    };
    if !is_map_head(word, label) {
        return Err(TextFault::Form.at(line));
    }
    let values = read_fields(alloc, rest, u64::MAX, line)?;
    if !fits_as_map(label, number, held, &values) {
        return Err(TextFault::Limits.at(line));
    }
    Ok(values)
}

/// The maps of lines.
fn read_maps(alloc: Global, lines: Lines<'_>) -> Result<Vec<Vec<u64>>, TextError>
    requires { length lines ≤ 1048576 }
    ensures { MatchesUnlessMemory text_refusal (λ maps. lists maps.items) result (maps_behind [] lines.entry) }
{
    let mut lines = lines;
    let mut maps = Vec::new(alloc);
    let mut held = 0;
    while let Some(line) = lines.next() {
        let values = read_values(alloc, line.content, line.number, maps.len(), held)?;
        held += values.len();
        maps.push(values)?;
    }
    Ok(maps)
}

/// The values of maps, map 0 first, of a maps text: at most 1,048,576 bytes, lines `map K: v v` with
/// K from 0 rising and at least one value below 2^64, of 1 to 16 maps with together at most 65,536
/// values. `;` begins a comment, and empty lines are skipped.
///
/// The refusal is the least line over all faults of the text, and there the least fault: `TooLong` at
/// line 0, `Limits` at line 0 where there is no map, `Form`, `Field` for a value outside 0 to
/// 2^64 - 1, `Limits` for a K out of turn, no value, or too many maps or values. `Memory` may come in
/// place of any answer.
pub fn parse_maps(alloc: Global, text: &str) -> Result<Vec<Vec<u64>>, TextError>
    ensures { MatchesUnlessMemory text_refusal (λ maps. lists maps.items) result (maps_text text.now) }
{
    let maps = read_maps(alloc, Lines::of(text)?)?;
    if maps.is_empty() {
        return Err(TextFault::Limits.at(0));
    }
    Ok(maps)
}
