//! Events as a text.

ghost use Rattle.std.specs.{Prelude.{◌≡◌, []}, List.{list_all}};
ghost use Rattle.bpf_text_lex.specs.{Words.{words_of}, Refusals.{at_line, text_refusal}};
ghost use Rattle.bpf_insn_types.specs.Outcome.{MatchesUnlessMemory};
ghost use Rattle.bpf_text.specs.EventsText.{event_kind_at, is_event, event_at, events_in, events_of};
ghost use Rattle.bpf_text.specs.EventsText.{events_behind, events_text};

use bpf_text_lex::{Lines, TextError, TextFault, Words, is_number, read_fields_after, read_number};
use loop_core_model::{Event, EventKind};
use std::alloc::Global;

/// The kind that a letter denotes.
fn kind_at(letter: u8) -> Option<EventKind>
    ensures { result ≡ event_kind_at letter }
{
    match letter {
        b'c' => Some(EventKind::Claim),
        b'l' => Some(EventKind::Look),
        b't' => Some(EventKind::Turn),
        b'p' => Some(EventKind::Post),
        b's' => Some(EventKind::Stop),
        _ => None,
    }
}

/// Whether a word is a letter of a kind and a number of any size.
fn is_event(word: &[u8]) -> bool
    ensures { result ≡ is_event word.now }
{
    !word.is_empty() && kind_at(word[0]).is_some() && is_number(&word[1..])
}

/// Whether each word of a line is a letter of a kind and a number of any size.
fn are_events(words: Words<'_>) -> bool
    ensures { result ≡ list_all is_event words.entry }
{
    let mut words = words;
    while let Some(word) = words.next() {
        if !is_event(word) {
            return false;
        }
    }
    true
}

/// The event of a word, or its fault.
fn read_event(word: &[u8], line: u32) -> Result<Event, TextError>
    ensures { MatchesUnlessMemory text_refusal (λ e. e) result (at_line line (event_at word.now)) }
{
    if word.is_empty() {
        return Err(TextFault::Form.at(line));
    }
    let Some(kind) = kind_at(word[0]) else {
        return Err(TextFault::Form.at(line));
    };
    match read_number(&word[1..], u64::from(u8::MAX)) {
        Ok(worker) => Ok(Event {
            kind,
            worker: worker as u8,
        }),
        Err(fault) => Err(fault.at(line)),
    }
}

/// The events of a line's words, or the first fault.
fn read_words(alloc: Global, words: Words<'_>, line: u32) -> Result<Vec<Event>, TextError>
    ensures { MatchesUnlessMemory text_refusal (λ v. v.items) result (at_line line (events_in words.entry)) }
{
    let mut words = words;
    let mut events = Vec::new(alloc);
    while let Some(word) = words.next() {
        events.push(read_event(word, line)?)?;
    }
    Ok(events)
}

/// The events of a line. A word that is no event is found before a worker outside its field.
fn read_events(alloc: Global, words: &[u8], line: u32) -> Result<Vec<Event>, TextError>
    ensures { MatchesUnlessMemory text_refusal (λ v. v.items) result (at_line line (events_of (words_of words.now))) }
{
    if !are_events(Words::of(words)) {
        return Err(TextFault::Form.at(line));
    }
    read_words(alloc, Words::of(words), line)
}

/// The events of lines.
fn read_lines(alloc: Global, lines: Lines<'_>) -> Result<Vec<Event>, TextError>
    ensures { MatchesUnlessMemory text_refusal (λ v. v.items) result (events_behind [] lines.entry) }
{
    let mut lines = lines;
    let mut events = Vec::new(alloc);
    while let Some(line) = lines.next() {
        let more = read_events(alloc, line.content, line.number)?;
        events.extend_from_slice(&more)?;
    }
    Ok(events)
}

/// The bounds of blocks and the events of an events text: at most 1,048,576 bytes, a first line
/// `bounds` and numbers below 2^32, then lines of words, each one of the letters c, l, t, p, s and
/// the number of a worker, 0 to 255. `;` begins a comment, and empty lines are skipped.
///
/// The refusal is the least line over all faults of the text, and there the least fault: `TooLong` at
/// line 0, `Form` at line 0 where there is no first line, `Form`, `Field` for a bound outside 0 to
/// 2^32 - 1 or a worker outside 0 to 255. `Memory` may come in place of any answer.
#[tactic(auto, unfolding(crate::specs::EventsText::schedule_of))]
pub fn parse_events(alloc: Global, text: &str) -> Result<(Vec<u32>, Vec<Event>), TextError>
    ensures { MatchesUnlessMemory text_refusal (λ x. (x.0.items, x.1.items)) result (events_text text.now) }
{
    let mut lines = Lines::of(text)?;
    let Some(head) = lines.next() else {
        return Err(TextFault::Form.at(0));
    };
    let bounds = read_fields_after(alloc, b"bounds", head.content, head.number)?;
    let events = read_lines(alloc, lines)?;
    Ok((bounds, events))
}
