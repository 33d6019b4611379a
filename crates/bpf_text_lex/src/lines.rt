//! Lines: where they end, where their comments begin, and the blanks round them.

ghost use Rattle.std.specs.Prelude.{◌≡◌, ◌+◌, ◌<◌, ◌≤◌, ◌^◌, ◌==◌, [], ◌∷◌, length, position, not, ◌||◌, IfSome};
ghost use Rattle.std.specs.Prelude.{IfNone, IfOk, IfErr};
ghost use Rattle.bpf_text_lex.specs.Lines.{lines_of, before_comment, is_blank, trim_start, trim_end, trim};
ghost use Rattle.bpf_text_lex.specs.Lines.{contents_of, contents_from};

use crate::text_error::{TextError, TextFault};
use crate::words::is_blank;
use std::marker::Model;

/// The most bytes of a text.
const MAX_TEXT: usize = 1_048_576;

/// A line that isn't empty.
#[derive(Clone, Copy)]
pub struct Line<'a> {
    /// The line's number. A text's first line is line 1.
    pub number: u32,
    /// What the line says, without its comment and without the blanks round it.
    pub content: &'a [u8],
}

/// The index of the first newline of a text, if it has one.
pub fn newline_at(text: &[u8]) -> Option<usize>
    ensures { result ≡ position (λ b. b == 10) text.now }
{
    text.iter().position(|b| *b == b'\n')
}

/// The first line of a text that isn't empty, without its newline, and the text after that newline.
#[tactic(auto, using(crate::proofs::LineLaws::line_found, crate::proofs::LineLaws::line_missing))]
pub(crate) fn split_line(text: &[u8]) -> (&[u8], &[u8])
    requires { 0 < length text.now }
    ensures lines { lines_of text.now ≡ result.0.now ∷ lines_of result.1.now }
    ensures shorter { length result.1.now < length text.now }
{
    match newline_at(text) {
        Some(end) => (&text[..end], &text[end + 1..]),
        None => (text, &[]),
    }
}

/// The index of the first semicolon, if there is one.
fn comment_at(line: &[u8]) -> Option<usize>
    ensures { result ≡ position (λ b. b == 59) line.now }
{
    line.iter().position(|b| *b == b';')
}

/// A line up to its comment, which begins at the first semicolon.
#[tactic(auto, using(crate::proofs::LineLaws::comment_found, crate::proofs::LineLaws::comment_missing))]
pub(crate) fn before_comment(line: &[u8]) -> &[u8]
    ensures { result.now ≡ before_comment line.now }
{
    match comment_at(line) {
        Some(end) => &line[..end],
        None => line,
    }
}

/// Without the blanks at the front.
pub fn trim_start(bytes: &[u8]) -> &[u8]
    ensures trimmed { result.now ≡ trim_start bytes.now }
    ensures len { length result.now ≤ length bytes.now }
{
    let mut rest = bytes;
    while let Some((first, after)) = rest.split_first() {
        if !is_blank(*first) {
            return rest;
        }
        rest = after;
    }
    &[]
}

/// Without the blanks at the end.
#[tactic(auto, using(crate::proofs::LineLaws::trims_blank, crate::proofs::LineLaws::keeps_end))]
pub(crate) fn trim_end(bytes: &[u8]) -> &[u8]
    ensures { result.now ≡ trim_end bytes.now }
{
    let mut rest = bytes;
    while let Some((last, before)) = rest.split_last() {
        if !is_blank(*last) {
            return rest;
        }
        rest = before;
    }
    &[]
}

/// Without the blanks at both ends.
pub fn trim(bytes: &[u8]) -> &[u8]
    ensures { result.now ≡ trim bytes.now }
{
    trim_end(trim_start(bytes))
}

/// The first line that isn't empty, of a text whose first line has this number, and the text after
/// it, or None where all lines are empty.
fn next_line<'a>(text: &'a [u8], number: u32) -> Option<(Line<'a>, &'a [u8])>
    requires { number + length text.now < 2 ^ 32 }
    ensures none { IfNone result (contents_from number (lines_of text.now) ≡ []) }
    ensures some { IfSome result (λ x. contents_from number (lines_of text.now)
        ≡ (x.0.number, x.0.content.now) ∷ contents_from (x.0.number + 1) (lines_of x.1.now)) }
    ensures shorter { IfSome result (λ x. x.0.number + length x.1.now < number + length text.now) }
{
    let mut rest = text;
    let mut number = number;
    while !rest.is_empty() {
        let (line, after) = split_line(rest);
        let content = trim(before_comment(line));
        if !content.is_empty() {
            return Some((Line { number, content }, after));
        }
        rest = after;
        number += 1;
    }
    None
}

/// The lines of a text that aren't empty and are left, each with its number. In contracts they are the
/// list of these numbers and of what the lines say.
#[derive(Drop)]
pub struct Lines<'a> {
    text: &'a [u8],
    number: u32,
}

impl<'a> Model for Lines<'a> {
    ghost use Rattle.std.specs.Prelude.{ℕ, List, ◌+◌, ◌<◌, ◌^◌, length};
    ghost use Rattle.bpf_text_lex.specs.Lines.{contents_from, lines_of};

    ghost Value = { List (ℕ × List ℕ) };

    ghost view = { λ l. contents_from l.number (lines_of l.text.now) };

    ghost invariant = { λ l. l.number + length l.text.now < 2 ^ 32 };
}

impl<'a> Lines<'a> {
    /// All lines of a text that aren't empty, where it has at most 1,048,576 bytes, or else `TooLong` at
    /// line 0.
    pub fn of(text: &'a str) -> Result<Lines<'a>, TextError>
        ensures short { IfOk result (λ lines. (length text.now ≤ 1048576) × (lines ≡ contents_of text.now)) }
        ensures few { IfOk result (λ lines. length lines ≤ 1048576) }
        ensures long { IfErr result (λ e. (1048576 < length text.now) × (e ≡ TextError.Refused TextFault.TooLong 0)) }
    {
        let text = text.as_bytes();
        if text.len() > MAX_TEXT {
            return Err(TextFault::TooLong.at(0));
        }
        Ok(Lines { text, number: 1 })
    }

    /// The same lines once more.
    pub fn again(&self) -> Lines<'a>
        ensures { result ≡ self.now }
    {
        Lines {
            text: self.text,
            number: self.number,
        }
    }

    /// The first line, and what is left comes after it.
    pub fn next(&mut self) -> Option<Line<'a>>
        ensures some { IfSome result (λ l. self.old ≡ (l.number, l.content.now) ∷ self.new) }
        ensures none { IfNone result (self.old ≡ []) }
    {
        match next_line(self.text, self.number) {
            Some((line, rest)) => {
                self.text = rest;
                self.number = line.number + 1;
                Some(line)
            }
            None => None,
        }
    }
}
