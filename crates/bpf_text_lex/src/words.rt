//! Words, which blanks part.

ghost use Rattle.std.specs.Prelude.{◌≡◌, ◌<◌, [], ◌∷◌, length, position, ◌||◌, ◌==◌, IfSome, IfNone};
ghost use Rattle.bpf_text_lex.specs.{Lines.{is_blank}, Words.{words_of}};

use crate::lines::trim_start;
use std::marker::Model;

/// Whether the byte is a space or a tab.
pub(crate) fn is_blank(byte: u8) -> bool
    ensures { result ≡ is_blank byte }
{
    byte == b' ' || byte == b'\t'
}

/// The first word of a line and what comes after that word, or None where the line is blank.
pub fn next_word(line: &[u8]) -> Option<(&[u8], &[u8])>
    ensures none { IfNone result (words_of line.now ≡ []) }
    ensures some { IfSome result (λ x. words_of line.now ≡ x.0.now ∷ words_of x.1.now) }
    ensures shorter { IfSome result (λ x. length x.1.now < length line.now) }
{
    let line = trim_start(line);
    if line.is_empty() {
        return None;
    }
    match blank_at(line) {
        Some(end) => Some(line.split_at(end)),
        None => Some((line, &[])),
    }
}

/// The index of the first blank, if there is one.
pub fn blank_at(line: &[u8]) -> Option<usize>
    ensures { result ≡ position is_blank line.now }
{
    line.iter().position(|b| is_blank(*b))
}

/// The words of a line that are left. In contracts they are the list of these words.
#[derive(Drop)]
pub struct Words<'a> {
    line: &'a [u8],
}

impl<'a> Model for Words<'a> {
    ghost use Rattle.std.specs.Prelude.{ℕ, List};
    ghost use Rattle.bpf_text_lex.specs.Words.{words_of};

    ghost Value = { List (List ℕ) };

    ghost view = { λ w. words_of w.line.now };
}

impl<'a> Words<'a> {
    /// All words of a line.
    pub fn of(line: &'a [u8]) -> Words<'a>
        ensures { result ≡ words_of line.now }
    {
        Words { line }
    }

    /// The first word, and what is left comes after it.
    pub fn next(&mut self) -> Option<&'a [u8]>
        ensures some { IfSome result (λ word. self.old ≡ word.now ∷ self.new) }
        ensures none { IfNone result (self.old ≡ []) }
    {
        match next_word(self.line) {
            Some((word, rest)) => {
                self.line = rest;
                Some(word)
            }
            None => None,
        }
    }
}
