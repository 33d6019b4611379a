//! The sections of an input.

ghost use Rattle.std.specs.{Prelude.{◌≡◌, ◌+◌, ◌-◌, ◌<◌, ◌≤◌, length, slice_index, take, drop, ◌∷◌}, List.{concat}};
ghost use Rattle.std.specs.Str.{IsCharBoundary};
ghost use Rattle.bpfspec_serve.specs.Sections.{whole_lines, is_mark, before_mark, behind_mark};

use bpf_text_lex::newline_at;

/// A text up to the first line that is exactly `%%`, and the text after that line.
#[derive(Clone, Copy)]
pub struct Parted<'a> {
    /// All of the text, where there is no such line.
    pub section: &'a str,
    /// Empty, where there is no such line.
    pub rest: &'a str,
}

/// Whether a line, with its newline or without, is exactly `%%`.
fn is_mark(line: &[u8]) -> bool
    ensures { result ≡ is_mark line.now }
{
    line == b"%%\n".as_slice() || line == b"%%".as_slice()
}

/// How many bytes the first line of a text has, with its newline.
fn line_length(text: &[u8]) -> usize
    requires { 0 < length text.now }
    ensures line { whole_lines text.now ≡ take result text.now ∷ whole_lines (drop result text.now) }
    ensures some { 0 < result }
    ensures newline { result < length text.now → slice_index text.now (result - 1) ≡ 10 }
    ensures within { result ≤ length text.now }
{
    match newline_at(text) {
        Some(newline) => newline + 1,
        None => text.len(),
    }
}

/// The section at the front of a text, and what comes after its mark.
pub fn part(text: &str) -> Parted<'_>
    ensures section { result.section.now ≡ before_mark (whole_lines text.now) }
    ensures rest { whole_lines result.rest.now ≡ behind_mark (whole_lines text.now) }
    ensures text { result.rest.now ≡ concat (behind_mark (whole_lines text.now)) }
{
    let bytes = text.as_bytes();
    let mut at = 0;
    while at < bytes.len() {
        let rest = &bytes[at..];
        let length = line_length(rest);
        if is_mark(&rest[..length]) {
            return Parted {
                section: &text[..at],
                rest: &text[at + length..],
            };
        }
        at += length;
    }
    Parted {
        section: text,
        rest: "",
    }
}
