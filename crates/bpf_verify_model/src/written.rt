//! A frame's written bytes.

ghost use Rattle.std.specs.Prelude.{◌≡◌, ◌+◌, ◌≤◌, ◌%◌, ◌^◌};
ghost use Rattle.bpf_verify_model.specs.Written.{none_written, all_written, written_from, joined_written};

use std::marker::Model;

/// For each of a frame's 512 bytes, the lowest first, whether it is written: bit `i % 64` of word
/// `i / 64` is byte `i`.
#[derive(Clone, Copy)]
pub struct WrittenBytes {
    words: [u64; 8],
}

impl Model for WrittenBytes {
    ghost use Rattle.std.specs.Prelude.{Bool, List};
    ghost use Rattle.bpf_verify_model.specs.Words.{AreMarkWords, marks_in_words, words_of_marks};
    ghost use Rattle.bpf_verify_model.specs.WordsBack.{words_of_marks-marks_in_words};

    ghost Value = { List Bool };

    ghost view = { λ w. marks_in_words w.words };

    ghost invariant = { λ w. AreMarkWords w.words };

    ghost inverse = { λ written. record { words = words_of_marks written } };

    ghost inverse_ok = { λ w h i. record { words = words_of_marks-marks_in_words w.words h.count h.small i } };
}

impl WrittenBytes {
    /// No byte is written.
    pub fn none() -> WrittenBytes
        ensures { result ≡ none_written }
    {
        WrittenBytes { words: [0; 8] }
    }

    /// Whether n bytes from a position on are written.
    pub fn all_written(&self, position: usize, size: usize) -> bool
        requires { position + size ≤ 512 }
        ensures { result ≡ all_written self.now position size }
    {
        for at in position..position + size {
            if self.words[at / 64] & mark(at) == 0 {
                return false;
            }
        }
        true
    }

    /// Marks n bytes from a position on as written.
    pub fn write(&mut self, position: usize, size: usize)
        requires { position + size ≤ 512 }
        ensures { self.new ≡ written_from self.old position size }
    {
        for at in position..position + size {
            self.words[at / 64] |= mark(at);
        }
    }

    /// Keeps what is written in another too.
    pub fn join(&mut self, others: &WrittenBytes)
        ensures { self.new ≡ joined_written self.old others.now }
    {
        for row in 0..8 {
            self.words[row] &= others.words[row];
        }
    }
}

/// A byte's bit in its word.
fn mark(at: usize) -> u64
    ensures { result ≡ 2 ^ (at % 64) }
{
    1 << (at % 64)
}
