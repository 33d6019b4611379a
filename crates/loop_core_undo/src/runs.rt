//! Entries that follow each other, in one loop each.

ghost use Rattle.std.specs.Prelude.{◌≡◌, ℕ, ◌+◌, ◌<◌, ◌≤◌, ◌↔◌, false, length, slice_index, slice_index_or};
ghost use Rattle.loop_core_undo.specs.Runs.{RunIsSet};

use array_maps::{Maps, Store};

/// Whether any of n flags from a first one on is set. The loop has no early exit, so that it tests many at once.
#[inline(always)]
pub(crate) fn is_any_set(flags: &[bool], first: usize, count: usize) -> bool
    requires { first + count ≤ length flags.now }
    ensures { (result ≡ false) ↔ ((k : ℕ) → k < count → slice_index_or flags.now (first + k) false ≡ false) }
{
    let mut any = false;
    for k in 0..count {
        any |= flags[first + k];
    }
    any
}

/// Sets flags from a first one up to another to a value.
#[inline(always)]
pub(crate) fn set_flags(flags: &mut [bool], first: usize, end: usize, value: bool)
    requires order { first ≤ end }
    requires within { end ≤ length flags.old }
    ensures { RunIsSet flags.old flags.new false first end (λ e. value) }
{
    for e in first..end {
        flags[e] = value;
    }
}

/// Copies words from a first one up to another, each to its own place.
pub(crate) fn copy_words(words: &mut [u64], first: usize, end: usize, source: &[u64])
    requires order { first ≤ end }
    requires within { end ≤ length words.old }
    requires source { end ≤ length source.now }
    ensures { RunIsSet words.old words.new 0 first end (λ e. slice_index source.now e) }
{
    for e in first..end {
        words[e] = source[e];
    }
}

/// Exchanges words from a first one up to another with those of the elements of maps that have the same indices.
pub(crate) fn exchange_words(words: &mut [u64], first: u32, end: u32, maps: &mut Maps)
    requires order { first ≤ end }
    requires within { end ≤ length words.old }
    requires elements { end ≤ length maps.old.words }
    ensures words { RunIsSet words.old words.new 0 first end (λ e. slice_index maps.old.words e) }
    ensures sizes { maps.new.sizes ≡ maps.old.sizes }
    ensures maps { RunIsSet maps.old.words maps.new.words 0 first end (λ e. slice_index words.old e) }
{
    for e in first..end {
        let word = maps.words()[e as usize];
        maps.store(e, words[e as usize]);
        words[e as usize] = word;
    }
}
