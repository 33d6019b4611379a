//! Planes of bits, joined.

ghost use Rattle.std.specs.Prelude.{◌≡◌, ℕ, ◌+◌, ◌<◌, ◌≤◌, length, slice_index, bit_or, bit_and};
ghost use Rattle.lane_planes.specs.Writes.{Writes};

use crate::loading::words_at;
use std::simd::prelude::*;

/// Ors words into others, from an index up to another.
pub(crate) fn or_into<const N: usize>(into: &mut [u64], from: &[u64], first: usize, past: usize)
    requires lanes { (0 < N) × (N ≤ 64) }
    requires same { length into.old ≡ length from.now }
    requires order { first ≤ past }
    requires room { past ≤ length into.old }
    ensures { Writes (λ i. bit_or (slice_index into.old i) (slice_index from.now i)) first past into.old into.new }
{
    let mut at = first;
    while at + N <= past {
        or_at::<N>(into, from, at);
        at += N;
    }
    while at < past {
        or_at::<1>(into, from, at);
        at += 1;
    }
}

#[inline(always)]
fn or_at<const N: usize>(into: &mut [u64], from: &[u64], at: usize)
    requires same { length into.old ≡ length from.now }
    requires room { at + N ≤ length into.old }
    ensures { Writes (λ i. bit_or (slice_index into.old i) (slice_index from.now i)) at (at + N) into.old into.new }
{
    let mine = words_at::<N>(into, at);
    let theirs = words_at::<N>(from, at);
    (mine | theirs).copy_to_slice(&mut into[at..]);
}

/// Marks the elements that two different iterations write: where either set has two, or each has one. Of the words
/// from an index up to another.
pub(crate) fn written_by_two_into<const N: usize>(
    into: &mut [u64],
    from: &[u64],
    written: &[u64],
    also_written: &[u64],
    first: usize,
    past: usize,
)
    requires lanes { (0 < N) × (N ≤ 64) }
    requires same { length into.old ≡ length from.now }
    requires same_written { length into.old ≡ length written.now }
    requires same_also { length into.old ≡ length also_written.now }
    requires order { first ≤ past }
    requires room { past ≤ length into.old }
    ensures { Writes (λ i. bit_or (bit_or (slice_index into.old i) (slice_index from.now i))
        (bit_and (slice_index written.now i) (slice_index also_written.now i))) first past into.old into.new }
{
    let mut at = first;
    while at + N <= past {
        written_by_two_at::<N>(into, from, written, also_written, at);
        at += N;
    }
    while at < past {
        written_by_two_at::<1>(into, from, written, also_written, at);
        at += 1;
    }
}

#[inline(always)]
fn written_by_two_at<const N: usize>(
    into: &mut [u64],
    from: &[u64],
    written: &[u64],
    also_written: &[u64],
    at: usize,
)
    requires same { length into.old ≡ length from.now }
    requires same_written { length into.old ≡ length written.now }
    requires same_also { length into.old ≡ length also_written.now }
    requires room { at + N ≤ length into.old }
    ensures { Writes (λ i. bit_or (bit_or (slice_index into.old i) (slice_index from.now i))
        (bit_and (slice_index written.now i) (slice_index also_written.now i))) at (at + N) into.old into.new }
{
    let mine = words_at::<N>(into, at);
    let theirs = words_at::<N>(from, at);
    let once = words_at::<N>(written, at);
    let again = words_at::<N>(also_written, at);
    (mine | theirs | (once & again)).copy_to_slice(&mut into[at..]);
}
