//! First writers and last readers, joined.

ghost use Rattle.std.specs.Prelude.{◌≡◌, ℕ, ◌+◌, ◌*◌, ◌/◌, ◌<◌, ◌≤◌, length, slice_index, min};
ghost use Rattle.lane_planes.specs.{Kept.{kept_of}, Writes.{Writes}};

use crate::kept::Kept;
use crate::loading::numbers_at;
use std::simd::prelude::*;

/// Keeps the lesser or the greater of two numbers, in the pages of 64 from one up to another.
#[inline(always)]
pub(crate) fn keep_into<const N: usize>(
    kept: Kept,
    into: &mut [u32],
    from: &[u32],
    first: usize,
    past: usize,
)
    requires lanes { (0 < N) × (N ≤ 64) }
    requires same { length into.old ≡ length from.now }
    requires start { 64 * first ≤ length into.old }
    requires order { first ≤ past }
    requires room { past ≤ (length into.old + 63) / 64 }
    ensures { Writes (λ i. kept_of kept (slice_index into.old i) (slice_index from.now i)) (64 * first)
        (min (64 * past) (length into.old)) into.old into.new }
{
    let end = (64 * past).min(into.len());
    let mut at = 64 * first;
    while at + N <= end {
        keep_at::<N>(kept, into, from, at);
        at += N;
    }
    while at < end {
        keep_at::<1>(kept, into, from, at);
        at += 1;
    }
}

#[inline(always)]
fn keep_at<const N: usize>(kept: Kept, into: &mut [u32], from: &[u32], at: usize)
    requires same { length into.old ≡ length from.now }
    requires room { at + N ≤ length into.old }
    ensures { Writes (λ i. kept_of kept (slice_index into.old i) (slice_index from.now i)) at (at + N) into.old
        into.new }
{
    let mine = numbers_at::<N>(into, at);
    let theirs = numbers_at::<N>(from, at);
    match kept {
        Kept::Lesser => mine.simd_min(theirs).copy_to_slice(&mut into[at..]),
        Kept::Greater => mine.simd_max(theirs).copy_to_slice(&mut into[at..]),
    }
}
