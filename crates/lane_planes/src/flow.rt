//! Where the flow test fails: a first writer before a last reader.

ghost use Rattle.std.specs.Prelude.{◌≡◌, ℕ, ◌+◌, ◌/◌, ◌<◌, ◌≤◌, length};
ghost use Rattle.lane_planes.specs.Words.{FlowWords, HasBits, stands_at};

use crate::loading::numbers_at;
use std::simd::prelude::*;

/// Tells where the flow test fails, whether or not elements are reduction-only.
pub(crate) fn flow_into<const N: usize>(into: &mut [u64], first: &[u32], last: &[u32])
    requires lanes { (0 < N) × (N ≤ 64) }
    requires same { length first.now ≡ length last.now }
    requires words { length into.old ≡ (length first.now + 63) / 64 }
    ensures { FlowWords (length into.old) first.now last.now into.new }
{
    for word in 0..into.len() {
        let from = 64 * word;
        let many = (first.len() - from).min(64);
        into[word] = flow_word::<N>(first, last, from, many);
    }
}

/// The word of up to 64 elements, from an element on.
#[inline(always)]
pub(crate) fn flow_word<const N: usize>(
    first: &[u32],
    last: &[u32],
    from: usize,
    many: usize,
) -> u64
    requires lanes { (0 < N) × (N ≤ 64) }
    requires same { length first.now ≡ length last.now }
    requires few { many ≤ 64 }
    requires room { from + many ≤ length first.now }
    ensures { HasBits many (λ k. stands_at first.now last.now (from + k)) result }
{
    let mut word = 0;
    let mut at = 0;
    while at + N <= many {
        word |= flow_bits::<N>(first, last, from + at) << at;
        at += N;
    }
    while at < many {
        word |= flow_bits::<1>(first, last, from + at) << at;
        at += 1;
    }
    word
}

/// A bit for each lane.
#[inline(always)]
fn flow_bits<const N: usize>(first: &[u32], last: &[u32], at: usize) -> u64
    requires lanes { N ≤ 64 }
    requires same { length first.now ≡ length last.now }
    requires room { at + N ≤ length first.now }
    ensures { HasBits N (λ k. stands_at first.now last.now (at + k)) result }
{
    let writers = numbers_at::<N>(first, at);
    let readers = numbers_at::<N>(last, at);
    writers
        .simd_lt(readers.saturating_sub(Simd::splat(1)))
        .to_bitmask()
}
