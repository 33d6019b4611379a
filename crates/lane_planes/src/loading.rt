//! Vectors out of slices.

ghost use Rattle.std.specs.Prelude.{ℕ, ◌+◌, ◌^◌, ◌<◌, ◌≤◌, length, slice_index};
ghost use Rattle.lane_planes.specs.Writes.{HasLanes};

use std::simd::prelude::*;

/// The words from an index on.
#[inline(always)]
pub(crate) fn words_at<const N: usize>(words: &[u64], at: usize) -> Simd<u64, N>
    requires { at + N ≤ length words.now }
    ensures lanes { HasLanes N (λ k. slice_index words.now (at + k)) result }
    ensures fit { (i : ℕ) → slice_index words.now i < 2 ^ 64 }
{
    Simd::from_slice(&words[at..])
}

/// The numbers from an index on.
#[inline(always)]
pub(crate) fn numbers_at<const N: usize>(numbers: &[u32], at: usize) -> Simd<u32, N>
    requires { at + N ≤ length numbers.now }
    ensures { HasLanes N (λ k. slice_index numbers.now (at + k)) result }
{
    Simd::from_slice(&numbers[at..])
}

/// Tells that each number is below 2^32. Nothing is computed.
pub(crate) fn are_numbers(numbers: &[u32])
    ensures { (i : ℕ) → slice_index numbers.now i ≤ 4294967295 }
{}

/// Tells that each word is below 2^64. Nothing is computed.
pub(crate) fn are_words(words: &[u64])
    ensures { (i : ℕ) → slice_index words.now i < 2 ^ 64 }
{}
