//! How many bits of a plane are set, and which is the least.

ghost use Rattle.std.specs.Prelude.{◌≡◌, ℕ, ◌^◌, ◌<◌, ◌≤◌, true, length, slice_index};
ghost use Rattle.loop_core_model.specs.Planes.{set_bits, least_bit};

use std::simd::prelude::*;

/// How many elements have their bit set in a plane of at most 1,024 words.
pub fn count_bits<const N: usize>(words: &[u64]) -> u32
    requires lanes { (0 < N) × (N ≤ 64) }
    requires few { length words.now ≤ 1024 }
    ensures { result ≡ set_bits words.now }
{
    let (vectors, rest) = words.as_chunks::<N>();
    let mut count = 0;
    for vector in vectors {
        count += ones_in(vector);
    }
    for word in rest {
        count += word.count_ones();
    }
    count
}

/// How many bits are set in a vector.
#[inline(always)]
fn ones_in<const N: usize>(vector: &[u64; N]) -> u32
    requires lanes { N ≤ 64 }
    requires fit { (k : ℕ) → slice_index vector.now k < 2 ^ 64 }
    ensures { result ≡ set_bits vector.now }
{
    Simd::<u64, N>::from_array(*vector)
        .count_ones()
        .reduce_sum() as u32
}

/// The least element whose bit is set in a plane of at most 1,024 words.
pub fn first_bit<const N: usize>(words: &[u64]) -> Option<u32>
    requires lanes { (0 < N) × (N ≤ 64) }
    requires few { length words.now ≤ 1024 }
    ensures { result ≡ least_bit 0 words.now }
{
    let (vectors, _) = words.as_chunks::<N>();
    let mut clear = 0;
    while clear < vectors.len() && is_clear(&vectors[clear]) {
        clear += 1;
    }
    for at in clear * N..words.len() {
        if words[at] != 0 {
            return Some(64 * at as u32 + words[at].trailing_zeros());
        }
    }
    None
}

/// Whether no bit is set in a vector.
#[inline(always)]
fn is_clear<const N: usize>(vector: &[u64; N]) -> bool
    ensures { result ≡ true → (k : ℕ) → k < N → slice_index vector.now k ≡ 0 }
{
    Simd::<u64, N>::from_array(*vector).reduce_or() == 0
}
