//! Actions at words that follow one another.

ghost use Rattle.std.specs.Prelude.{◌≡◌, ◌+◌, ◌≤◌, length, slice_index};
ghost use Rattle.array_maps.specs.Accesses.{Reduce, Write, words_after_run};

use crate::access::Op;
use crate::changes::combine;

/// Stores words from an index on.
pub(crate) fn store_each(words: &mut [u64], first: usize, values: &[u64])
    requires { first + length values.now ≤ length words.old }
    ensures { words.new ≡ words_after_run first (λ k. Write (slice_index values.now k)) (length values.now) words.old }
{
    for k in 0..values.len() {
        words[first + k] = values[k];
    }
}

/// Applies an operator that is known where it is called to words from an index on.
#[inline(always)]
pub(crate) fn update_each(words: &mut [u64], first: usize, op: Op, operands: &[u64])
    requires { first + length operands.now ≤ length words.old }
    ensures { words.new ≡ words_after_run first (λ k. Reduce op (slice_index operands.now k)) (length operands.now)
        words.old }
{
    for k in 0..operands.len() {
        words[first + k] = combine(op, words[first + k], operands[k]);
    }
}
