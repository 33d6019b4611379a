//! Which elements conflict.

ghost use Rattle.std.specs.Prelude.{◌≡◌, ◌+◌, ◌<◌, ◌≤◌, length, slice_index};
ghost use Rattle.shadow_marks.specs.Standing.{EachPlane};
ghost use Rattle.lane_planes.specs.Conflicts.{LrpdFit, lrpd_word, cleared_word, OperatorWordsFit};
ghost use Rattle.lane_planes.specs.Writes.{Writes};

use crate::loading::words_at;
use shadow_marks::{LrpdPlanes, Planes};
use std::simd::prelude::*;

/// Tells where the LRPD test fails, whether or not elements are reduction-only.
pub(crate) fn lrpd_into<const N: usize>(planes: &LrpdPlanes, into: &mut [u64])
    requires lanes { (0 < N) × (N ≤ 64) }
    requires fit { LrpdFit planes.now (length into.old) }
    ensures { Writes (lrpd_word planes.now) 0 (length into.old) into.old into.new }
{
    let mut at = 0;
    while at + N <= into.len() {
        lrpd_at::<N>(planes, into, at);
        at += N;
    }
    while at < into.len() {
        lrpd_at::<1>(planes, into, at);
        at += 1;
    }
}

#[inline(always)]
fn lrpd_at<const N: usize>(planes: &LrpdPlanes, into: &mut [u64], at: usize)
    requires fit { LrpdFit planes.now (length into.old) }
    requires room { at + N ≤ length into.old }
    ensures { Writes (lrpd_word planes.now) at (at + N) into.old into.new }
{
    let reader = words_at::<N>(planes.read_only.as_slice(), at);
    let writer = words_at::<N>(planes.written.as_slice(), at);
    let both = words_at::<N>(planes.read_and_written.as_slice(), at);
    let two = words_at::<N>(planes.written_by_two.as_slice(), at);
    ((reader & writer) | (both & two)).copy_to_slice(&mut into[at..]);
}

/// Clears the bits of reduction-only elements.
pub(crate) fn clear_reductions<const N: usize>(planes: &Planes, into: &mut [u64])
    requires lanes { (0 < N) × (N ≤ 64) }
    requires plain { length into.old ≡ length planes.now.plain.items }
    requires operators { EachPlane (λ words. length into.old ≡ length words) planes.now.operators }
    ensures words { Writes (λ i. cleared_word planes.now (slice_index into.old i) i) 0 (length into.old) into.old into.new }
    ensures fit { OperatorWordsFit planes.now (length into.old) }
{
    let mut at = 0;
    while at + N <= into.len() {
        clear_reductions_at::<N>(planes, into, at);
        at += N;
    }
    while at < into.len() {
        clear_reductions_at::<1>(planes, into, at);
        at += 1;
    }
}

#[inline(always)]
fn clear_reductions_at<const N: usize>(planes: &Planes, into: &mut [u64], at: usize)
    requires plain { length into.old ≡ length planes.now.plain.items }
    requires operators { EachPlane (λ words. length into.old ≡ length words) planes.now.operators }
    requires room { at + N ≤ length into.old }
    ensures words { Writes (λ i. cleared_word planes.now (slice_index into.old i) i) at (at + N) into.old into.new }
    ensures fit { OperatorWordsFit planes.now (length into.old) }
{
    let here = words_at::<N>(into, at);
    let plain = words_at::<N>(planes.plain.as_slice(), at);
    let add = words_at::<N>(planes.operators.add.as_slice(), at);
    let or = words_at::<N>(planes.operators.or.as_slice(), at);
    let and = words_at::<N>(planes.operators.and.as_slice(), at);
    let xor = words_at::<N>(planes.operators.xor.as_slice(), at);
    let addh = words_at::<N>(planes.operators.addh.as_slice(), at);
    let two = (add & or)
        | ((add | or) & and)
        | ((add | or | and) & xor)
        | ((add | or | and | xor) & addh);
    let none = !(add | or | and | xor | addh);
    (here & (plain | two | none)).copy_to_slice(&mut into[at..]);
}
