//! Where an access may go, by the abstract value of its base.

ghost use Rattle.std.specs.Prelude.{◌≡◌, ◌+ℤ◌, ◌*◌, ◌^◌, ◌≤◌, pos, slice_get};
ghost use Rattle.bpf_verify_model.specs.Accesses.{is_memory, is_part_of_half, is_misaligned, is_spread};
ghost use Rattle.bpf_verify_model.specs.Accesses.{misses_alignment, is_outside_frame, is_outside_map, is_outside};
ghost use Rattle.bpf_verify_model.specs.Accesses.{lacks_bytes, has_unwritten_byte, is_ctx};

use bpf_insn_types::FRAME_BYTES;
use bpf_verify_model::{AbstractValue, State, WrittenBytes};
use value_range::Range;

/// Whether it is the address of memory, as V16 asks of the base of an access.
pub(crate) fn is_memory(base: AbstractValue) -> bool
    ensures { result ≡ is_memory base }
{
    matches!(
        base,
        AbstractValue::Frame(_) | AbstractValue::Ctx(_) | AbstractValue::Area(_, _)
    )
}

/// V17: an access of n bytes is of a map's values, and neither of a value nor of a half.
pub(crate) fn is_part_of_half(size: u32, base: AbstractValue) -> bool
    ensures { result ≡ is_part_of_half size base }
{
    match base {
        AbstractValue::Area(_, _) => size != 8 && size != 4,
        _ => false,
    }
}

/// Whether it is the address of main's frame, in a callback.
pub(crate) fn is_ctx(base: AbstractValue) -> bool
    ensures { result ≡ is_ctx base }
{
    matches!(base, AbstractValue::Ctx(_))
}

/// A place in a frame, which may lie outside.
fn place(position: u32, offset: i16) -> i64
    ensures { result ≡ pos position +ℤ offset }
{
    position as i64 + offset as i64
}

/// A place in a frame or among a map's values, which may lie outside.
fn area_place(place: u64, offset: i16) -> i128
    ensures { result ≡ pos place +ℤ offset }
{
    place as i128 + offset as i128
}

/// Whether a place isn't a multiple of a size.
fn is_misaligned(size: u32, place: i128) -> bool
    requires { 1 ≤ size }
    ensures { result ≡ is_misaligned size place }
{
    place % size as i128 != 0
}

/// Whether a range has more than one offset, and not all of them are multiples of a size.
fn is_spread(size: u32, range: Range) -> bool
    ensures { result ≡ is_spread size range }
{
    range.lo() < range.hi() && (1u128 << range.zeros()) < size as u128
}

/// V18: an access of n bytes at an offset from this base isn't aligned.
pub(crate) fn misses_alignment(size: u32, offset: i16, base: AbstractValue) -> bool
    requires { 1 ≤ size }
    ensures { result ≡ misses_alignment size offset base }
{
    match base {
        AbstractValue::Frame(position) | AbstractValue::Ctx(position) => {
            is_misaligned(size, area_place(u64::from(position), offset))
        }
        AbstractValue::Area(_, range) => {
            is_misaligned(size, area_place(range.lo(), offset)) || is_spread(size, range)
        }
        _ => false,
    }
}

/// Whether n bytes from a place on aren't all of a frame's 512.
fn is_outside_frame(size: u32, position: u32, offset: i16) -> bool
    ensures { result ≡ is_outside_frame size (pos position +ℤ offset) }
{
    let place = place(position, offset);
    place < 0 || (FRAME_BYTES as i64) < place + size as i64
}

/// V19: an access of n bytes at an offset from this base isn't within its frame, or within its map's values.
pub(crate) fn is_outside(sizes: &[u32], size: u32, offset: i16, base: AbstractValue) -> bool
    ensures { result ≡ is_outside sizes.now size offset base }
{
    match base {
        AbstractValue::Frame(position) | AbstractValue::Ctx(position) => {
            is_outside_frame(size, position, offset)
        }
        AbstractValue::Area(map, range) => {
            is_outside_map(size_of_map(sizes, map), size, offset, range)
        }
        _ => false,
    }
}

/// How many values a map has, if there is one of this number.
fn size_of_map(sizes: &[u32], map: u32) -> Option<u32>
    ensures { result ≡ slice_get sizes.now map }
{
    sizes.get(map as usize).copied()
}

/// Whether n bytes at an offset from places of a range aren't all of a map's values, if there is
/// such a map.
fn is_outside_map(count: Option<u32>, size: u32, offset: i16, range: Range) -> bool
    ensures { result ≡ is_outside_map count size offset range }
{
    match count {
        None => true,
        Some(count) => {
            area_place(range.lo(), offset) < 0
                || 8 * (count as i128) < area_place(range.hi(), offset) + size as i128
        }
    }
}

/// Whether one of the bytes from a place in a frame on isn't written.
fn lacks(written: &WrittenBytes, size: u32, position: u32, offset: i16) -> bool
    ensures { result ≡ lacks_bytes written.now size (pos position +ℤ offset) }
{
    if is_outside_frame(size, position, offset) {
        return false;
    }
    let place = place(position, offset);
    !written.all_written(place as usize, size as usize)
}

/// Whether n bytes at an offset from this base lie within a frame, and one of them isn't
/// written.
pub(crate) fn has_unwritten_byte(state: &State, size: u32, offset: i16, base: AbstractValue) -> bool
    ensures { result ≡ has_unwritten_byte state.now size offset base }
{
    match base {
        AbstractValue::Frame(position) => lacks(&state.own, size, position, offset),
        AbstractValue::Ctx(position) => match &state.caller {
            None => true,
            Some(written) => lacks(written, size, position, offset),
        },
        _ => false,
    }
}
