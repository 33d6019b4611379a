//! What a lane has in a mask or in places.

ghost use Rattle.std.specs.Prelude.{◌≡◌, ◌<◌};
ghost use Rattle.lane_rows.specs.Rows.{is_in, place_at};

use lane_rows::{Mask, PlaceLine, Places};

/// Whether a lane is in a mask.
#[inline(always)]
pub fn has(mask: &Mask, lane: usize) -> bool
    requires { lane < 512 }
    ensures { result ≡ is_in mask.now lane }
{
    is_there(mask.all, mask, lane)
}

/// The same, if it is known whether all lanes are.
#[inline(always)]
pub(crate) fn is_there(all: bool, mask: &Mask, lane: usize) -> bool
    requires all { all ≡ mask.now.all }
    requires lane { lane < 512 }
    ensures { result ≡ is_in mask.now lane }
{
    all | mask.lanes[lane]
}

/// The place of a lane.
#[inline(always)]
pub fn place_of(places: &Places, lane: usize) -> u32
    requires { lane < 512 }
    ensures { result ≡ place_at places.now lane }
{
    place_on(places.line, places, lane)
}

/// The same, if their line is known.
#[inline(always)]
pub fn place_on(line: Option<PlaceLine>, places: &Places, lane: usize) -> u32
    requires line { line ≡ places.now.line }
    requires lane { lane < 512 }
    ensures { result ≡ place_at places.now lane }
{
    match line {
        Some(line) => line
            .first
            .wrapping_add((lane as u32).wrapping_mul(line.step)),
        None => places.lanes[lane],
    }
}
