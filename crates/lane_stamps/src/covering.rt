//! Sites at which lanes load wherever they leave something: then looks where they load are enough.

ghost use Rattle.std.specs.{Prelude.{◌≡◌, ℕ, ◌<◌, ◌≤◌, true, slice_index}, List.{All}};
ghost use Rattle.lane_rows.specs.Rows.{is_in};
ghost use Rattle.lane_stamps.specs.Sites.{HasRows, leaves, shown};
ghost use Rattle.lane_stamps.specs.Marks.{AreLoaded, ArePlacedAlike, EachThere, IsLoaded, IsLoadedBy, IsPlain};

use crate::reading::{has, is_there};
use crate::site::{Lanes, Site};
use lane_rows::{Mask, Places, is_empty};

/// Whether the first lanes, where they are in a mask, have the same numbers in both arrays.
// Not inlined: its loop would spill the registers of the caller's.
#[inline(never)]
fn are_equal(mask: &Mask, first: &[u32; 512], second: &[u32; 512], count: usize) -> bool
    requires { count ≤ 512 }
    ensures { result ≡ true → (lane : ℕ) → lane < count → is_in mask.now lane ≡ true
        → slice_index first.now lane ≡ slice_index second.now lane }
{
    let all = mask.all;
    let mut differ = false;
    for lane in 0..count {
        differ = differ | (is_there(all, mask, lane) & (first[lane] != second[lane]));
    }
    !differ
}

/// Whether the first lanes, where they are in a mask, are known to have the same place in both. Other places mostly
/// differ in the first lane.
fn are_same(mask: &Mask, first: &Places, second: &Places, count: usize) -> bool
    requires { count ≤ 512 }
    ensures { result ≡ true → ArePlacedAlike mask.now first.now second.now count }
{
    match (first.line, second.line) {
        (Some(line), Some(other)) => line.first == other.first && line.step == other.step,
        (None, None) => {
            (!has(mask, 0) || first.lanes[0] == second.lanes[0])
                && are_equal(mask, &first.lanes, &second.lanes, count)
        }
        _ => false,
    }
}

/// Whether the first lanes load at another site wherever they get to one: at the same places, and in the same mask or
/// in one of all lanes.
fn is_loaded_by(site: &Site, by: &Site, lanes: Lanes<'_>, count: usize) -> bool
    requires room { count ≤ 512 }
    requires site { HasRows (shown lanes) site.now }
    requires by { HasRows (shown lanes) by.now }
    ensures { result ≡ true → EachThere (shown lanes.entry) count site.now
        (IsLoadedBy (shown lanes.entry) site.now by.now) }
{
    by.watched
        && by.kind.loads()
        && by.kind.is_of_halves() == site.kind.is_of_halves()
        && (by.mask == site.mask || lanes.masks[by.mask].all)
        && (by.places == site.places
            || are_same(
                &lanes.masks[site.mask],
                &lanes.places[by.places],
                &lanes.places[site.places],
                count,
            ))
}

/// Whether lanes load at one of the sites wherever they leave something at this one.
fn is_loaded(site: &Site, sites: &[Site], lanes: Lanes<'_>, count: usize) -> bool
    requires room { count ≤ 512 }
    requires site { HasRows (shown lanes) site.now }
    requires rows { All (HasRows (shown lanes)) sites.now }
    ensures { result ≡ true → leaves site.now.kind ≡ true → EachThere (shown lanes.entry) count site.now
        (IsLoaded sites.now (shown lanes.entry) site.now) }
{
    if !site.kind.leaves() {
        return true;
    }
    for by in sites {
        if is_loaded_by(site, by, lanes, count) {
            return true;
        }
    }
    false
}

/// Whether the sites that are watched, and that lanes get to, are of one size, and lanes load wherever they leave
/// something.
pub(crate) fn are_loaded(sites: &[Site], lanes: Lanes<'_>, halves: bool, count: usize) -> bool
    requires room { count ≤ 512 }
    requires rows { All (HasRows (shown lanes)) sites.now }
    ensures { result ≡ true → AreLoaded sites.now (shown lanes.entry) halves count }
{
    for site in sites {
        if !is_plain(site, sites, lanes, halves, count) {
            return false;
        }
    }
    true
}

/// Whether a site isn't watched, or no lane gets to it, or it is of a size and lanes load wherever they leave something
/// there.
fn is_plain(site: &Site, sites: &[Site], lanes: Lanes<'_>, halves: bool, count: usize) -> bool
    requires room { count ≤ 512 }
    requires site { HasRows (shown lanes) site.now }
    requires rows { All (HasRows (shown lanes)) sites.now }
    ensures { result ≡ true → site.now.watched ≡ true → EachThere (shown lanes.entry) count site.now
        (IsPlain sites.now (shown lanes.entry) halves site.now) }
{
    !site.watched
        || is_empty(&lanes.masks[site.mask], count)
        || (site.kind.is_of_halves() == halves && is_loaded(site, sites, lanes, count))
}
