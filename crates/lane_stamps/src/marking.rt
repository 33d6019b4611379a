//! Marks of what lanes leave, site by site. The earlier the access, the greater its mark, and a half keeps the
//! greatest: so its stamp alone says to a lane that loads it whether it was left before.

ghost use Rattle.std.specs.{Prelude.{◌≡◌, ℕ, ◌+◌, ◌*◌, ◌<◌, ◌≤◌, ◌^◌, true, false, length}, List.{All}};
ghost use Rattle.lane_rows.specs.Rows.{is_in, place_at};
ghost use Rattle.lane_stamps.specs.{Sites.{HasRows, shown}, Stamps.{AreStale, Rises, stamp_at}};
ghost use Rattle.lane_stamps.specs.Marks.{AreMarked, AreMarks, FindNoGreater, FindsGreater, LeaveMarks, LeavesMarks};
ghost use Rattle.lane_stamps.specs.Marks.{LoadNoGreater, LoadsGreater, LoadsGreaterAt, LoadsNoGreater, MarksAt};
ghost use Rattle.lane_stamps.specs.Marks.{MarksOne, MarksOnly, mark_at, top_at};

use crate::reading::{is_there, place_on};
use crate::site::{Lanes, Site};
use lane_rows::{Mask, PlaceLine, Places, is_empty};

/// Marks the place of a lane, if it is in a mask, unless that has a greater stamp. Where all are, none is looked up.
#[inline(always)]
fn mark_lane(
    all: bool,
    mask: &Mask,
    line: Option<PlaceLine>,
    places: &Places,
    lane: usize,
    stamps: &mut [u16],
    mark: u16,
)
    requires all { all ≡ mask.now.all }
    requires line { line ≡ places.now.line }
    requires lane { lane < 512 }
    requires some { 0 < length stamps.old }
    ensures marked { is_in mask.now lane ≡ true
        → mark ≤ stamp_at stamps.new (place_at places.now lane) }
    ensures rises { Rises stamps.old stamps.new }
    ensures only { MarksOne stamps.old stamps.new mask.now places.now lane mark }
{
    if all || is_there(all, mask, lane) {
        let at = place_on(line, places, lane) as usize & (stamps.len() - 1);
        if stamps[at] < mark {
            stamps[at] = mark;
        }
    }
}

/// The mark of a lane, one of so many, at a site, one of so many.
#[tactic(auto, using(crate::proofs::MarkSteps::product_below))]
#[inline(always)]
fn mark_of(top: u16, sites: usize, lane: usize, count: usize) -> u16
    requires lane { lane < count }
    requires room { count ≤ 512 }
    requires few { sites ≤ 255 }
    requires top { sites * count ≤ top }
    ensures { result ≡ mark_at top sites lane }
{
    top - (sites * lane) as u16
}

/// Marks the places of all lanes of a mask.
// Not inlined: its loop would spill the registers of the caller's.
#[inline(never)]
fn mark_lanes(
    mask: &Mask,
    places: &Places,
    count: usize,
    stamps: &mut [u16],
    top: u16,
    sites: usize,
)
    requires room { count ≤ 512 }
    requires some { 0 < length stamps.old }
    requires few { sites ≤ 255 }
    requires top { sites * count ≤ top }
    ensures marked { AreMarked stamps.new mask.now places.now count top sites }
    ensures rises { Rises stamps.old stamps.new }
    ensures only { MarksOnly stamps.old stamps.new mask.now places.now count top sites }
{
    let (all, line) = (mask.all, places.line);
    for lane in 0..count {
        let mark = mark_of(top, sites, lane, count);
        mark_lane(all, mask, line, places, lane, stamps, mark);
    }
}

/// Whether a lane is in a mask and its place has a greater stamp.
#[inline(always)]
fn finds_greater(
    all: bool,
    mask: &Mask,
    line: Option<PlaceLine>,
    places: &Places,
    lane: usize,
    stamps: &[u16],
    mark: u16,
) -> bool
    requires all { all ≡ mask.now.all }
    requires line { line ≡ places.now.line }
    requires lane { lane < 512 }
    requires some { 0 < length stamps.now }
    ensures found { result ≡ true → FindsGreater stamps.now mask.now places.now lane mark }
    ensures none { result ≡ false → is_in mask.now lane ≡ true
        → stamp_at stamps.now (place_at places.now lane) ≤ mark }
{
    if all || is_there(all, mask, lane) {
        let at = place_on(line, places, lane) as usize & (stamps.len() - 1);
        return stamps[at] > mark;
    }
    false
}

/// How many lanes go before the first of a mask that finds a greater mark than its own at its place.
// Not inlined: its loop would spill the registers of the caller's.
#[inline(never)]
fn look_lanes(
    mask: &Mask,
    places: &Places,
    count: usize,
    stamps: &[u16],
    top: u16,
    sites: usize,
) -> usize
    requires room { count ≤ 512 }
    requires some { 0 < length stamps.now }
    requires few { sites ≤ 255 }
    requires top { sites * count ≤ top }
    ensures few { result ≤ count }
    ensures none { FindNoGreater stamps.now mask.now places.now result top sites }
    ensures met { result < count
        → FindsGreater stamps.now mask.now places.now result (mark_at top sites result) }
{
    let (all, line) = (mask.all, places.line);
    for lane in 0..count {
        let mark = mark_of(top, sites, lane, count);
        if finds_greater(all, mask, line, places, lane, stamps, mark) {
            return lane;
        }
    }
    count
}

/// Marks what lanes leave at a site, if it is watched and any get there.
fn mark_site(
    site: &Site,
    lanes: Lanes<'_>,
    count: usize,
    stamps: &mut [u16],
    top: u16,
    sites: usize,
)
    requires room { count ≤ 512 }
    requires some { 0 < length stamps.old }
    requires few { sites ≤ 255 }
    requires rows { HasRows (shown lanes) site.now }
    requires top { sites * count ≤ top }
    ensures marked { LeavesMarks (shown lanes.entry) stamps.new count top sites site.now }
    ensures rises { Rises stamps.old stamps.new }
    ensures only { MarksAt stamps.old stamps.new (shown lanes.entry) count top sites site.now }
{
    let mask = &lanes.masks[site.mask];
    if site.watched && site.kind.leaves() && !is_empty(mask, count) {
        let places = &lanes.places[site.places];
        mark_lanes(mask, places, count, stamps, top, sites);
    }
}

/// How many lanes go before the first that loads at a site, if it is watched, what has a greater mark than its own.
fn look_site(
    site: &Site,
    lanes: Lanes<'_>,
    count: usize,
    stamps: &[u16],
    top: u16,
    sites: usize,
) -> usize
    requires room { count ≤ 512 }
    requires some { 0 < length stamps.now }
    requires few { sites ≤ 255 }
    requires rows { HasRows (shown lanes) site.now }
    requires top { sites * count ≤ top }
    ensures few { result ≤ count }
    ensures none { LoadsNoGreater (shown lanes.entry) stamps.now result top sites site.now }
    ensures met { result < count
        → LoadsGreaterAt (shown lanes.entry) stamps.now result (mark_at top sites result) site.now }
{
    let mask = &lanes.masks[site.mask];
    if site.watched && site.kind.loads() && !is_empty(mask, count) {
        let places = &lanes.places[site.places];
        return look_lanes(mask, places, count, stamps, top, sites);
    }
    count
}

/// The mark of the first lane at a site.
#[inline(always)]
fn top_of(base: u16, sites: usize, count: usize, at: usize) -> u16
    requires few { sites ≤ 255 }
    requires room { count ≤ 512 }
    requires at { at < sites }
    requires fits { base + sites * (count + 1) < 2 ^ 16 }
    ensures top { result ≡ top_at base sites count at }
    ensures above { sites * count ≤ result }
{
    base + (sites * (count + 1) - at) as u16
}

/// Marks what lanes leave at the sites that are watched.
pub(crate) fn mark_sites(
    sites: &[Site],
    lanes: Lanes<'_>,
    count: usize,
    stamps: &mut [u16],
    base: u16,
)
    requires room { count ≤ 512 }
    requires some { 0 < length stamps.old }
    requires few { length sites.now ≤ 255 }
    requires rows { All (HasRows (shown lanes)) sites.now }
    requires fits { base + length sites.now * (count + 1) < 2 ^ 16 }
    ensures marked { LeaveMarks sites.now (shown lanes.entry) stamps.new base count (length sites.now) }
    ensures known { AreStale stamps.old base
        → AreMarks sites.now (shown lanes.entry) stamps.new base count }
{
    for at in 0..sites.len() {
        let top = top_of(base, sites.len(), count, at);
        mark_site(&sites[at], lanes, count, stamps, top, sites.len());
    }
}

/// How many lanes go before the first that loads, at a site that is watched, what has a greater mark than its own.
pub(crate) fn look_sites(
    sites: &[Site],
    lanes: Lanes<'_>,
    count: usize,
    stamps: &[u16],
    base: u16,
) -> usize
    requires room { count ≤ 512 }
    requires some { 0 < length stamps.now }
    requires few { length sites.now ≤ 255 }
    requires rows { All (HasRows (shown lanes)) sites.now }
    requires fits { base + length sites.now * (count + 1) < 2 ^ 16 }
    ensures few { result ≤ count }
    ensures none { LoadNoGreater sites.now (shown lanes.entry) stamps.now base count result
        (length sites.now) }
    ensures met { result < count → LoadsGreater sites.now (shown lanes.entry) stamps.now base count result }
{
    let mut limit = count;
    for at in 0..sites.len() {
        let top = top_of(base, sites.len(), count, at);
        limit = look_site(&sites[at], lanes, limit, stamps, top, sites.len());
    }
    limit
}
