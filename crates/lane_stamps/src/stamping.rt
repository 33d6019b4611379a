//! Stamps on the halves of elements: lane by lane, at all sites that are watched.

ghost use Rattle.std.specs.Prelude.{◌≡◌, ◌↔◌, ℕ, ◌+◌, ◌<◌, ◌≤◌, ◌^◌, true, false, IsTrue, length, slice_set};
ghost use Rattle.std.specs.List.{All, AllPairs};
ghost use Rattle.lane_stamps.specs.Sites.{Covers, HasRows, is_of_halves, leaves as leaves_of, loads as loads_of, shown};
ghost use Rattle.lane_stamps.specs.Stamps.{AreFree, AreKnown, AreLinks, AreRanked, AreStale, AreStamped, CoversGreater};
ghost use Rattle.lane_stamps.specs.Stamps.{IsStopped, LeavesOnly, Meets, Rises, StampsOnly, StayStale, WatchedFree};
ghost use Rattle.lane_stamps.specs.Stamps.{WatchedOwn, WatchedStamped, WatchedUnmet, slot_of, stamp_at};

use crate::kind::Kind;
use crate::reading::{has, place_of};
use crate::site::{Lanes, Site};

/// Whether a half has no greater stamp.
#[inline(always)]
fn look(stamps: &[u16], half: usize, most: u16) -> bool
    requires { 0 < length stamps.now }
    ensures { IsTrue result ↔ (stamp_at stamps.now half ≤ most) }
{
    stamps[half & (stamps.len() - 1)] <= most
}

/// Whether the halves of a place have no greater stamps.
#[inline(always)]
fn look_at(stamps: &[u16], halves: bool, place: usize, most: u16) -> bool
    requires some { 0 < length stamps.now }
    requires room { place < 2 ^ 32 }
    ensures free { result ≡ true → (half : ℕ) → Covers halves place half → stamp_at stamps.now half ≤ most }
    ensures met { result ≡ false → CoversGreater stamps.now halves place most }
{
    if halves {
        return look(stamps, place, most);
    }
    look(stamps, 2 * place, most) && look(stamps, 2 * place + 1, most)
}

/// Stamps a half.
#[inline(always)]
fn stamp(stamps: &mut [u16], half: usize, mark: u16)
    requires { 0 < length stamps.old }
    ensures { stamps.new ≡ slice_set stamps.old (slot_of (length stamps.old) half) mark }
{
    let at = half & (stamps.len() - 1);
    stamps[at] = mark;
}

/// Stamps the halves of a place.
#[inline(always)]
fn stamp_place(stamps: &mut [u16], halves: bool, place: usize, mark: u16)
    requires some { 0 < length stamps.old }
    requires room { place < 2 ^ 32 }
    ensures stamped { (half : ℕ) → Covers halves place half → mark ≤ stamp_at stamps.new half }
    ensures rises { ((half : ℕ) → Covers halves place half → stamp_at stamps.old half ≤ mark)
        → Rises stamps.old stamps.new }
    ensures only { StampsOnly stamps.old stamps.new halves place mark }
{
    if halves {
        stamp(stamps, place, mark);
    } else {
        stamp(stamps, 2 * place, mark);
        stamp(stamps, 2 * place + 1, mark);
    }
}

/// Whether a lane may do what it does at a site, after those before it and after what it did itself before. Stamps what
/// it leaves. What the site's kind says is known where this is called.
#[inline(always)]
fn go_known(
    halves: bool,
    loads: bool,
    leaves: bool,
    site: &Site,
    lanes: Lanes<'_>,
    lane: usize,
    stamps: &mut [u16],
    base: u16,
) -> bool
    requires halves { halves ≡ is_of_halves site.now.kind }
    requires loads { loads ≡ loads_of site.now.kind }
    requires leaves { leaves ≡ leaves_of site.now.kind }
    requires lane { lane < 512 }
    requires some { 0 < length stamps.old }
    requires rows { HasRows (shown lanes) site.now }
    requires room { base + site.now.rank < 2 ^ 16 }
    ensures free { result ≡ true → AreFree stamps.old base (shown lanes.entry) lane site.now }
    ensures stamped { result ≡ true → AreStamped stamps.new base (shown lanes.entry) lane site.now }
    ensures rises { Rises stamps.old stamps.new }
    ensures met { result ≡ false → IsStopped stamps.old base (shown lanes.entry) lane site.now }
    ensures only { LeavesOnly stamps.old stamps.new base (shown lanes.entry) lane site.now }
{
    if !has(&lanes.masks[site.mask], lane) {
        return true;
    }
    let place = place_of(&lanes.places[site.places], lane) as usize;
    let mark = base + site.rank as u16;
    let most = if loads { base } else { mark };
    if !look_at(stamps, halves, place, most) {
        return false;
    }
    if leaves {
        stamp_place(stamps, halves, place, mark);
    }
    true
}

/// The same, if it isn't known.
#[inline(always)]
fn go_at(site: &Site, lanes: Lanes<'_>, lane: usize, stamps: &mut [u16], base: u16) -> bool
    requires lane { lane < 512 }
    requires some { 0 < length stamps.old }
    requires rows { HasRows (shown lanes) site.now }
    requires room { base + site.now.rank < 2 ^ 16 }
    ensures free { result ≡ true → AreFree stamps.old base (shown lanes.entry) lane site.now }
    ensures stamped { result ≡ true → AreStamped stamps.new base (shown lanes.entry) lane site.now }
    ensures rises { Rises stamps.old stamps.new }
    ensures met { result ≡ false → IsStopped stamps.old base (shown lanes.entry) lane site.now }
    ensures only { LeavesOnly stamps.old stamps.new base (shown lanes.entry) lane site.now }
{
    match site.kind {
        Kind::Load => go_known(false, true, false, site, lanes, lane, stamps, base),
        Kind::LoadHalf => go_known(true, true, false, site, lanes, lane, stamps, base),
        Kind::Store => go_known(false, false, true, site, lanes, lane, stamps, base),
        Kind::Fetch => go_known(false, true, true, site, lanes, lane, stamps, base),
        Kind::Replace => go_known(true, false, true, site, lanes, lane, stamps, base),
        Kind::FetchHalf => go_known(true, true, true, site, lanes, lane, stamps, base),
        Kind::AddHalf => go_known(true, false, true, site, lanes, lane, stamps, base),
        Kind::Apply(_) => go_known(false, false, true, site, lanes, lane, stamps, base),
    }
}

/// The same at all sites that are watched, one after another.
#[inline(always)]
fn go_lane(
    sites: &[Site],
    links: &[u8; 256],
    lanes: Lanes<'_>,
    lane: usize,
    stamps: &mut [u16],
    base: u16,
) -> bool
    requires lane { lane < 512 }
    requires some { 0 < length stamps.old }
    requires few { length sites.now ≤ 255 }
    requires links { AreLinks sites.now links.now }
    requires ranked { AreRanked sites.now }
    requires rows { All (HasRows (shown lanes)) sites.now }
    requires room { All (λ site. base + site.rank < 2 ^ 16) sites.now }
    ensures free { result ≡ true → All (WatchedFree stamps.old base (shown lanes.entry) lane) sites.now }
    ensures stamped { result ≡ true → All (WatchedStamped stamps.new base (shown lanes.entry) lane) sites.now }
    ensures own { result ≡ true → AllPairs (WatchedOwn (shown lanes.entry) lane) sites.now }
    ensures rises { Rises stamps.old stamps.new }
    ensures met { AreKnown sites.now (shown lanes.entry) base stamps.old lane 0 → result ≡ false
        → Meets sites.now (shown lanes.entry) (length stamps.old) lane }
    ensures known { AreKnown sites.now (shown lanes.entry) base stamps.old lane 0 → result ≡ true
        → AreKnown sites.now (shown lanes.entry) base stamps.new (lane + 1) 0 }
    ensures stale { StayStale sites.now base stamps.old stamps.new }
{
    let mut at = links[0] as usize;
    while at < sites.len() {
        if !go_at(&sites[at], lanes, lane, stamps, base) {
            return false;
        }
        at = links[at + 1] as usize;
    }
    true
}

/// How many lanes go, one after another, before the first that meets an earlier one, or itself.
pub(crate) fn count_unmet(
    sites: &[Site],
    links: &[u8; 256],
    lanes: Lanes<'_>,
    count: usize,
    stamps: &mut [u16],
    base: u16,
) -> usize
    requires room { count ≤ 512 }
    requires some { 0 < length stamps.old }
    requires few { length sites.now ≤ 255 }
    requires links { AreLinks sites.now links.now }
    requires ranked { AreRanked sites.now }
    requires rows { All (HasRows (shown lanes)) sites.now }
    requires stamps { All (λ site. base + site.rank < 2 ^ 16) sites.now }
    ensures few { result ≤ count }
    ensures unmet { WatchedUnmet sites.now (shown lanes.entry) result }
    ensures own { (lane : ℕ) → lane < result → AllPairs (WatchedOwn (shown lanes.entry) lane) sites.now }
    ensures exact { AreStale stamps.old base → result < count
        → Meets sites.now (shown lanes.entry) (length stamps.old) result }
    ensures stale { StayStale sites.now base stamps.old stamps.new }
{
    for lane in 0..count {
        if !go_lane(sites, links, lanes, lane, stamps, base) {
            return lane;
        }
    }
    count
}
