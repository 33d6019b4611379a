//! Which sites are watched.

ghost use Rattle.std.specs.Prelude.{◌≡◌, ℕ, ◌<◌, true};
ghost use Rattle.row_facts.specs.declared.meeting.Meeting.{Meeting};
ghost use Rattle.row_facts.specs.Marks.{AreEven, AreMarked, IsEven, IsEvenWith, IsWatched, WatchesEach};

use crate::Meeting;
use lane_stamps::{MOST_SITES, Site, alike};

/// Marks two sites.
fn mark(marks: &mut [bool; MOST_SITES], first: usize, second: usize) {
    if first < MOST_SITES && second < MOST_SITES {
        marks[first] = true;
        marks[second] = true;
    }
}

/// Marks the sites of meetings.
pub(crate) fn mark_meetings(marks: &mut [bool; MOST_SITES], meetings: &[Meeting]) {
    for meeting in meetings {
        mark(marks, meeting.first, meeting.second);
    }
}

/// Marks those two and two at which lanes reduce by one operator, with something else between.
pub(crate) fn mark_uneven(marks: &mut [bool; MOST_SITES], sites: &[Site]) {
    for first in 0..sites.len() {
        for second in 0..sites.len() {
            if alike(sites[first].kind, sites[second].kind)
                && sites[first].rank != sites[second].rank
            {
                mark(marks, first, second);
            }
        }
    }
}

/// Whether the site of a number is watched, if there is one.
fn is_watched(sites: &[Site], at: usize) -> bool
    ensures { result ≡ true → IsWatched sites.now at }
{
    at >= sites.len() || sites[at].watched
}

/// Whether the sites of all meetings are watched.
fn are_watched(sites: &[Site], meetings: &[Meeting]) -> bool
    ensures { result ≡ true → WatchesEach sites.now meetings.now }
{
    for k in 0..meetings.len() {
        let meeting = meetings[k];
        if !is_watched(sites, meeting.first) || !is_watched(sites, meeting.second) {
            return false;
        }
    }
    true
}

/// Whether two sites are watched, or don't reduce by one operator, or have one rank.
fn is_even(site: &Site, other: &Site) -> bool
    ensures { result ≡ true → IsEven site.now other.now }
{
    (site.watched && other.watched) || !alike(site.kind, other.kind) || site.rank == other.rank
}

/// Whether a site is even with each of some.
fn is_even_with(sites: &[Site], site: &Site) -> bool
    ensures { result ≡ true → IsEvenWith sites.now site.now }
{
    for other in sites {
        if !is_even(site, other) {
            return false;
        }
    }
    true
}

/// Whether each two sites are even.
fn are_even(sites: &[Site]) -> bool
    ensures { result ≡ true → AreEven sites.now }
{
    for site in sites {
        if !is_even_with(sites, site) {
            return false;
        }
    }
    true
}

/// Whether all sites are watched that have to be.
pub(crate) fn are_marked(sites: &[Site], meetings: &[Meeting]) -> bool
    ensures { result ≡ true → AreMarked meetings.now sites.now }
{
    are_watched(sites, meetings) && are_even(sites)
}
