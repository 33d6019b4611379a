//! Stamps from turn to turn.

ghost use Rattle.std.specs.{Prelude.{◌≡◌, ℕ, ◌+◌, ◌*◌, ◌<◌, ◌≤◌, ◌^◌, false, None, length}, List.{All, AllPairs}};
ghost use Rattle.lane_stamps.specs.{Sites.{HasRows, log_of, shown}, Marks.{AreLoaded}};
ghost use Rattle.lane_stamps.specs.Stamps.{AreKnownApart, AreRanked, AreStale, GoTogether, Meets};
ghost use Rattle.lane_stamps.specs.Stamps.{NoneAfterOwn, NoneMeets, WatchedOwn, WatchedUnmet};

use crate::covering::are_loaded;
use crate::links::link;
use crate::marking::{look_sites, mark_sites};
use crate::site::{Lanes, Site};
use crate::stamping::count_unmet;
use loop_core_model::law_of_operators;

/// How many sites a batch may have.
pub const MOST_SITES: usize = 255;

/// The greatest rank of a site, and so how far stamps rise in a turn by ranks.
const TURN: u16 = 256;

/// Fewer sites than this have stamps by lanes and ranks that fit into a turn.
const RANKED_SITES: usize = 128;

/// The half of a number has the slot of its remainder.
const SLOTS: usize = 32_768;

/// Takes all stamps away.
fn clear(stamps: &mut [u16])
    ensures { AreStale stamps.new 0 }
{
    for stamp in stamps.iter_mut() {
        *stamp = 0;
    }
}

/// Whether places are halves at the first site that is watched; `None` if none is.
fn watched_size(sites: &[Site]) -> Option<bool>
    ensures { result ≡ None → All (λ site. site.watched ≡ false) sites.now }
{
    for site in sites {
        if site.watched {
            return Some(site.kind.is_of_halves());
        }
    }
    None
}

/// Stamps of all turns. Those of earlier turns are never greater than the base of the next, and so they don't matter;
/// if it would pass the greatest number, all begin anew.
#[derive(Drop)]
pub struct Stamps {
    stamps: [u16; SLOTS],
    base: u16,
    ghost stale: { AreStale stamps base },
}

impl Stamps {
    /// None.
    pub fn new() -> Stamps {
        let mut stamps = [0; SLOTS];
        clear(&mut stamps);
        Stamps { stamps, base: 0 }
    }

    /// Begins a turn: there is room for its stamps.
    #[inline(always)]
    fn begin(&mut self, rise: u16)
        ensures { self.new.base + rise < 2 ^ 16 }
    {
        if self.base > u16::MAX - rise {
            clear(&mut self.stamps);
            self.base = 0;
        }
    }

    /// How many lanes go before the first that meets an earlier one, or itself, at the sites that are watched.
    fn count_watched(
        &mut self,
        sites: &[Site],
        lanes: Lanes<'_>,
        count: usize,
        halves: bool,
    ) -> usize
        requires room { count ≤ 512 }
        requires few { length sites.now ≤ 255 }
        requires ranked { AreRanked sites.now }
        requires rows { All (HasRows (shown lanes)) sites.now }
        ensures few { result ≤ count }
        ensures unmet { WatchedUnmet sites.now (shown lanes.entry) result }
        ensures own { (lane : ℕ) → lane < result → AllPairs (WatchedOwn (shown lanes.entry) lane) sites.now }
        ensures exact { result < count → Meets sites.now (shown lanes.entry) 32768 result }
    {
        if sites.len() < RANKED_SITES && are_loaded(sites, lanes, halves, count) {
            let rise = (sites.len() * (count + 1)) as u16;
            self.begin(rise);
            mark_sites(sites, lanes, count, &mut self.stamps, self.base);
            let limit = look_sites(sites, lanes, count, &self.stamps, self.base);
            self.base += rise;
            return limit;
        }
        let mut links = [0; 256];
        link(sites, &mut links);
        self.begin(TURN);
        let limit = count_unmet(sites, &links, lanes, count, &mut self.stamps, self.base);
        self.base += TURN;
        limit
    }

    /// How many of the first lanes may go together: all, or those before the first that meets an earlier one, or loads
    /// what it left itself.
    ///
    /// Sites are ranked, and at most `MOST_SITES`. Only those that are watched are looked at. Two halves have one stamp
    /// if their numbers are equal modulo 32,768: then a lane may be stopped that meets none.
    pub fn limit(&mut self, sites: &[Site], lanes: Lanes<'_>, count: usize) -> usize
        requires room { count ≤ 512 }
        requires few { length sites.now ≤ 255 }
        requires ranked { AreRanked sites.now }
        requires rows { All (HasRows (shown lanes)) sites.now }
        requires apart { AreKnownApart sites.now (shown lanes) count }
        ensures few { result ≤ count }
        ensures together { GoTogether (log_of sites.now (shown lanes.entry)) result }
        ensures own { NoneAfterOwn sites.now (shown lanes.entry) result }
        ensures unmet { NoneMeets sites.now (shown lanes.entry) result }
        ensures exact { result < count → Meets sites.now (shown lanes.entry) 32768 result }
    {
        law_of_operators();
        let Some(halves) = watched_size(sites) else {
            return count;
        };
        self.count_watched(sites, lanes, count, halves)
    }
}
