//! The ranks of sites.

ghost use Rattle.std.specs.Prelude.{◌≡◌, ◌+◌, ◌<◌, ◌≤◌, ◌^◌, true, length, slice_index_or, slice_set};
ghost use Rattle.lane_stamps.specs.{Sites.{LaneRows, leaves, log_of, ranked_as, unranked}, declared.site.Site.{Site}};
ghost use Rattle.lane_stamps.specs.Stamps.{AreRanked, last_kind, reduce_alike};

use crate::kind::Kind;
use crate::site::Site;
use array_maps::Op;

/// Whether lanes reduce at sites of both kinds, by one operator.
pub fn alike(first: Kind, second: Kind) -> bool
    ensures { result ≡ reduce_alike first second }
{
    match (first, second) {
        (Kind::Apply(op), Kind::Apply(other)) => op == other,
        (Kind::Apply(op), Kind::AddHalf) => op == Op::AddH,
        (Kind::AddHalf, Kind::Apply(op)) => op == Op::AddH,
        (Kind::AddHalf, Kind::AddHalf) => true,
        _ => false,
    }
}

/// Gives a site a rank.
fn set_rank(sites: &mut [Site], at: usize, rank: u32)
    requires { at < length sites.old }
    ensures { (d : Site) → sites.new ≡ slice_set sites.old at (ranked_as rank (slice_index_or sites.old at d)) }
{
    let site = &mut sites[at];
    site.rank = rank;
}

/// The rank of a site, after those before it: the last of these that leaves something is of this kind.
fn next_rank(rank: u32, last: Kind, kind: Kind) -> u32
    requires { rank + 1 < 2 ^ 32 }
    ensures rises { rank ≤ result }
    ensures by_one { result ≤ rank + 1 }
    ensures alike { leaves kind ≡ true → result ≡ rank → reduce_alike last kind ≡ true }
{
    if !kind.leaves() || alike(last, kind) {
        rank
    } else {
        rank + 1
    }
}

/// The kind of the last site that leaves something, after one more.
fn next_last(last: Kind, kind: Kind) -> Kind
    ensures { result ≡ last_kind last kind }
{
    if kind.leaves() { kind } else { last }
}

/// Gives each site its rank. Nothing else of them changes.
pub fn rank_sites(sites: &mut [Site])
    requires { length sites.old + 2 < 2 ^ 32 }
    ensures ranked { AreRanked sites.new }
    ensures same { unranked sites.new ≡ unranked sites.old }
    ensures log { (lanes : LaneRows) → log_of sites.new lanes ≡ log_of sites.old lanes }
{
    let mut rank = 1;
    let mut last = Kind::Load;
    for at in 0..sites.len() {
        let kind = sites[at].kind;
        rank = next_rank(rank, last, kind);
        last = next_last(last, kind);
        set_rank(sites, at, rank);
    }
}
