//! The sites of a list, found.

ghost use Rattle.std.specs.Prelude.{◌≡◌, ◌≤◌, ◌++◌, ◌∷◌, [], true, List, length, IfOk, IfSome};
ghost use Rattle.lane_stamps.specs.Stamps.{AreRanked};
ghost use Rattle.row_facts.specs.{Meetings.{AreMeetings}, Lists.{AreListSites}, SiteKinds.{AreListed, IsKindOf}};
ghost use Rattle.row_list.specs.declared.row_op.RowOp.{RowOp};

use crate::kinds::kind_of;
use crate::marking::{are_marked, mark_meetings, mark_uneven};
use crate::narrowing::is_narrower;
use crate::slots::{Slot, number_at, slots_of};
use crate::{Meeting, meetings};
use lane_stamps::{MOST_SITES, Site, rank_sites};
use row_list::{Place, RowList, RowOp};
use std::alloc::{AllocError, Global};

/// The sites of a list, in order: at most `MOST_SITES`.
#[derive(Drop)]
pub struct ListSites {
    /// The accesses.
    pub accesses: Vec<RowOp>,
    /// What is done at each, with the numbers of the rows where what it takes goes.
    pub sites: Vec<Site>,
    /// What a batch does at each operation of the list.
    pub slots: Vec<Slot>,
}

/// The sites of a list, without its slots.
#[derive(Drop)]
struct Listed {
    accesses: Vec<RowOp>,
    sites: Vec<Site>,
    /// The number of the places of each operation that is an access.
    places: Vec<u8>,
}

/// Whether the places of an access serve for a later one: it is at the same bytes, in the same lanes or in fewer.
fn serve(list: &RowList, places: &Place, other: &Place) -> bool {
    places.address == other.address
        && places.offset == other.offset
        && places.width == other.width
        && is_narrower(list.list.as_slice(), other.mask, places.mask)
}

/// The number of the places of an access: those of an earlier one that serve for it, or new ones.
fn number_of(list: &RowList, made: &Listed, place: &Place) -> usize {
    let mut next: usize = 0;
    for (access, site) in made.accesses.iter().zip(made.sites.iter()) {
        if let Some(places) = access.place()
            && serve(list, &places, place)
        {
            return site.places;
        }
        if site.places >= next && site.places < MOST_SITES {
            next = site.places + 1;
        }
    }
    next
}

/// The number of a value's row.
fn row_of(list: &RowList, value: usize) -> usize {
    usize::from(number_at(list.rows.as_slice(), value))
}

/// The site of an access at a place, if it has one; `places` is the number of the places of its lanes.
fn site_of(list: &RowList, op: &RowOp, place: &Place, places: usize, watched: bool) -> Option<Site>
    ensures { IfSome result (IsKindOf op.now) }
{
    let kind = kind_of(op)?;
    let value = match *op {
        RowOp::Store { value, .. } | RowOp::Reduce { value, .. } => row_of(list, value),
        _ => 0,
    };
    Some(Site {
        kind,
        rank: 0,
        watched,
        mask: row_of(list, place.mask),
        places,
        value,
    })
}

/// Lists the site of one more operation, if it is an access. Whether there is room for it, and it has one.
#[tactic(auto, using(crate::proofs::ListLaws::listed_same))]
fn list_site(
    made: &mut Listed,
    list: &RowList,
    op: &RowOp,
    marks: &[bool; MOST_SITES],
) -> Result<bool, AllocError>
    ensures { IfOk result (λ good. good ≡ true → (ops : List RowOp) →
        AreListed ops made.old.accesses.items made.old.sites.items →
        AreListed (ops ++ op.now ∷ []) made.new.accesses.items made.new.sites.items) }
{
    let Some(place) = op.place() else {
        made.places.push(0)?;
        return Ok(true);
    };
    let count = made.sites.len();
    if count >= MOST_SITES {
        return Ok(false);
    }
    let number = number_of(list, made, &place);
    let Some(site) = site_of(list, op, &place, number, marks[count]) else {
        return Ok(false);
    };
    made.accesses.extend_from_slice(&[*op])?;
    made.sites.extend_from_slice(&[site])?;
    made.places.push(number.min(255) as u8)?;
    Ok(true)
}

/// Ranks the sites of a list.
#[tactic(auto, using(crate::proofs::ListLaws::listed_ranked))]
fn rank_listed(sites: &mut [Site])
    requires { length sites.old ≤ 255 }
    ensures ranked { AreRanked sites.new }
    ensures listed { (list ops : List RowOp) → AreListed list ops sites.old → AreListed list ops sites.new }
{
    rank_sites(sites);
}

/// The sites of a list, ranked, and watched where they are marked. `None` if there are too many, or one has no kind.
#[tactic(auto, using(crate::proofs::ListLaws::listed_next))]
fn ranked_sites(
    alloc: Global,
    list: &RowList,
    marks: &[bool; MOST_SITES],
) -> Result<Option<Listed>, AllocError>
    ensures listed { IfOk result (λ found. IfSome found (λ made. AreListed list.now.list.items made.accesses.items
        made.sites.items)) }
    ensures ranked { IfOk result (λ found. IfSome found (λ made. AreRanked made.sites.items)) }
    ensures few { IfOk result (λ found. IfSome found (λ made. length made.sites.items ≤ 255)) }
{
    let mut made = Listed {
        accesses: Vec::new(alloc),
        sites: Vec::new(alloc),
        places: Vec::new(alloc),
    };
    for op in list.list.as_slice() {
        if !list_site(&mut made, list, op, marks)? {
            return Ok(None);
        }
    }
    if made.sites.len() > MOST_SITES {
        return Ok(None);
    }
    rank_listed(made.sites.as_mut_slice());
    Ok(Some(made))
}

/// The sites of a list, ranked. Those are watched that may meet, and those at which lanes reduce by one operator with
/// something else between. `None` if there are too many, or one is of an access that has no kind. It fails where memory
/// runs out.
#[tactic(auto, using(crate::proofs::MarkLaws::list_sites_of))]
pub fn list_sites(alloc: Global, list: &RowList) -> Result<Option<ListSites>, AllocError>
    ensures { IfOk result (λ found. IfSome found (AreListSites list.now.list.items)) }
{
    let meetings = meetings(alloc, list.list.as_slice())?;
    let mut marks = [false; MOST_SITES];
    mark_meetings(&mut marks, meetings.as_slice());
    let Some(first) = ranked_sites(alloc, list, &marks)? else {
        return Ok(None);
    };
    mark_uneven(&mut marks, first.sites.as_slice());
    let Some(made) = ranked_sites(alloc, list, &marks)? else {
        return Ok(None);
    };
    if !are_marked(made.sites.as_slice(), meetings.as_slice()) {
        return Ok(None);
    }
    let slots = slots_of(alloc, list, made.places.as_slice())?;
    Ok(Some(ListSites {
        accesses: made.accesses,
        sites: made.sites,
        slots,
    }))
}
