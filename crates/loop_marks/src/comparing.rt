//! Sites compared: whether no lane looks where it stored before, and what adds no mark to those of others.

ghost use Rattle.std.specs.{Prelude.{◌≡◌, ℕ, ◌/◌, ◌<◌, ◌≤◌, true, false, slice_index}, List.{All}};
ghost use Rattle.lane_rows.specs.Rows.{is_in, place_at};
ghost use Rattle.lane_stamps.specs.Forms.{IsFormOf};
ghost use Rattle.lane_stamps.specs.Sites.{HasRows, element_named, is_of_halves, place_of as place_in, places_of, shown};
ghost use Rattle.loop_marks.specs.{SiteMarks.{AreUnseen, GoesWith, IsApart, IsUnseen}, LaneMarks.{access_kind}};
ghost use Rattle.loop_marks.specs.SiteMarks.{AddsNothing, Covers, EachMark, kind_is_plain, kind_looks, kind_reduces_by};
ghost use Rattle.loop_marks.specs.SiteMarks.{kind_writes};

use array_maps::Op;
use lane_rows::{Mask, Places};
use lane_stamps::{Form, Kind, Lanes, Site, element_of, form_of, has, place_of};
use loop_core_model::Access;

/// Whether no lane looks at an element at a site where it stored at an earlier one, and had looked at none before: so
/// what it does may be marked in any order of the sites.
pub(crate) fn are_unseen(sites: &[Site], of_lanes: Lanes<'_>, lanes: u32) -> bool
    requires room { lanes ≤ 512 }
    requires rows { All (HasRows (shown of_lanes)) sites.now }
    ensures { result ≡ true → AreUnseen (shown of_lanes.entry) lanes sites.now }
{
    for at in 0..sites.len() {
        let site = &sites[at];
        if !looks(access_of(site.kind))
            && !is_covered(Access::Read, site, &sites[..at], of_lanes, lanes)
            && !is_unseen(site, &sites[at + 1..], of_lanes, lanes)
        {
            return false;
        }
    }
    true
}

/// Whether no lane looks, at one of some sites, at an element that it gets to at a site.
fn is_unseen(site: &Site, later: &[Site], of_lanes: Lanes<'_>, lanes: u32) -> bool
    requires room { lanes ≤ 512 }
    requires row { HasRows (shown of_lanes) site.now }
    requires rows { All (HasRows (shown of_lanes)) later.now }
    ensures { result ≡ true → IsUnseen (shown of_lanes.entry) lanes later.now site.now }
{
    for other in later {
        if !is_apart_if_looked(site, other, of_lanes, lanes) {
            return false;
        }
    }
    true
}

/// Whether lanes don't look at a site, or get to other elements there than at another.
fn is_apart_if_looked(site: &Site, other: &Site, of_lanes: Lanes<'_>, lanes: u32) -> bool
    requires room { lanes ≤ 512 }
    requires row { HasRows (shown of_lanes) site.now }
    requires other { HasRows (shown of_lanes) other.now }
    ensures { result ≡ true → kind_looks (access_kind other.now.kind) ≡ true
        → (lane : ℕ) → lane < lanes → IsApart (shown of_lanes.entry) lane site.now other.now }
{
    if !looks(access_of(other.kind))
        || are_forms_apart(site, other, of_lanes, lanes)
        || are_masks_apart(
            &of_lanes.masks[site.mask],
            &of_lanes.masks[other.mask],
            lanes as usize,
        )
    {
        return true;
    }
    for lane in 0..lanes {
        if !is_apart(site, other, of_lanes, lane as usize) {
            return false;
        }
    }
    true
}

/// Whether it is known that no lane is in two masks. Not where one has all lanes.
// Not inlined: its loop would spill the registers of the caller's.
#[inline(never)]
fn are_masks_apart(first: &Mask, second: &Mask, lanes: usize) -> bool
    requires { lanes ≤ 512 }
    ensures { result ≡ true → (lane : ℕ) → lane < lanes → is_in first.now lane ≡ true → is_in second.now lane ≡ true
        → ⊥ }
{
    if first.all || second.all {
        return false;
    }
    let mut meet = false;
    for lane in 0..lanes {
        meet = meet | (first.lanes[lane] & second.lanes[lane]);
    }
    !meet
}

/// Whether it is known at once that lanes get to other elements at one site than at another: both run on one after
/// another, from two elements on, or all lanes get to one element, and all to another.
fn are_forms_apart(first: &Site, second: &Site, of_lanes: Lanes<'_>, lanes: u32) -> bool
    requires room { lanes ≤ 512 }
    requires first { HasRows (shown of_lanes) first.now }
    requires second { HasRows (shown of_lanes) second.now }
    ensures { result ≡ true → (lane : ℕ) → lane < lanes → IsApart (shown of_lanes.entry) lane first.now second.now }
{
    match (
        form_at(first, of_lanes, lanes),
        form_at(second, of_lanes, lanes),
    ) {
        (Form::Run(place), Form::Run(other)) | (Form::One(place), Form::One(other)) => {
            element_of(first.kind.is_of_halves(), place)
                != element_of(second.kind.is_of_halves(), other)
        }
        _ => false,
    }
}

/// The form of the places of lanes at a site.
fn form_at(site: &Site, of_lanes: Lanes<'_>, lanes: u32) -> Form
    requires room { lanes ≤ 512 }
    requires rows { HasRows (shown of_lanes) site.now }
    ensures { IsFormOf result (is_of_halves site.now.kind) (places_of (shown of_lanes.entry) site.now) lanes
        4294967295 }
{
    let places = &of_lanes.places[site.places];
    form_of(
        places,
        site.kind.is_of_halves(),
        lanes as usize,
        u32::MAX as usize,
    )
}

/// Whether a lane gets to two elements at two sites, or to none at one.
#[inline(always)]
fn is_apart(first: &Site, second: &Site, of_lanes: Lanes<'_>, lane: usize) -> bool
    requires lane { lane < 512 }
    requires first { HasRows (shown of_lanes) first.now }
    requires second { HasRows (shown of_lanes) second.now }
    ensures { result ≡ true → IsApart (shown of_lanes.entry) lane first.now second.now }
{
    !has(&of_lanes.masks[first.mask], lane)
        || !has(&of_lanes.masks[second.mask], lane)
        || element_at(first, of_lanes, lane) != element_at(second, of_lanes, lane)
}

/// The element of a lane at a site.
#[inline(always)]
fn element_at(site: &Site, of_lanes: Lanes<'_>, lane: usize) -> usize
    requires lane { lane < 512 }
    requires rows { HasRows (shown of_lanes) site.now }
    ensures { result ≡ element_named (is_of_halves site.now.kind) (place_in (shown of_lanes.entry) site.now lane) }
{
    element_of(
        site.kind.is_of_halves(),
        place_of(&of_lanes.places[site.places], lane),
    )
}

/// Whether it is known that accesses, at the elements that lanes get to at a site, leave no mark that what the lanes do
/// at one of some others doesn't leave too.
pub(crate) fn is_covered(
    access: Access,
    site: &Site,
    others: &[Site],
    of_lanes: Lanes<'_>,
    lanes: u32,
) -> bool
    requires room { lanes ≤ 512 }
    requires row { HasRows (shown of_lanes) site.now }
    requires rows { All (HasRows (shown of_lanes)) others.now }
    ensures { result ≡ true → EachMark (AddsNothing (shown of_lanes.entry) lanes access site.now others.now) }
{
    for other in others {
        if covers(access_of(other.kind), access) && goes_with(site, other, of_lanes, lanes) {
            return true;
        }
    }
    false
}

/// Whether an access leaves all marks that another does.
fn covers(access: Access, other: Access) -> bool
    ensures { result ≡ true → Covers access other }
{
    let bits = match other {
        Access::Reduce(op) => reduces(access, op),
        _ => is_plain(access),
    };
    bits && (writes(access) || !writes(other)) && (looks(access) || !looks(other))
}

/// Whether it is known that lanes get at another site to the elements that they get to at a site: they are the same or
/// all lanes, and have the same places, or halves of the same elements.
fn goes_with(site: &Site, other: &Site, of_lanes: Lanes<'_>, lanes: u32) -> bool
    requires room { lanes ≤ 512 }
    requires row { HasRows (shown of_lanes) site.now }
    requires other { HasRows (shown of_lanes) other.now }
    ensures { result ≡ true → GoesWith (shown of_lanes.entry) lanes site.now other.now }
{
    let (first, second) = (
        &of_lanes.places[site.places],
        &of_lanes.places[other.places],
    );
    let halves = site.kind.is_of_halves();
    other.kind.is_of_halves() == halves
        && (other.mask == site.mask || of_lanes.masks[other.mask].all)
        && (other.places == site.places || (halves && are_of_same(first, second, lanes as usize)))
}

/// Whether it is known that halves are of the same elements in the first lanes. Others mostly differ in the first.
// Not inlined: its loop would spill the registers of the caller's.
#[inline(never)]
fn are_of_same(first: &Places, second: &Places, lanes: usize) -> bool
    requires { lanes ≤ 512 }
    ensures { result ≡ true → (lane : ℕ) → lane < lanes
        → element_named true (place_at first.now lane) ≡ element_named true (place_at second.now lane) }
{
    if first.line.is_some() || second.line.is_some() || first.lanes[0] / 2 != second.lanes[0] / 2 {
        return false;
    }
    let mut differ = false;
    for lane in 0..lanes {
        differ = differ | (first.lanes[lane] / 2 != second.lanes[lane] / 2);
    }
    !differ
}

/// Whether an access writes.
#[inline(always)]
pub(crate) fn writes(access: Access) -> bool
    ensures { result ≡ kind_writes access }
{
    !matches!(access, Access::Read)
}

/// Whether it looks at its element.
#[inline(always)]
pub(crate) fn looks(access: Access) -> bool
    ensures { result ≡ kind_looks access }
{
    !matches!(access, Access::Write)
}

/// Whether it is no reduce.
#[inline(always)]
pub(crate) fn is_plain(access: Access) -> bool
    ensures { result ≡ kind_is_plain access }
{
    !matches!(access, Access::Reduce(_))
}

/// Whether it reduces by an operator.
#[inline(always)]
pub(crate) fn reduces(access: Access, op: Op) -> bool
    ensures { result ≡ kind_reduces_by op access }
{
    match access {
        Access::Reduce(other) => op == other,
        _ => false,
    }
}

/// What an access of a kind is, as far as marks go.
#[inline(always)]
pub(crate) fn access_of(kind: Kind) -> Access
    ensures { result ≡ access_kind kind }
{
    match kind {
        Kind::Load | Kind::LoadHalf => Access::Read,
        Kind::Store => Access::Write,
        Kind::Fetch | Kind::Replace | Kind::FetchHalf => Access::Both,
        Kind::AddHalf => Access::Reduce(Op::AddH),
        Kind::Apply(op) => Access::Reduce(op),
    }
}
