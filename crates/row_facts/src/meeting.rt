//! Pairs of sites that lanes may meet at.

ghost use Rattle.std.specs.Prelude.{◌≡◌, ℕ, List, ◌<◌, ◌≤◌, true, false, IfOk, OnOk, length};
ghost use Rattle.row_list.specs.declared.row_op.RowOp.{RowOp};
ghost use Rattle.row_facts.specs.{declared.fact.Fact.{Fact}, Facts.{AreFacts}};
ghost use Rattle.row_facts.specs.{Sites.{AreSites, bytes_in}, Elements.{reads}};
ghost use Rattle.row_facts.specs.Meetings.{IsAligned, loads, leaves, ReducesBy, ReduceAlike, AreApart, LanesNeverMeet};
ghost use Rattle.row_facts.specs.Meetings.{AreApartInLane, LoadsNoOwn, LoadsNoneOwn, NeverMeet, AreMeetings, AreKept};
ghost use Rattle.row_facts.specs.Meetings.{AreDone, Follows, IsListedOrNever};

use crate::apart::{are_apart, are_lines_apart};
use crate::lines::{is_of_multiples, line_at};
use crate::narrowing::are_masks_apart;
use crate::site::{Site, sites};
use crate::transfer::facts;
use bpf_insn_types::{SimpleOp, Width};
use row_list::RowOp;
use std::alloc::{AllocError, Global};

/// How many lanes a batch has at most.
const LANES: u64 = 512;

/// How many steps are made at most to find that two masks are apart.
const MASK_STEPS: u32 = 64;

/// Two sites, by their numbers: a lane may touch a half at the first that an earlier lane, or the lane itself, left at
/// the second.
#[derive(Clone, Copy)]
pub struct Meeting {
    pub first: usize,
    pub second: usize,
}

/// Whether lanes go on with what they find there.
pub fn loads(op: &RowOp) -> bool
    ensures { result ≡ loads op.now }
{
    matches!(op, RowOp::Load { .. } | RowOp::Fetch { .. })
}

/// Whether they leave something there.
pub fn leaves(op: &RowOp) -> bool
    ensures { result ≡ leaves op.now }
{
    matches!(
        op,
        RowOp::Store { .. } | RowOp::Reduce { .. } | RowOp::Fetch { .. }
    )
}

/// Whether an access reads its element, for the verdict: all but a store of a whole word does.
pub fn reads(op: &RowOp) -> bool
    ensures { result ≡ reads op.now }
{
    match *op {
        RowOp::Store { place, .. } => place.width == Width::W32,
        _ => op.is_access(),
    }
}

/// How many bytes an access at a width is of.
fn bytes_in(width: Width) -> u64
    ensures { result ≡ bytes_in width }
{
    match width {
        Width::W32 => 4,
        Width::W64 => 8,
    }
}

/// Whether an operation reduces by an operator, so many bytes at once.
fn reduces_by(operation: &RowOp, bytes: u64, operator: SimpleOp) -> bool
    ensures { result ≡ true → ReducesBy bytes operator operation.now }
{
    match *operation {
        RowOp::Reduce { place, op, .. } => bytes_in(place.width) == bytes && op == operator,
        _ => false,
    }
}

/// Whether both reduce, by one operator.
pub fn reduce_alike(first: &RowOp, second: &RowOp) -> bool
    ensures { result ≡ true → ReduceAlike first.now second.now }
{
    match *first {
        RowOp::Reduce { place, op, .. } => reduces_by(second, bytes_in(place.width), op),
        _ => false,
    }
}

/// Whether the byte of an access is known to be a multiple of its size.
fn is_aligned(site: &Site) -> bool
    ensures { result ≡ true → IsAligned site.now }
{
    match site.place.width {
        Width::W32 => is_of_multiples(site.byte.line, 2),
        Width::W64 => is_of_multiples(site.byte.line, 3),
    }
}

/// Whether lanes never touch a half at the first site that one so many indexes before touches at the second.
fn never_touch(first: &Site, second: &Site, from: u64, upto: u64) -> bool
    ensures { result ≡ true → (list : List RowOp) → Follows list first.now second.now ((distance : ℕ) →
        from ≤ distance → distance < upto → AreApart list first.now.op second.now.op distance) }
{
    let first_size = bytes_in(first.place.width);
    let second_size = bytes_in(second.place.width);
    is_aligned(first)
        && is_aligned(second)
        && are_apart(first.byte, first_size, second.byte, second_size, from, upto)
}

/// Whether two sites are at one address, and their bytes are apart by the offsets.
fn are_offsets_apart(first: &Site, second: &Site) -> bool
    ensures { result ≡ true → (list : List RowOp) → Follows list first.now second.now
        (AreApartInLane list first.now.op second.now.op) }
{
    if first.place.address != second.place.address {
        return false;
    }
    let line = line_at(&first.place);
    let other = line_at(&second.place);
    let first_size = bytes_in(first.place.width);
    let second_size = bytes_in(second.place.width);
    is_aligned(first)
        && is_aligned(second)
        && are_lines_apart(line, first_size, other, second_size, 0)
}

/// Whether a lane may touch at the first site what an earlier one left at the second, where order matters.
fn lanes_may_meet(first: usize, at: &Site, second: usize, by: &Site) -> bool
    ensures { result ≡ false → (list : List RowOp) → Follows list at.now by.now
        (LanesNeverMeet list first second at.now.op by.now.op) }
{
    if !leaves(&by.op) || (!loads(&at.op) && second <= first) {
        return false;
    }
    !reduce_alike(&at.op, &by.op) && !never_touch(at, by, 1, LANES)
}

/// Whether a lane may load at the first site what it left itself at the second: their bytes may be the same, and it may
/// make both accesses.
#[tactic(auto, using(crate::proofs::MeetingLaws::same_lane, crate::proofs::MeetingLaws::masks_apart))]
fn own_may_meet(list: &[RowOp], first: usize, at: &Site, second: usize, by: &Site) -> bool
    ensures { result ≡ false → Follows list.now at.now by.now
        (LoadsNoOwn list.now first second at.now.op by.now.op) }
{
    if !leaves(&by.op) || !loads(&at.op) || first <= second {
        return false;
    }
    if never_touch(at, by, 0, 1) || are_offsets_apart(at, by) {
        return false;
    }
    !are_masks_apart(list, at.place.mask, by.place.mask, MASK_STEPS)
}

/// Whether a lane may load at a site of a list, by its number, what it left itself before, at another.
pub fn may_load_own(list: &[RowOp], sites: &[Site], first: usize) -> bool
    ensures { result ≡ false → (facts : List Fact) → AreFacts list.now facts →
        AreSites list.now facts list.now sites.now → LoadsNoneOwn list.now first }
{
    if first >= sites.len() {
        return true;
    }
    for second in 0..sites.len() {
        if own_may_meet(list, first, &sites[first], second, &sites[second]) {
            return true;
        }
    }
    false
}

/// Whether two sites may meet.
fn may_meet(list: &[RowOp], first: usize, at: &Site, second: usize, by: &Site) -> bool
    ensures { result ≡ false → Follows list.now at.now by.now
        (NeverMeet list.now first second at.now.op by.now.op) }
{
    lanes_may_meet(first, at, second, by) || own_may_meet(list, first, at, second, by)
}

/// Adds the meetings at a site. It fails where memory runs out.
fn add_meetings(
    meetings: &mut Vec<Meeting>,
    list: &[RowOp],
    sites: &[Site],
    first: usize,
) -> Result<(), AllocError>
    requires { first < length sites.now }
    ensures kept { OnOk result (AreKept meetings.old.items meetings.new.items) }
    ensures done { OnOk result (AreDone list.now sites.now first (length sites.now)
        (IsListedOrNever list.now meetings.new.items first)) }
{
    for second in 0..sites.len() {
        if may_meet(list, first, &sites[first], second, &sites[second]) {
            meetings.push(Meeting { first, second })?;
        }
    }
    Ok(())
}

/// The pairs of sites of a list at which lanes of a batch may meet, for all indexes up to 2^23. A site is numbered by
/// how many accesses are before it. It fails where memory runs out.
pub fn meetings(alloc: Global, ops: &[RowOp]) -> Result<Vec<Meeting>, AllocError>
    ensures { IfOk result (λ meetings. AreMeetings ops.now meetings.items) }
{
    let facts = facts(alloc, ops)?;
    let listed = sites(alloc, ops, &facts)?;
    let sites = listed.as_slice();
    let mut meetings = Vec::new(alloc);
    for first in 0..sites.len() {
        add_meetings(&mut meetings, ops, sites, first)?;
    }
    Ok(meetings)
}
