//! Marks of the lanes of a batch for the flow test, site by site.

ghost use Rattle.std.specs.Prelude.{◌≡◌, ℕ, ◌+◌, ◌-◌, ◌*◌, ◌%◌, ◌^◌, ◌<◌, ◌≤◌, ◌∷◌, [], true, false, length};
ghost use Rattle.std.specs.{Prelude.{slice_index, IfNone, IfSome}, List.{All}};
ghost use Rattle.array_maps.specs.declared.access.Op.{Op as Operator};
ghost use Rattle.lane_rows.specs.{Lanes.{MaskHas}, Rows.{is_in}};
ghost use Rattle.lane_stamps.specs.Sites.{HasRows, IsWithin, element_named, is_of_halves, shown};
ghost use Rattle.loop_core_model.specs.declared.loop_test.Test.TheVariants.{Flow};
ghost use Rattle.shadow_marks.specs.declared.planes.Planes.{Planes as MarkedPlanes};
ghost use Rattle.shadow_marks.specs.{Bits.{ChangesNumber, OrsBit}, Standing.{ArePlanes, EachPlane, plane_by, test_of}};
ghost use Rattle.loop_marks.specs.SiteMarks.{AreBelow, AreElements, AreReached, FlowKeeps, HaveNumbers, IsEnd};
ghost use Rattle.loop_marks.specs.SiteMarks.{KeepsNumbers, SetsBits, SitesMarked, gets_to, kept, kind_is_plain};
ghost use Rattle.loop_marks.specs.SiteMarks.{reaches, touches_in};
ghost use Rattle.loop_marks.specs.SiteMarks.{kind_looks, kind_reduces_by, kind_writes, reached_by, runs_on, runs_to};

use crate::comparing::{access_of, is_covered, is_plain, looks, reduces, writes};
use array_maps::Op;
use lane_rows::{Mask, Places, is_empty};
use lane_stamps::{Form, Kind, Lanes, Site, element_of, form_of, place_on};
use loop_core_model::Access;
use shadow_marks::{OperatorPlanes, Planes, Tested};

/// Marks what the first lanes of a batch did at a site, in planes for the flow test that have the marks of some other
/// sites: they are the iterations from an index on. Nothing is done where one of those sites covers it.
pub(crate) fn mark_site(
    planes: &mut Planes,
    site: &Site,
    others: &[Site],
    of_lanes: Lanes<'_>,
    lanes: u32,
    index: u32,
)
    requires whole { ArePlanes planes.old }
    requires test { test_of planes.old.tested ≡ Flow }
    requires room { lanes ≤ 512 }
    requires indexes { index + lanes ≤ 4294967295 }
    requires row { HasRows (shown of_lanes) site.now }
    requires rows { All (HasRows (shown of_lanes)) others.now }
    requires within { IsWithin planes.old.elements lanes (shown of_lanes) site.now }
    ensures { (before : MarkedPlanes)
        → SitesMarked (touches_in (shown of_lanes.entry) others.now) index lanes before planes.old
        → SitesMarked (touches_in (shown of_lanes.entry) (site.now ∷ others.now)) index lanes before planes.new }
{
    let access = access_of(site.kind);
    if is_covered(access, site, others, of_lanes, lanes) {
        return;
    }
    let mask = &of_lanes.masks[site.mask];
    let places = &of_lanes.places[site.places];
    let Some(first) = end_of(mask, false, lanes) else {
        return;
    };
    let Some(last) = end_of(mask, true, lanes) else {
        return;
    };
    let halves = site.kind.is_of_halves();
    let elements = elements_of(halves, mask, places, lanes, planes.elements);
    let reached = Reached {
        halves,
        mask,
        places,
        lanes,
        first,
        last,
        elements,
    };
    set_bits(&mut planes.plain, is_plain(access), reached);
    mark_operators(&mut planes.operators, access, reached);
    mark_numbers(&mut planes.tested, access, reached, index);
}

/// How the elements of lanes lie.
#[derive(Clone, Copy)]
pub(crate) enum Elements {
    /// All lanes of the mask get to this one.
    One(usize),
    /// All lanes get to places that run on one after another, which are halves or elements, from a first one on.
    Run { halves: bool, first: u32 },
    /// Anyhow.
    Any,
}

/// Where lanes get to.
#[derive(Clone, Copy)]
pub(crate) struct Reached<'a> {
    /// Whether their places are halves.
    halves: bool,
    /// Which of them get there.
    mask: &'a Mask,
    /// Their places.
    places: &'a Places,
    /// How many lanes there are.
    lanes: u32,
    /// The first of them that gets there.
    first: u32,
    /// And the last.
    last: u32,
    /// How their elements lie.
    elements: Elements,
}

/// How the elements of the lanes of a mask lie, below a number.
fn elements_of(halves: bool, mask: &Mask, places: &Places, lanes: u32, elements: u32) -> Elements
    requires { lanes ≤ 512 }
    ensures { AreElements elements result halves mask.now places.now lanes }
{
    let form = form_of(places, halves, lanes as usize, elements as usize);
    match (form, places.line) {
        (Form::One(place), _) => Elements::One(element_of(halves, place)),
        (Form::Run(first), _) if mask.all => Elements::Run {
            halves: false,
            first: element_of(halves, first) as u32,
        },
        (Form::Any, Some(line))
            if mask.all
                && halves
                && line.step == 1
                && line.first <= u32::MAX - 1024
                && line.first as usize + lanes as usize <= 2 * elements as usize => {
            Elements::Run {
                halves: true,
                first: line.first,
            }
        }
        _ => Elements::Any,
    }
}

/// Marks what lanes reduce, by the operator.
fn mark_operators(planes: &mut OperatorPlanes, access: Access, reached: Reached<'_>)
    requires { EachPlane (λ words. AreReached (64 * length words) reached) planes.old }
    ensures { (op : Operator) → SetsBits (reached_by reached.entry (kind_reduces_by op access)) reached.entry.lanes
        (plane_by planes.old op) (plane_by planes.new op) }
{
    set_bits(&mut planes.add, reduces(access, Op::Add), reached);
    set_bits(&mut planes.or, reduces(access, Op::Or), reached);
    set_bits(&mut planes.and, reduces(access, Op::And), reached);
    set_bits(&mut planes.xor, reduces(access, Op::Xor), reached);
    set_bits(&mut planes.addh, reduces(access, Op::AddH), reached);
}

/// Marks the least index that writes an element, and one more than the greatest that looks at it.
fn mark_numbers(tested: &mut Tested, access: Access, reached: Reached<'_>, index: u32)
    requires reached { HaveNumbers reached tested.old }
    requires indexes { index + reached.lanes ≤ 4294967295 }
    ensures { FlowKeeps (λ holds. reached_by reached.entry (holds access)) reached.entry.lanes index tested.old
        tested.new }
{
    if let Tested::Flow(planes) = tested {
        keep_numbers(&mut planes.first, writes(access), false, reached, index);
        keep_numbers(&mut planes.last, looks(access), true, reached, index);
    }
}

/// If something is done, each lane sets its element's bit.
fn set_bits(words: &mut [u64], done: bool, reached: Reached<'_>)
    requires { AreReached (64 * length words.old) reached }
    ensures { SetsBits (reached_by reached.entry done) reached.entry.lanes words.old words.new }
{
    if done {
        match reached.elements {
            Elements::One(at) => set_bit(words, at),
            Elements::Run { halves, first } => {
                let start = element_of(halves, first);
                let end = element_of(halves, first + (reached.lanes - 1)) + 1;
                set_run(words, start, (end - start) as u32);
            }
            Elements::Any => set_each(words, reached),
        }
    }
}

/// The same, one element at a time.
fn set_each(words: &mut [u64], reached: Reached<'_>)
    requires room { reached.lanes ≤ 512 }
    requires within { AreBelow (64 * length words.old) reached.lanes reached.halves reached.mask.now
        reached.places.now }
    ensures { SetsBits (gets_to reached.entry.halves reached.entry.mask.now reached.entry.places.now)
        reached.entry.lanes words.old words.new }
{
    let all = reached.mask.all;
    let line = reached.places.line;
    for lane in 0..reached.lanes as usize {
        if all || reached.mask.lanes[lane] {
            set_bit(
                words,
                element_of(reached.halves, place_on(line, reached.places, lane)),
            );
        }
    }
}

/// The same of elements that run on one after another, a word at a time.
pub fn set_run(words: &mut [u64], start: usize, lanes: u32)
    requires within { start + lanes ≤ 64 * length words.old }
    requires small { start + lanes < 4294967296 }
    ensures { SetsBits (runs_to start) lanes words.old words.new }
{
    let end = start + lanes as usize;
    let mut from = start;
    while from < end {
        let word = from / 64;
        let to = end.min(64 * word + 64);
        words[word] |= bits(from - 64 * word, to - 64 * word);
        from = to;
    }
}

/// The bits of a word from one up to another.
#[inline(always)]
fn bits(from: usize, to: usize) -> u64
    requires rising { from < to }
    requires within { to ≤ 64 }
    ensures { result ≡ 2 ^ to - 2 ^ from }
{
    ((1u128 << to) - (1u128 << from)) as u64
}

/// If something is done, each lane keeps in its element the lesser of two numbers, or the greater: the one that is
/// there, and the index of its iteration, or one more.
fn keep_numbers(numbers: &mut [u32], done: bool, greatest: bool, reached: Reached<'_>, index: u32)
    requires reached { AreReached (length numbers.old) reached }
    requires indexes { index + reached.lanes ≤ 4294967295 }
    ensures { KeepsNumbers greatest (reached_by reached.entry done) reached.entry.lanes index numbers.old
        numbers.new }
{
    if done {
        match reached.elements {
            Elements::One(at) => {
                let lane = if greatest {
                    reached.last
                } else {
                    reached.first
                };
                keep(numbers, at, greatest, index, lane);
            }
            Elements::Run { halves, first } => {
                keep_run(numbers, greatest, halves, first, reached.lanes, index);
            }
            Elements::Any => keep_each(numbers, greatest, reached, index),
        }
    }
}

/// The same at any elements.
fn keep_each(numbers: &mut [u32], greatest: bool, reached: Reached<'_>, index: u32)
    requires room { reached.lanes ≤ 512 }
    requires indexes { index + reached.lanes ≤ 4294967295 }
    requires within { AreBelow (length numbers.old) reached.lanes reached.halves reached.mask.now reached.places.now }
    ensures { KeepsNumbers greatest (gets_to reached.entry.halves reached.entry.mask.now reached.entry.places.now)
        reached.entry.lanes index numbers.old numbers.new }
{
    let all = reached.mask.all;
    let line = reached.places.line;
    for lane in 0..reached.lanes {
        if all || reached.mask.lanes[lane as usize] {
            let place = place_on(line, reached.places, lane as usize);
            keep(
                numbers,
                element_of(reached.halves, place),
                greatest,
                index,
                lane,
            );
        }
    }
}

/// The same at places that run on one after another: each element is changed once, by the lane that counts.
fn keep_run(numbers: &mut [u32], greatest: bool, halves: bool, first: u32, lanes: u32, index: u32)
    requires some { 0 < lanes }
    requires within { (lane : ℕ) → lane < lanes → element_named halves (first + lane) < length numbers.old }
    requires small { first + lanes < 4294967296 }
    requires indexes { index + lanes ≤ 4294967295 }
    ensures { KeepsNumbers greatest (runs_on halves first) lanes index numbers.old numbers.new }
{
    let start = element_of(halves, first);
    let end = element_of(halves, first + (lanes - 1)) + 1;
    for e in start..end {
        let lane = end_at(halves, greatest, first, lanes, e);
        keep(numbers, e, greatest, index, lane);
    }
}

/// The first lane of a run that gets to an element, or the last.
#[inline(always)]
fn end_at(halves: bool, greatest: bool, first: u32, lanes: u32, e: usize) -> u32
    requires some { 0 < lanes }
    requires small { first + lanes < 4294967296 }
    requires above { element_named halves first ≤ e }
    requires below { e ≤ element_named halves (first + (lanes - 1)) }
    ensures { IsEnd (runs_on halves first e) greatest lanes result }
{
    if !halves {
        (e - first as usize) as u32
    } else if greatest {
        (2 * e + 1 - first as usize).min(lanes as usize - 1) as u32
    } else {
        (2 * e).saturating_sub(first as usize) as u32
    }
}

/// The first lane of a mask, or the last, if it has any.
fn end_of(mask: &Mask, greatest: bool, lanes: u32) -> Option<u32>
    requires { lanes ≤ 512 }
    ensures end { IfSome result (IsEnd (is_in mask.now) greatest lanes) }
    ensures none { IfNone result (MaskHas lanes (λ _. false) mask.now) }
{
    if is_empty(mask, lanes as usize) {
        return None;
    }
    for step in 0..lanes {
        let lane = if greatest { lanes - 1 - step } else { step };
        if mask.all || mask.lanes[lane as usize] {
            return Some(lane);
        }
    }
    None
}

/// Keeps the lesser of two numbers in an element, or the greater: the one that is there, and that of a lane.
#[inline(always)]
fn keep(numbers: &mut [u32], e: usize, greatest: bool, index: u32, lane: u32)
    requires within { e < length numbers.old }
    requires indexes { index + lane < 4294967295 }
    ensures { ChangesNumber numbers.old numbers.new e (kept greatest index (slice_index numbers.old e) lane) }
{
    let number = index + lane;
    numbers[e] = if greatest {
        numbers[e].max(number + 1)
    } else {
        numbers[e].min(number)
    };
}

/// Sets an element's bit.
#[inline(always)]
fn set_bit(words: &mut [u64], e: usize)
    requires { e < 64 * length words.old }
    ensures { OrsBit words.old words.new e true }
{
    words[e / 64] |= 1 << (e % 64);
}
