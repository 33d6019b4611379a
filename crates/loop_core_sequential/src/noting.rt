//! What the lanes of a batch read and write, by an undo log.

ghost use Rattle.std.specs.Prelude.{◌≡◌, ◌<◌, ◌≤◌, true, false, ◌&&◌, ◌==◌, length, All};
ghost use Rattle.lane_rows.specs.Rows.{is_in};
ghost use Rattle.lane_stamps.specs.Sites.{HasRows, IsWithin, is_of_halves, mask_of, places_of, shown};
ghost use Rattle.loop_core_undo.specs.Undo.{log_elements, is_written, MarksMore};
ghost use Rattle.loop_core_sequential.specs.Watched.{AreUnwritten, IsUnread, element_at};
ghost use Rattle.loop_core_sequential.specs.Noting.{AreBelow, LanesNoted, NotesWrites};

use array_maps::Maps;
use lane_rows::{Mask, Places, is_empty};
use lane_stamps::{Form, Kind, Lanes, Site, element_of, form_of, has, place_of};
use loop_core_undo::UndoLog;

/// Whether no lane reads an element that was written before, reduces any, or replaces a half of one.
pub(crate) fn are_unread(sites: &[Site], of_lanes: Lanes<'_>, lanes: u32, log: &UndoLog) -> bool
    requires room { lanes ≤ 512 }
    requires rows { All (HasRows (shown of_lanes)) sites.now }
    requires within { All (IsWithin (log_elements log.now) lanes (shown of_lanes)) sites.now }
    ensures { result ≡ true → All (IsUnread (is_written log.now) lanes (shown of_lanes.entry)) sites.now }
{
    for site in sites {
        if !is_unread(site, of_lanes, lanes, log) {
            return false;
        }
    }
    true
}

/// Whether no lane does so at one site.
fn is_unread(site: &Site, of_lanes: Lanes<'_>, lanes: u32, log: &UndoLog) -> bool
    requires room { lanes ≤ 512 }
    requires rows { HasRows (shown of_lanes) site.now }
    requires within { IsWithin (log_elements log.now) lanes (shown of_lanes) site.now }
    ensures { result ≡ true → IsUnread (is_written log.now) lanes (shown of_lanes.entry) site.now }
{
    let mask = &of_lanes.masks[site.mask];
    match site.kind {
        Kind::Store => true,
        Kind::Load | Kind::LoadHalf | Kind::Fetch => {
            let places = &of_lanes.places[site.places];
            !is_any_written(site.kind.is_of_halves(), mask, places, lanes, log)
        }
        _ => is_empty(mask, lanes as usize),
    }
}

/// Whether the element of a lane of a mask may have been written before: where none was, it says so.
pub(crate) fn is_any_written(
    halves: bool,
    mask: &Mask,
    places: &Places,
    lanes: u32,
    log: &UndoLog,
) -> bool
    requires room { lanes ≤ 512 }
    requires within { AreBelow (log_elements log.now) lanes halves mask.now places.now }
    ensures { result ≡ false → AreUnwritten (is_written log.now) lanes halves mask.now places.now }
{
    if log.is_clear() {
        return false;
    }
    match form_of(places, halves, lanes as usize, log.elements() as usize) {
        Form::One(place) => log.is_written(element_of(halves, place) as u32),
        Form::Run(first) => log.is_any_written(element_of(halves, first) as u32, lanes),
        Form::Any => is_one_written(halves, mask, places, lanes, log),
    }
}

/// The same, lane by lane.
fn is_one_written(halves: bool, mask: &Mask, places: &Places, lanes: u32, log: &UndoLog) -> bool
    requires room { lanes ≤ 512 }
    requires within { AreBelow (log_elements log.now) lanes halves mask.now places.now }
    ensures { result ≡ false → AreUnwritten (is_written log.now) lanes halves mask.now places.now }
{
    for lane in 0..lanes as usize {
        if has(mask, lane) && log.is_written(element_of(halves, place_of(places, lane)) as u32) {
            return true;
        }
    }
    false
}

/// Notes the elements that the lanes are about to write, by what they did, on these maps.
pub(crate) fn note_writes(
    sites: &[Site],
    of_lanes: Lanes<'_>,
    lanes: u32,
    log: &mut UndoLog,
    maps: &Maps,
)
    requires some { 0 < lanes }
    requires room { lanes ≤ 512 }
    requires rows { All (HasRows (shown of_lanes)) sites.now }
    requires within { All (IsWithin (log_elements log.old) lanes (shown of_lanes)) sites.now }
    requires count { length maps.now.words ≡ log_elements log.old }
    ensures { NotesWrites lanes (shown of_lanes.entry) sites.now maps.now.words log.old log.new }
{
    for site in sites {
        if site.kind.leaves() {
            note_site(site, of_lanes, lanes, log, maps);
        }
    }
}

/// Notes the elements of the lanes that get to a site.
fn note_site(site: &Site, of_lanes: Lanes<'_>, lanes: u32, log: &mut UndoLog, maps: &Maps)
    requires some { 0 < lanes }
    requires room { lanes ≤ 512 }
    requires rows { HasRows (shown of_lanes) site.now }
    requires within { IsWithin (log_elements log.old) lanes (shown of_lanes) site.now }
    requires count { length maps.now.words ≡ log_elements log.old }
    ensures { LanesNoted maps.now.words lanes (is_of_halves site.now.kind) (mask_of (shown of_lanes.entry) site.now)
        (places_of (shown of_lanes.entry) site.now) log.old log.new }
{
    let mask = &of_lanes.masks[site.mask];
    let places = &of_lanes.places[site.places];
    note(site.kind.is_of_halves(), mask, places, lanes, log, maps);
}

/// Notes the elements of the lanes of a mask.
fn note(halves: bool, mask: &Mask, places: &Places, lanes: u32, log: &mut UndoLog, maps: &Maps)
    requires some { 0 < lanes }
    requires room { lanes ≤ 512 }
    requires within { AreBelow (log_elements log.old) lanes halves mask.now places.now }
    requires count { length maps.now.words ≡ log_elements log.old }
    ensures { LanesNoted maps.now.words lanes halves mask.now places.now log.old log.new }
{
    if !mask.all {
        note_each(halves, mask, places, lanes, log, maps);
        return;
    }
    match form_of(places, halves, lanes as usize, log.elements() as usize) {
        Form::One(place) => log.mark(element_of(halves, place) as u32, maps),
        Form::Run(first) => log.mark_run(element_of(halves, first) as u32, lanes, maps),
        Form::Any => note_each(halves, mask, places, lanes, log, maps),
    }
}

/// The same, lane by lane.
fn note_each(halves: bool, mask: &Mask, places: &Places, lanes: u32, log: &mut UndoLog, maps: &Maps)
    requires room { lanes ≤ 512 }
    requires within { AreBelow (log_elements log.old) lanes halves mask.now places.now }
    requires count { length maps.now.words ≡ log_elements log.old }
    ensures { LanesNoted maps.now.words lanes halves mask.now places.now log.old log.new }
{
    if is_empty(mask, lanes as usize) {
        return;
    }
    for lane in 0..lanes as usize {
        note_if_made(halves, mask, places, lane, log, maps);
    }
}

/// Notes the element of a lane, if it is in a mask.
#[inline(always)]
fn note_if_made(
    halves: bool,
    mask: &Mask,
    places: &Places,
    lane: usize,
    log: &mut UndoLog,
    maps: &Maps,
)
    requires lane { lane < 512 }
    requires within { is_in mask.now lane ≡ true → element_at halves places.now lane < log_elements log.old }
    requires count { length maps.now.words ≡ log_elements log.old }
    ensures { MarksMore (λ e. is_in mask.now lane && (element_at halves places.now lane == e)) maps.now.words log.old
        log.new }
{
    if has(mask, lane) {
        log.mark(element_of(halves, place_of(places, lane)) as u32, maps);
    }
}
