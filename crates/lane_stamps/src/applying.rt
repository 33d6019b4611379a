//! What lanes do, applied to the words, site by site.

ghost use Rattle.std.specs.Prelude.{◌≡◌, ℕ, ◌<◌, ◌≤◌, length, if◌then◌else◌};
ghost use Rattle.std.specs.List.{All};
ghost use Rattle.array_maps.specs.Accesses.{left_by};
ghost use Rattle.loop_core_model.specs.Effects.{action_on, words_after_each_lane, words_after_lane_effects};
ghost use Rattle.lane_rows.specs.Rows.{is_in};
ghost use Rattle.lane_stamps.specs.Sites.{HasRows, IsWithin, deed_by, effect_at, half_named, is_of_halves, log_of};
ghost use Rattle.lane_stamps.specs.{Sites.{shown}, Stamps.{GoTogether}, Applying.{AreReady, words_after}};
ghost use Rattle.lane_stamps.specs.{Forms.{IsFormOf}, declared.forms.Form.TheVariants.{One, Run}};

use crate::blending::replaced;
use crate::forms::{Form, element_of, form_of};
use crate::kind::Kind;
use crate::reading::{is_there, place_on};
use crate::site::{Lanes, Site};
use array_maps::{Op, combine};
use lane_rows::{Mask, PlaceLine, Places, spell_words};

/// The lanes that get to a site, and where.
#[derive(Clone, Copy)]
pub(crate) struct Visit<'a> {
    /// Those that get there.
    mask: &'a Mask,
    /// Their places.
    places: &'a Places,
    /// How many lanes there are, with those that don't.
    count: usize,
}

/// What is left of a word.
#[inline(always)]
fn left(kind: Kind, place: u32, word: u64, value: u64) -> u64
    ensures { result ≡ left_by (action_on (deed_by kind (half_named place) value) word) word }
{
    match kind {
        Kind::Load | Kind::LoadHalf => word,
        Kind::Store | Kind::Fetch => value,
        Kind::Replace | Kind::FetchHalf => replaced(place, word, value),
        Kind::AddHalf => combine(Op::AddH, word, replaced(place, 0, value)),
        Kind::Apply(op) => combine(op, word, value),
    }
}

/// What is left of a word if a lane is in a mask.
#[inline(always)]
fn left_if(
    kind: Kind,
    all: bool,
    mask: &Mask,
    lane: usize,
    place: u32,
    word: u64,
    value: u64,
) -> u64
    requires all { all ≡ mask.now.all }
    requires lane { lane < 512 }
    ensures { result ≡ if is_in mask.now lane
        then left_by (action_on (deed_by kind (half_named place) value) word) word else word }
{
    let new = left(kind, place, word, value);
    if is_there(all, mask, lane) { new } else { word }
}

/// Applies what all lanes do at one place, in their order. The kind, and whether all lanes are in the mask, is known
/// where this is called.
#[inline(always)]
fn apply_one(kind: Kind, all: bool, place: u32, to: Visit<'_>, values: &[u64], words: &mut [u64])
    requires all { all ≡ to.mask.now.all }
    requires ready { AreReady kind to values.now (length words.old) }
    requires form { IsFormOf (One place) (is_of_halves kind) to.places.now to.count (length words.old) }
    ensures { words.new ≡ words_after kind to.entry values.now to.entry.count words.old }
{
    let at = element_of(kind.is_of_halves(), place);
    let mut word = words[at];
    for lane in 0..to.count {
        word = left_if(kind, all, to.mask, lane, place, word, values[lane]);
    }
    words[at] = word;
}

/// The same at elements that run from a first one, each or one half of each.
#[inline(always)]
fn apply_run(kind: Kind, all: bool, first: u32, to: Visit<'_>, values: &[u64], words: &mut [u64])
    requires all { all ≡ to.mask.now.all }
    requires ready { AreReady kind to values.now (length words.old) }
    requires form { IsFormOf (Run first) (is_of_halves kind) to.places.now to.count (length words.old) }
    ensures { words.new ≡ words_after kind to.entry values.now to.entry.count words.old }
{
    let start = element_of(kind.is_of_halves(), first);
    for lane in 0..to.count {
        let at = start + lane;
        words[at] = left_if(kind, all, to.mask, lane, first, words[at], values[lane]);
    }
}

/// The same at any places. Whether these are on a line is known where this is called.
#[inline(always)]
fn apply_each(
    kind: Kind,
    all: bool,
    line: Option<PlaceLine>,
    to: Visit<'_>,
    values: &[u64],
    words: &mut [u64],
)
    requires all { all ≡ to.mask.now.all }
    requires line { line ≡ to.places.now.line }
    requires ready { AreReady kind to values.now (length words.old) }
    ensures { words.new ≡ words_after kind to.entry values.now to.entry.count words.old }
{
    for lane in 0..to.count {
        if is_there(all, to.mask, lane) {
            let place = place_on(line, to.places, lane);
            let at = element_of(kind.is_of_halves(), place);
            words[at] = left(kind, place, words[at], values[lane]);
        }
    }
}

/// The same by the form of the places.
#[inline(always)]
fn apply_formed(kind: Kind, all: bool, to: Visit<'_>, values: &[u64], words: &mut [u64])
    requires all { all ≡ to.mask.now.all }
    requires ready { AreReady kind to values.now (length words.old) }
    ensures { words.new ≡ words_after kind to.entry values.now to.entry.count words.old }
{
    match form_of(to.places, kind.is_of_halves(), to.count, words.len()) {
        Form::One(place) => apply_one(kind, all, place, to, values, words),
        Form::Run(first) => apply_run(kind, all, first, to, values, words),
        Form::Any => match to.places.line {
            None => apply_each(kind, all, None, to, values, words),
            line => apply_each(kind, all, line, to, values, words),
        },
    }
}

/// The same of any mask.
#[inline(always)]
fn apply_known(kind: Kind, to: Visit<'_>, values: &[u64], words: &mut [u64])
    requires { AreReady kind to values.now (length words.old) }
    ensures { words.new ≡ words_after kind to.entry values.now to.entry.count words.old }
{
    if to.mask.all {
        apply_formed(kind, true, to, values, words);
    } else {
        apply_formed(kind, false, to, values, words);
    }
}

/// The same of a kind that isn't known where this is called: the most frequent have loops of their own.
fn apply_kind(kind: Kind, to: Visit<'_>, values: &[u64], words: &mut [u64])
    requires { AreReady kind to values.now (length words.old) }
    ensures { words.new ≡ words_after kind to.entry values.now to.entry.count words.old }
{
    match kind {
        Kind::Store => apply_known(Kind::Store, to, values, words),
        Kind::Replace => apply_known(Kind::Replace, to, values, words),
        Kind::AddHalf => apply_known(Kind::AddHalf, to, values, words),
        Kind::Apply(Op::Add) => apply_known(Kind::Apply(Op::Add), to, values, words),
        Kind::Apply(Op::Or) => apply_known(Kind::Apply(Op::Or), to, values, words),
        _ => apply_known(kind, to, values, words),
    }
}

/// Applies what all lanes do at a site, in their order.
fn apply_site(site: &Site, lanes: Lanes<'_>, count: usize, words: &mut [u64])
    requires room { count ≤ 512 }
    requires rows { HasRows (shown lanes) site.now }
    requires within { IsWithin (length words.old) count (shown lanes) site.now }
    ensures { words.new ≡ words_after_lane_effects (effect_at (shown lanes.entry) site.now) count words.old }
{
    if !site.kind.leaves() {
        return;
    }
    let to = Visit {
        mask: &lanes.masks[site.mask],
        places: &lanes.places[site.places],
        count,
    };
    let values = &lanes.rows[site.value];
    match values.line {
        None => apply_kind(site.kind, to, &values.lanes, words),
        Some(line) if count <= 64 => {
            let mut spelled = [0; 64]; // what is set first takes long where lanes are few
            spell_words(line, &mut spelled, count);
            apply_kind(site.kind, to, &spelled, words);
        }
        Some(line) => {
            let mut spelled = [0; 512];
            spell_words(line, &mut spelled, count);
            apply_kind(site.kind, to, &spelled, words);
        }
    }
}

/// Applies what the first lanes do, that may go together: the words are those after one lane after another.
pub fn apply(sites: &[Site], lanes: Lanes<'_>, count: usize, words: &mut [u64])
    requires room { count ≤ 512 }
    requires rows { All (HasRows (shown lanes)) sites.now }
    requires within { All (IsWithin (length words.old) count (shown lanes)) sites.now }
    requires together { GoTogether (log_of sites.now (shown lanes)) count }
    ensures { words.new ≡ words_after_each_lane (log_of sites.now (shown lanes.entry)) count words.old }
{
    for site in sites {
        apply_site(site, lanes, count, words);
    }
}
