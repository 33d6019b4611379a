//! A journal of words, by which an iteration is undone.

ghost use Rattle.std.specs.Prelude.{◌≡◌, ◌<◌, length, Some, OnOk, IfOk};
ghost use Rattle.loop_core_trace.specs.Touches.{noted, slots_here};

use crate::slots::Slots;
use crate::touch::Touch;
use std::alloc::{AllocError, Global};

/// The word that an element had before an access.
#[derive(Clone, Copy)]
pub(crate) struct Note {
    /// The element's number over all maps.
    pub(crate) element: u32,
    /// Its word.
    pub(crate) word: u64,
}

/// Notes the word at an access that is about to be made at a slot, and the slot where the access is of the element that
/// is watched.
pub(crate) fn note_access(
    journal: &mut Vec<Note>,
    touched: Option<Touch>,
    words: &[u64],
    slots: Slots,
    slot: u32,
    element: u32,
) -> Result<Slots, AllocError>
    requires within { (touch : Touch) → touched ≡ Some touch → touch.element < length words.now }
    ensures journal { OnOk result (journal.new.items ≡ noted touched words.now journal.old.items) }
    ensures slots { IfOk result (λ s. s ≡ slots_here touched element slot slots) }
{
    let Some(touch) = touched else {
        return Ok(slots);
    };
    journal.push(Note {
        element: touch.element,
        word: words[touch.element as usize],
    })?;
    if touch.element == element {
        return Ok(slots.after(touch, slot));
    }
    Ok(slots)
}
