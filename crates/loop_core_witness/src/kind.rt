//! What is looked for of an iteration at an element.

ghost use Rattle.std.specs.Prelude.{◌≡◌};
ghost use Rattle.loop_core_witness.specs.Firsts.{slot_of};

use loop_core_trace::Slots;

/// What is looked for of an iteration at an element.
#[derive(Clone, Copy)]
pub(crate) enum Kind {
    /// Its first write of the element.
    FirstWrite,
    /// Its exposed read of the element.
    ExposedRead,
}

/// The slot of it.
pub(crate) fn slot_in(kind: Kind, slots: Slots) -> Option<u32>
    ensures { result ≡ slot_of kind slots }
{
    match kind {
        Kind::FirstWrite => slots.write,
        Kind::ExposedRead => slots.read,
    }
}
