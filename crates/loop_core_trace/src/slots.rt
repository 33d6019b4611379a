//! The slots at which an iteration accesses one element.

ghost use Rattle.std.specs.Prelude.{◌≡◌};
ghost use Rattle.loop_core_trace.specs.{Operators.{reduces_alike}, Touches.{first_reduce_after}};

use crate::touch::Touch;
use array_maps::Op;

/// A reduce that is an iteration's first access of an element.
#[derive(Clone, Copy, Debug, PartialEq)]
pub struct FirstReduce {
    /// Its operator.
    pub op: Op,
    /// Its slot.
    pub slot: u32,
}

/// At which slots an iteration accesses one element.
#[derive(Clone, Copy, Debug, PartialEq)]
pub struct Slots {
    /// The slot of its first write of the element: a plain write or a reduce.
    pub write: Option<u32>,
    /// The slot of its exposed read of the element: it reads or reduces it before it wrote or reduced it itself.
    pub read: Option<u32>,
    /// Its first access of the element, where that is a reduce.
    pub reduce: Option<FirstReduce>,
    /// The slot of its first access of the element that isn't a reduce by the operator of the first one.
    pub other: Option<u32>,
}

impl Slots {
    ghost use Rattle.std.specs.Prelude.{◌≡◌};
    ghost use Rattle.loop_core_trace.specs.Touches.{no_slots, slots_after};

    /// Those of an iteration that didn't access the element.
    pub(crate) fn none() -> Slots
        ensures { result ≡ no_slots }
    {
        Slots {
            write: None,
            read: None,
            reduce: None,
            other: None,
        }
    }

    /// Those after one access more of the element, which is made at a slot.
    pub(crate) fn after(self, touch: Touch, slot: u32) -> Slots
        ensures { result ≡ slots_after self touch slot }
    {
        let alike = reduces_alike(self.reduce, touch.reduces);
        Slots {
            write: self.write.or(touch.writes.then_some(slot)),
            read: match self.write {
                Some(_) => self.read,
                None => self.read.or(touch.looks.then_some(slot)),
            },
            reduce: first_reduce_after(self, touch.reduces, slot),
            other: self.other.or((!alike).then_some(slot)),
        }
    }
}

/// The first access, where it is a reduce, after one access more.
fn first_reduce_after(slots: Slots, reduces: Option<Op>, slot: u32) -> Option<FirstReduce>
    ensures { result ≡ first_reduce_after slots.reduce slots.other reduces slot }
{
    match (slots.reduce, slots.other, reduces) {
        (None, None, Some(op)) => Some(FirstReduce { op, slot }),
        _ => slots.reduce,
    }
}

/// Whether an access is a reduce, and by the operator of the first one, if there was one.
fn reduces_alike(first: Option<FirstReduce>, reduces: Option<Op>) -> bool
    ensures { result ≡ reduces_alike first reduces }
{
    match (first, reduces) {
        (_, None) => false,
        (None, Some(_)) => true,
        (Some(reduce), Some(op)) => reduce.op == op,
    }
}
