//! The flags of the iteration under way.

ghost use Rattle.std.specs.Prelude.{◌≡◌, ◌≤◌, ◌<◌, ℕ, true, false, length, slice_index_or, vec_capacity};
ghost use Rattle.shadow_marks.specs.Kept.{nothing_kept, has_element};

use crate::element_flags::{ElementFlags, Flag};
use loop_core_model::Access;
use std::alloc::{AllocError, Global};

/// The greatest number of marks of one iteration.
pub const MAX_MARKS: usize = 4096;

/// The flags of an element that wasn't touched.
const NO_FLAG: ElementFlags = ElementFlags { bits: 0 };

/// What the iteration under way did at each element so far: a byte for each, and a list of those that
/// it touched.
#[derive(Drop)]
pub struct IterFlags {
    cells: Vec<ElementFlags>,
    touched: Vec<u32>,
    ghost room: { 4096 ≤ vec_capacity touched },
    ghost within: { (e : ℕ) → has_element touched.items e ≡ true → e < length cells.items },
    ghost covered: { (e : ℕ) → has_element touched.items e ≡ false → (slice_index_or cells.items e nothing_kept).bits
        ≡ 0 },
}

impl IterFlags {
    ghost use Rattle.std.specs.Prelude.{◌≢◌, ◌+◌, ◌||◌, IfOk, MatchOption};
    ghost use Rattle.loop_core_model.specs.Flags.{flagged};
    ghost use Rattle.shadow_marks.specs.Iteration.{element_count, touched_count, flags_at, IsEmptied, TakesFlags};
    ghost use Rattle.shadow_marks.specs.Iteration.{TakesNone};

    /// Flags for n elements, none of them touched. All room that an iteration needs is made here.
    pub fn try_new(alloc: Global, elements: u32) -> Result<IterFlags, AllocError>
        ensures elements { IfOk result (λ flags. element_count flags ≡ elements) }
        ensures emptied { IfOk result IsEmptied }
    {
        Ok(IterFlags {
            cells: vec![in alloc; NO_FLAG; elements as usize]?,
            touched: Vec::with_capacity(alloc, MAX_MARKS)?,
        })
    }

    /// Marks an access of an element. The element is in range, and fewer than 4,096 elements were
    /// touched since the flags were emptied: so it is where fewer than 4,096 marks were made.
    #[inline]
    pub fn mark(&mut self, e: u32, access: Access)
        requires in_range { e < element_count self.old }
        requires room { touched_count self.old < MAX_MARKS }
        ensures here { flags_at self.new e ≡ flagged (flags_at self.old e) access }
        ensures others { (other : ℕ) → other ≢ e → flags_at self.new other ≡ flags_at self.old other }
        ensures elements { element_count self.new ≡ element_count self.old }
        ensures count { touched_count self.new ≤ touched_count self.old + 1 }
    {
        let before = self.cells[e as usize];
        if before.bits == 0 {
            self.touched.push_reserved(e);
        }
        self.cells[e as usize] = before.after(access);
    }

    /// Whether an element, which is in range, was touched since the flags were emptied.
    #[inline]
    pub fn is_touched(&self, e: u32) -> bool
        requires { e < element_count self.now }
        ensures { result ≡ ((flags_at self.now e).plain || (flags_at self.now e).wrote) }
    {
        let kept = self.cells[e as usize];
        kept.has(Flag::Plain) || kept.has(Flag::Wrote)
    }

    /// Takes the flags of an element that was touched, and empties them there; none is left where
    /// there is no such element.
    #[inline]
    pub(crate) fn take(&mut self) -> Option<(u32, ElementFlags)>
        ensures { MatchOption result (TakesNone self.old self.new) (λ taken. TakesFlags self.old self.new taken.0
            taken.1) }
    {
        let Some(e) = self.touched.pop() else {
            return None;
        };
        let flags = self.cells[e as usize];
        self.cells[e as usize] = NO_FLAG;
        Some((e, flags))
    }
}
