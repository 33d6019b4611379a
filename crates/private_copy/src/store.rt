//! A private copy as a store: its words are what the iteration under way sees.
#![tactic(auto, using(crate::proofs::AccessLaws::shown_length))]

ghost use Rattle.std.specs.Prelude.{◌≡◌, ◌/◌, ◌^◌, ◌<◌, ◌≤◌, true, length, slice_index};

use crate::page::{Cell, Combining};
use crate::private::Private;
use crate::reduction::Reduction;
use array_maps::{Half, Op, Part, Rmw, Store, combine, exchange, part_of, with_half};
use loop_core_model::Access;

impl<'a> Store for Private<'a> {
    ghost use Rattle.std.proofs.Common.{arith};
    ghost use Rattle.private_copy.specs.{Shown.{copy_of}, CopyLaw.{AccessEffect}};

    ghost words = { λ copy. (copy_of copy).words };

    ghost serves = { λ copy. (copy_of copy).serves };

    ghost effect = { AccessEffect };

    fn words_fit(&self) {
        let _begun = self.begun;
    }

    fn load(&mut self, e: u32) -> u64 {
        let (cell, word) = self.admit(e, Access::Read);
        self.mark_mixed(e, cell);
        word
    }

    fn store(&mut self, e: u32, value: u64) {
        self.admit(e, Access::Write);
        self.keep(e, value, Reduction::Mixed);
    }

    fn update(&mut self, e: u32, op: Op, operand: u64) {
        let (cell, word) = self.admit(e, Access::Reduce(op));
        let reduction = cell.reduction().with(op, operand);
        self.keep(e, combine(op, word, operand), reduction);
    }

    fn store_half(&mut self, e: u32, half: Half, value: u32) {
        let (_, word) = self.admit(e, Access::Both);
        self.keep(e, with_half(half, word, value as u64), Reduction::Mixed);
    }

    fn fetch(&mut self, e: u32, part: Part, rmw: Rmw, value: u64, compare: u64) -> u64 {
        let (_, old) = self.admit(e, Access::Both);
        self.keep(
            e,
            exchange(part, rmw, old, value, compare),
            Reduction::Mixed,
        );
        part_of(part, old)
    }

    ghost shows = { λ old new access done. done.words };

    ghost uses_one = { λ old new access done. let e = done.serves in Prim.omega (arith, e) };
}

impl<'a> Private<'a> {
    ghost use Rattle.shadow_marks.specs.Iteration.{element_count};
    ghost use Rattle.private_copy.specs.{Cells.{cell_at, mixed_cell, left_cell}, Touched.{has_page, page_of}};
    ghost use Rattle.private_copy.specs.{Shown.{copy_of}, Steps.{IsAdmitted, CellIsSet}};

    /// Counts and marks an access. Returns the element's cell and the word that the iteration sees.
    #[inline]
    fn admit(&mut self, e: u32, kind: Access) -> (Cell, u64)
        requires within { e < length self.old.start.now }
        requires served { 0 < self.old.serves }
        ensures admitted { IsAdmitted self.old e kind self.new }
        ensures cell { result.0 ≡ cell_at self.old.pages e }
        ensures word { result.1 ≡ slice_index (copy_of self.old).words e }
    {
        self.serves -= 1;
        self.flags.mark(e, kind);
        let cell = self.pages.visit(e);
        let word = if cell.writer == self.begun {
            cell.value
        } else {
            self.start[e as usize]
        };
        (cell, word)
    }

    /// Notes a plain access that leaves the word of an element; `cell` is the element's. If a plain access is
    /// noted already, nothing is written.
    #[inline]
    fn mark_mixed(&mut self, e: u32, cell: Cell)
        requires within { e < length self.old.start.now }
        requires placed { has_page self.old.pages.order (page_of e) ≡ true }
        requires cell { cell ≡ cell_at self.old.pages e }
        ensures { CellIsSet self.old e (mixed_cell cell) self.new }
    {
        if let Combining::Mixed = cell.combining {
            return;
        }
        self.pages.mark_mixed(e);
    }

    /// Keeps a word that the iteration leaves at an element, and what the element's reduces combined.
    #[inline]
    fn keep(&mut self, e: u32, value: u64, reduction: Reduction)
        requires within { e < length self.old.start.now }
        requires placed { has_page self.old.pages.order (page_of e) ≡ true }
        ensures { CellIsSet self.old e (left_cell value self.old.begun reduction) self.new }
    {
        self.pages.set(e, Cell::left(value, self.begun, reduction));
    }
}
