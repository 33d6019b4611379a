//! A private copy of maps, and the iterations that use it.

ghost use Rattle.std.specs.Prelude.{◌≡◌, ◌≢◌, ℕ, ◌+◌, ◌-◌, ◌*◌, ◌/◌, ◌^◌, ◌<◌, ◌≤◌, ◌++◌, ◌∷◌, [], false, true, min};
ghost use Rattle.std.specs.{Prelude.{length, slice_get, IfOk, OnErr, OnOk, List}, List.{All}};
ghost use Rattle.array_maps.specs.Accesses.{Access};
ghost use Rattle.shadow_marks.specs.Iteration.{element_count, touched_count};
ghost use Rattle.private_copy.specs.Cells.{total_of, cell_at};

use crate::page::Cell;
use crate::pages::Pages;
use crate::workspace::CopyWorkspace;
use array_maps::{Maps, Op};
use shadow_marks::{IterFlags, Planes};
use std::alloc::{AllocError, Global};

/// The most accesses of one iteration.
pub const MAX_ACCESSES: u32 = 4096;

/// A private copy of maps, for the iterations of a loop one after another: each sees the start words
/// changed by its own accesses alone. It keeps pages of 64 elements, each placed at the first access of
/// one of its elements.
#[derive(Drop)]
pub struct Private<'a> {
    pub(crate) start: &'a [u64],
    pub(crate) pages: Pages,
    pub(crate) flags: IterFlags,
    /// How many iterations were begun; so the number of the one under way, from 1 on.
    pub(crate) begun: u32,
    /// How many accesses the iteration under way may still make.
    pub(crate) serves: u32,
    pub(crate) under_way: bool,
    ghost small: { length start.now ≤ 65536 },
    ghost fit: { All (λ word. word < 2 ^ 64) start.now },
    ghost flagged: { element_count flags ≡ length start.now },
    ghost paged: { total_of pages ≡ (length start.now + 63) / 64 },
    ghost writers: { (e : ℕ) → (cell_at pages e).writer ≤ begun },
    ghost values: { (e : ℕ) → (cell_at pages e).value < 2 ^ 64 },
    ghost marks: { touched_count flags + serves ≤ 4096 },
    ghost room: { min serves (total_of pages - length pages.order) ≤ pages.spare },
    ghost numbered: { 0 < serves → 0 < begun },
    ghost settled: { under_way ≡ false → touched_count flags + serves ≡ 0 },
}

/// The words of maps, each of which is below 2^64.
pub(crate) fn words_of(maps: &Maps) -> &[u64]
    ensures words { result.now ≡ maps.now.words }
    ensures fit { All (λ word. word < 2 ^ 64) result.now }
    ensures limits { length result.now ≤ 65536 }
{
    maps.words()
}

impl<'a> Private<'a> {
    ghost use Rattle.loop_core_model.specs.{Marks.{Visit, Marks, merged, marks_of_one}, Conflict.{at_element}};
    ghost use Rattle.array_maps.specs.Accesses.{Action, actions_at};
    ghost use Rattle.shadow_marks.specs.{Iteration.{flags_at, AreFlagsOf}, Ending.{KeepsShape}};
    ghost use Rattle.shadow_marks.specs.Standing.{ArePlanes, StandAt, StandFor, one_more};
    ghost use Rattle.private_copy.specs.{Reductions.{combination}, Copies.{Accessed, CopyRecords, CopyRecordsWithin}};
    ghost use Rattle.private_copy.specs.{Visits.{visits_of}, Overwriting.{AreOverwritten}};
    ghost use Rattle.private_copy.specs.Shown.{copy_of, seen_word, IsBegun, IsEnded};

    /// A copy of these maps, which no iteration used. All page numbers are noted here.
    pub fn try_new(alloc: Global, start: &'a Maps) -> Result<Private<'a>, AllocError>
        ensures start { IfOk result (λ copy. (copy_of copy).start ≡ start.now.words) }
        ensures begun { IfOk result (λ copy. (copy_of copy).begun ≡ 0) }
        ensures records { IfOk result (λ copy. CopyRecords (copy_of copy) []) }
    {
        let elements = words_of(start).len() as u32;
        let workspace = CopyWorkspace::try_new(alloc, elements)?;
        Ok(Private::in_workspace(workspace, start))
    }

    /// Begins an iteration of at most n accesses, which is at most 4,096. None is under way, and
    /// fewer than 4,294,967,295 were begun. Spare pages are made here, so that the iteration itself takes
    /// no memory; where one was refused nothing has changed, and it may be called again.
    pub fn begin(&mut self, alloc: Global, need: u32) -> Result<(), AllocError>
        requires ended { (copy_of self.old).under_way ≡ false }
        requires need { need ≤ 4096 }
        requires count { (copy_of self.old).begun < 4294967295 }
        ensures err { OnErr result (copy_of self.new ≡ copy_of self.old) }
        ensures ok { OnOk result (IsBegun (copy_of self.old) need (copy_of self.new)) }
        ensures records { OnOk result ((runs : List (List Access)) → CopyRecords (copy_of self.old) runs
            → CopyRecordsWithin (copy_of self.new) runs []) }
    {
        self.pages.prepare(alloc, need)?;
        self.begun += 1;
        self.serves = need;
        self.under_way = true;
        Ok(())
    }

    /// Ends the iteration under way, of this index: its marks come into the planes, which are for as many
    /// elements. The index is below 4,294,967,295.
    pub fn end(&mut self, planes: &mut Planes, index: u32)
        requires under_way { (copy_of self.old).under_way ≡ true }
        requires whole { ArePlanes planes.old }
        requires elements { planes.old.elements ≡ length (copy_of self.old).start }
        requires index { index < 4294967295 }
        ensures shape { KeepsShape planes.old planes.new }
        ensures marks { (e : ℕ) (marks : Marks) → StandAt planes.old e marks
            → StandAt planes.new e (merged marks (marks_of_one index (flags_at (copy_of self.old).flags e))) }
        ensures visits { (visits : ℕ → List Visit) (runs : List (List Access)) (accesses : List Access)
            → CopyRecordsWithin (copy_of self.old) runs accesses → StandFor planes.old visits
            → StandFor planes.new (one_more visits index (λ e. actions_at e accesses)) }
        ensures planes { (first : ℕ) (runs : List (List Access)) (accesses : List Access) → index ≡ first + length runs
            → CopyRecordsWithin (copy_of self.old) runs accesses → StandFor planes.old (visits_of first runs)
            → StandFor planes.new (visits_of first (runs ++ accesses ∷ [])) }
        ensures ended { IsEnded (copy_of self.old) (copy_of self.new) }
        ensures records { (runs : List (List Access)) (accesses : List Access) → CopyRecordsWithin (copy_of self.old)
            runs accesses → CopyRecords (copy_of self.new) (runs ++ accesses ∷ []) }
    {
        planes.end_iteration(&mut self.flags, index);
        self.serves = 0;
        self.under_way = false;
    }

    /// The number of pages that were accessed.
    pub fn pages(&self) -> u32
        ensures { result ≡ length (copy_of self.now).pages }
    {
        self.pages.count()
    }

    /// The number of a page that was accessed, by its place in the order of first access, from 0 on.
    /// A page's number is that of its elements divided by 64.
    pub fn page(&self, k: u32) -> Option<u32>
        ensures { result ≡ slice_get (copy_of self.now).pages k }
    {
        self.pages.number(k)
    }

    /// What the last iteration that writes an element left there; `None` where none does. The element is
    /// in range.
    pub fn last_value(&self, e: u32) -> Option<u64>
        requires { e < length (copy_of self.now).start }
        ensures { result ≡ (copy_of self.now).last e }
    {
        let cell = self.pages.get(e);
        if cell.writer == 0 {
            None
        } else {
            Some(cell.value)
        }
    }

    /// Sets each of the first n words of a page, at most 64, to what the last iteration that writes its element left
    /// there, where one does. The page has an element, and the words' elements are in range.
    pub fn overwrite(&self, page: u32, count: u32, own: &mut [u64; 64])
        requires there { page * 64 < length (copy_of self.now).start }
        requires within { page * 64 + count ≤ length (copy_of self.now).start }
        requires few { count ≤ 64 }
        ensures { AreOverwritten (λ k. (copy_of self.now).last (page * 64 + k)) count own.old own.new }
    {
        self.pages.overwrite(page, count, own);
    }

    /// The operator by which an element was reduced and its operands combined, beginning with the first,
    /// where it was accessed by reduces of one operator alone. The element is in range.
    pub fn partial(&self, e: u32) -> Option<(Op, u64)>
        requires { e < length (copy_of self.now).start }
        ensures { result ≡ combination ((copy_of self.now).reduction e) }
    {
        self.pages.get(e).reduction().combination()
    }
}
