//! Pages that are placed at the first access of one of their elements.

ghost use Rattle.std.specs.Prelude.{◌≡◌, ◌≢◌, ℕ, ◌+◌, ◌-◌, ◌/◌, ◌%◌, ◌<◌, ◌≤◌, [], ◌∷◌, ◌++◌, false, true, min, length};
ghost use Rattle.std.specs.Prelude.{slice_get, nat_eq, Some, IfSome, IfNone, IfOk, OnOk};
ghost use Rattle.indexmap.specs.IndexSet.{contains};
ghost use Rattle.private_copy.specs.{Cells.{total_of, cell_at, blank, mixed_cell}, Touched.{has_page, with_page}};

use crate::page::{BLANK, Cell, Page};
use indexmap::IndexSet;
use loop_core_model::PAGE;
use std::alloc::{AllocError, Global};
use std::marker::Model;

/// The place of a page's number among all of them. The next one is looked at first: pages that are placed by rising
/// numbers are found without their hash.
#[inline]
fn place_of(order: &IndexSet<u32>, next: usize, number: u32) -> Option<usize>
    ensures found { IfSome result (λ at. slice_get order.now.keys at ≡ Some number) }
    ensures none { IfNone result (contains nat_eq order.now number ≡ false) }
{
    if order.get_index(next).copied() == Some(number) {
        return Some(next);
    }
    order.get_index_of(&number)
}

/// Pages of 64 elements. The numbers of those that were placed come first, in order of first access.
#[derive(Drop)]
pub(crate) struct Pages {
    pub(crate) order: IndexSet<u32>,
    pub(crate) placed: u32,
    pub(crate) table: Vec<Option<Box<Page>>>,
    pub(crate) spare: Vec<Option<Box<Page>>>,
}

impl Model for Pages {
    ghost use Rattle.private_copy.specs.Cells.{PlacedPages};

    ghost Value = { PlacedPages };

    ghost use Rattle.private_copy.specs.Inside.{pages_in, ArePages};

    ghost view = { pages_in };

    ghost invariant = { ArePages };
}

impl Pages {
    ghost use Rattle.std.specs.Prelude.{◌*◌};
    ghost use Rattle.private_copy.specs.{Shown.{last_in}, Overwriting.{AreOverwritten}};

    /// Pages for at most 65,536 elements, none of them placed.
    pub(crate) fn try_new(alloc: Global, elements: u32) -> Result<Pages, AllocError>
        requires { elements ≤ 65536 }
        ensures total { IfOk result (λ pages. total_of pages ≡ (elements + 63) / 64) }
        ensures order { IfOk result (λ pages. pages.order ≡ []) }
        ensures cells { IfOk result (λ pages. (e : ℕ) → cell_at pages e ≡ blank) }
    {
        let total = (elements + 63) / PAGE;
        let mut order = IndexSet::with_capacity(alloc, total as usize)?;
        let mut table = Vec::with_capacity(alloc, total as usize)?;
        for number in 0..total {
            order.insert(number)?;
            table.push(None)?;
        }
        Ok(Pages {
            order,
            placed: 0,
            table,
            spare: Vec::new(alloc),
        })
    }

    /// Sees that there are spare pages, so that as many can be placed as are needed, or all that aren't
    /// placed yet.
    #[inline]
    pub(crate) fn prepare(&mut self, alloc: Global, need: u32) -> Result<(), AllocError>
        ensures pages { self.new.pages ≡ self.old.pages }
        ensures order { self.new.order ≡ self.old.order }
        ensures spare { OnOk result (min need (total_of self.new - length self.new.order) ≤ self.new.spare) }
    {
        let unplaced = self.table.len() - self.placed as usize;
        let wanted = unplaced.min(need as usize);
        if self.spare.len() < wanted {
            return self.make_spare(alloc, wanted);
        }
        Ok(())
    }

    /// Makes spare pages until there are this many.
    #[cold]
    #[inline(never)]
    fn make_spare(&mut self, alloc: Global, wanted: usize) -> Result<(), AllocError>
        ensures pages { self.new.pages ≡ self.old.pages }
        ensures order { self.new.order ≡ self.old.order }
        ensures spare { OnOk result (wanted ≤ self.new.spare) }
    {
        while self.spare.len() < wanted {
            let page = Box::new(alloc, Page::blank())?;
            self.spare.push(Some(page))?;
        }
        Ok(())
    }

    /// The number of placed pages.
    pub(crate) fn count(&self) -> u32
        ensures { result ≡ length self.now.order }
    {
        self.placed
    }

    /// A placed page's number, by its place in the order of first access.
    pub(crate) fn number(&self, k: u32) -> Option<u32>
        ensures { result ≡ slice_get self.now.order k }
    {
        if k < self.placed {
            self.order.get_index(k as usize).copied()
        } else {
            None
        }
    }

    /// Sees that the page of an element is placed, and gives the element's cell. Where it isn't placed, there is a
    /// spare one.
    #[inline]
    pub(crate) fn visit(&mut self, e: u32) -> Cell
        requires within { e / 64 < total_of self.old }
        requires spare { min 1 (total_of self.old - length self.old.order) ≤ self.old.spare }
        ensures pages { self.new.pages ≡ self.old.pages }
        ensures order { self.new.order ≡ with_page self.old.order (e / 64) }
        ensures placed { has_page self.new.order (e / 64) ≡ true }
        ensures spare { self.new.spare + length self.new.order ≡ self.old.spare + length self.old.order }
        ensures cell { result ≡ cell_at self.old e }
    {
        let number = e / PAGE;
        if let Some(page) = &self.table[number as usize] {
            return page.get(e % PAGE);
        }
        self.place(number);
        BLANK
    }

    /// Places a page that isn't placed.
    #[cold]
    #[inline(never)]
    fn place(&mut self, number: u32)
        requires within { number < total_of self.old }
        requires absent { has_page self.old.order number ≡ false }
        requires spare { 0 < self.old.spare }
        ensures pages { self.new.pages ≡ self.old.pages }
        ensures order { self.new.order ≡ self.old.order ++ number ∷ [] }
        ensures spare { self.new.spare + 1 ≡ self.old.spare }
    {
        if let Some(at) = place_of(&self.order, self.placed as usize, number) {
            self.order.swap_indices(at, self.placed as usize);
            self.placed += 1;
            if let Some(page) = self.spare.pop() {
                self.table[number as usize] = page;
            }
        }
    }

    /// The cell of an element.
    #[inline]
    pub(crate) fn get(&self, e: u32) -> Cell
        requires { e / 64 < total_of self.now }
        ensures { result ≡ cell_at self.now e }
    {
        match &self.table[e as usize / 64] {
            Some(page) => page.get(e % PAGE),
            None => BLANK,
        }
    }

    /// Sets the cell of an element, whose page is placed.
    #[inline]
    pub(crate) fn set(&mut self, e: u32, cell: Cell)
        requires within { e / 64 < total_of self.old }
        requires placed { has_page self.old.order (e / 64) ≡ true }
        ensures total { total_of self.new ≡ total_of self.old }
        ensures order { self.new.order ≡ self.old.order }
        ensures spare { self.new.spare ≡ self.old.spare }
        ensures here { cell_at self.new e ≡ cell }
        ensures others { (other : ℕ) → other ≢ e → cell_at self.new other ≡ cell_at self.old other }
    {
        let Some(page) = &mut self.table[e as usize / 64] else {
            return;
        };
        page.set(e % PAGE, cell);
    }

    /// Notes a plain access that leaves the word of an element, whose page is placed.
    #[inline(always)]
    pub(crate) fn mark_mixed(&mut self, e: u32)
        requires within { e / 64 < total_of self.old }
        requires placed { has_page self.old.order (e / 64) ≡ true }
        ensures total { total_of self.new ≡ total_of self.old }
        ensures order { self.new.order ≡ self.old.order }
        ensures spare { self.new.spare ≡ self.old.spare }
        ensures here { cell_at self.new e ≡ mixed_cell (cell_at self.old e) }
        ensures others { (other : ℕ) → other ≢ e → cell_at self.new other ≡ cell_at self.old other }
    {
        let Some(page) = &mut self.table[e as usize / 64] else {
            return;
        };
        page.mark_mixed(e % PAGE);
    }

    /// Sets each of the first n words of a page, at most 64, to what the last iteration that writes its element left
    /// there, where one does.
    pub(crate) fn overwrite(&self, page: u32, count: u32, own: &mut [u64; 64])
        requires within { page < total_of self.now }
        requires few { count ≤ 64 }
        ensures { AreOverwritten (λ k. last_in (cell_at self.now (page * 64 + k))) count own.old own.new }
    {
        let Some(kept) = &self.table[page as usize] else {
            return;
        };
        kept.overwrite(count, own);
    }
}
