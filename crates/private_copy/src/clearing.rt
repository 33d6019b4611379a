//! Pages that are taken back.

ghost use Rattle.std.specs.Prelude.{◌≡◌, ℕ, [], None};
ghost use Rattle.private_copy.specs.{Cells.{total_of, cell_at, blank}, Clearing.{AreSpare}};

use crate::page::Page;
use crate::pages::Pages;

impl Pages {
    /// Takes all placed pages back: none is placed then, and they are spare ones.
    pub(crate) fn clear(&mut self)
        ensures total { total_of self.new ≡ total_of self.old }
        ensures order { self.new.order ≡ [] }
        ensures cells { (e : ℕ) → cell_at self.new e ≡ blank }
    {
        while self.placed > 0 {
            self.placed -= 1;
            if let Some(number) = self.order.get_index(self.placed as usize).copied() {
                if (number as usize) < self.table.len() {
                    take_back(&mut self.table[number as usize], &mut self.spare);
                }
            }
        }
    }
}

/// Takes a page out of its place, where there is one, and keeps it, made blank, as a spare one. It is given back where
/// there is no memory to list it.
fn take_back(place: &mut Option<Box<Page>>, spare: &mut Vec<Option<Box<Page>>>)
    requires { AreSpare spare.old.items }
    ensures taken { place.new ≡ None }
    ensures spare { AreSpare spare.new.items }
{
    if let Some(mut page) = place.take() {
        *page = Page::blank();
        let _kept = spare.push(Some(page));
    }
}
