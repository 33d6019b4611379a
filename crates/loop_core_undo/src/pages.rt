//! The pages of an undo log.

ghost use Rattle.std.specs.Prelude.{◌≡◌, ℕ, ◌+◌, ◌*◌, ◌<◌, ◌≤◌, true, false, length, slice_index_or};
ghost use Rattle.loop_core_undo.specs.{Undo.{log_elements, is_saved}, Pages.{KeepsBefore, PageIsExchanged}};

use crate::runs::{copy_words, exchange_words, set_flags};
use crate::undo_log::UndoLog;
use array_maps::Maps;
use loop_core_model::PAGE;

impl UndoLog {
    /// Sees that a page, which is in range, is saved. The log is for as many elements as the maps have.
    #[inline(always)]
    pub(crate) fn keep(&mut self, page: u32, maps: &Maps)
        requires within { page * 64 < log_elements self.old }
        requires count { length maps.now.words ≡ log_elements self.old }
        ensures kept { KeepsBefore maps.now.words self.old self.new }
        ensures saved { slice_index_or self.new.saved.items page false ≡ true }
    {
        if self.saved[page as usize] {
            return;
        }
        self.save(page, maps);
    }

    /// Sees that the pages of n elements from a first one on, all in range, are saved.
    #[inline(always)]
    pub(crate) fn keep_run(&mut self, first: u32, count: u32, maps: &Maps)
        requires within { first + count ≤ log_elements self.old }
        requires count { length maps.now.words ≡ log_elements self.old }
        ensures kept { KeepsBefore maps.now.words self.old self.new }
        ensures saved { (e : ℕ) → first ≤ e → e < first + count → is_saved self.new e ≡ true }
    {
        for page in first / PAGE..(first + count + 63) / PAGE {
            self.keep(page, maps);
        }
    }

    /// Saves a page that isn't saved.
    #[cold]
    #[inline(never)]
    fn save(&mut self, page: u32, maps: &Maps)
        requires within { page * 64 < log_elements self.old }
        requires count { length maps.now.words ≡ log_elements self.old }
        requires unsaved { slice_index_or self.old.saved.items page false ≡ false }
        ensures kept { KeepsBefore maps.now.words self.old self.new }
        ensures saved { slice_index_or self.new.saved.items page false ≡ true }
    {
        let first = page * PAGE;
        let end = (first + PAGE).min(self.elements());
        copy_words(&mut self.before, first as usize, end as usize, maps.words());
        self.saved[page as usize] = true;
    }

    /// Exchanges the saved words of a page, which is in range, and those that are there.
    pub(crate) fn exchange_page(&mut self, page: u32, maps: &mut Maps)
        requires within { page * 64 < log_elements self.old }
        requires count { length maps.old.words ≡ log_elements self.old }
        ensures { PageIsExchanged page self.old self.new maps.old maps.new }
    {
        let first = page * PAGE;
        let end = (first + PAGE).min(self.elements());
        exchange_words(&mut self.before, first, end, maps);
    }

    /// Forgets what was written in a page, which is in range.
    pub(crate) fn clear_page(&mut self, page: u32)
        requires { page * 64 < log_elements self.old }
        ensures count { log_elements self.new ≡ log_elements self.old }
        ensures here { slice_index_or self.new.saved.items page false ≡ false }
        ensures others { (other : ℕ) → slice_index_or self.old.saved.items other false ≡ false
            → slice_index_or self.new.saved.items other false ≡ false }
    {
        let first = page * PAGE;
        let end = (first + PAGE).min(self.elements());
        set_flags(&mut self.written, first as usize, end as usize, false);
        self.saved[page as usize] = false;
    }
}
