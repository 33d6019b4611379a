//! An undo log.

ghost use Rattle.std.specs.Prelude.{◌≡◌, ℕ, ◌+◌, ◌/◌, ◌<◌, ◌≤◌, ◌↔◌, ◌&&◌, ◌==◌, true, false, nat_le, nat_lt, length};
ghost use Rattle.std.specs.Prelude.{slice_index_or, IfOk};

use crate::runs::{is_any_set, set_flags};
use array_maps::Maps;
use loop_core_model::PAGE;
use std::alloc::{AllocError, Global};

/// Which elements of maps were written since it was empty, and the words that their pages of 64 elements had then.
#[derive(Drop)]
pub struct UndoLog {
    /// Of each element, whether it was written.
    pub(crate) written: Vec<bool>,
    /// Of each page, whether its words were saved.
    pub(crate) saved: Vec<bool>,
    /// The words of pages that were saved.
    pub(crate) before: Vec<u64>,
    ghost small: { length written.items ≤ 65536 },
    ghost as_many: { length before.items ≡ length written.items },
    ghost paged: { length saved.items ≡ (length written.items + 63) / 64 },
    ghost kept: { (e : ℕ) → slice_index_or written.items e false ≡ true
        → slice_index_or saved.items (e / 64) false ≡ true },
}

impl UndoLog {
    ghost use Rattle.array_maps.specs.MapList.{MapList};
    ghost use Rattle.loop_core_undo.specs.Undo.{log_elements, is_saved, is_written, words_before, IsEmpty, MarksMore};

    /// An empty one for maps of n elements, at most 65,536.
    pub fn try_new(alloc: Global, elements: u32) -> Result<UndoLog, AllocError>
        requires { elements ≤ 65536 }
        ensures { IfOk result (IsEmpty elements) }
    {
        let count = elements as usize;
        let pages = ((elements + 63) / PAGE) as usize;
        Ok(UndoLog {
            written: vec![in alloc; false; count]?,
            saved: vec![in alloc; false; pages]?,
            before: vec![in alloc; 0u64; count]?,
        })
    }

    /// For how many elements it is.
    pub fn elements(&self) -> u32
        ensures { result ≡ log_elements self.now }
    {
        self.written.len() as u32
    }

    /// Whether no words are saved: then nothing was written.
    pub fn is_clear(&self) -> bool
        ensures clear { (result ≡ true) ↔ ((e : ℕ) → is_saved self.now e ≡ false) }
        ensures unwritten { result ≡ true → (e : ℕ) → is_written self.now e ≡ false }
    {
        !is_any_set(&self.saved, 0, self.saved.len())
    }

    /// Whether an element, which is in range, was written.
    #[inline]
    pub fn is_written(&self, e: u32) -> bool
        requires { e < log_elements self.now }
        ensures { result ≡ is_written self.now e }
    {
        self.written[e as usize]
    }

    /// Whether any of n elements from a first one on, all in range, was written.
    pub fn is_any_written(&self, first: u32, count: u32) -> bool
        requires { first + count ≤ log_elements self.now }
        ensures { (result ≡ false) ↔ ((k : ℕ) → k < count → is_written self.now (first + k) ≡ false) }
    {
        is_any_set(&self.written, first as usize, count as usize)
    }

    /// Notes that an element of maps, which is in range, is about to be written. The log is for as many elements.
    #[inline]
    pub fn mark(&mut self, e: u32, maps: &Maps)
        requires within { e < log_elements self.old }
        requires count { length maps.now.words ≡ log_elements self.old }
        ensures { MarksMore (λ other. e == other) maps.now.words self.old self.new }
    {
        self.keep(e / PAGE, maps);
        self.written[e as usize] = true;
    }

    /// The same of n elements from a first one on.
    pub fn mark_run(&mut self, first: u32, count: u32, maps: &Maps)
        requires within { first + count ≤ log_elements self.old }
        requires count { length maps.now.words ≡ log_elements self.old }
        ensures { MarksMore (λ other. nat_le first other && nat_lt other (first + count)) maps.now.words self.old
            self.new }
    {
        self.keep_run(first, count, maps);
        set_flags(
            &mut self.written,
            first as usize,
            (first + count) as usize,
            true,
        );
    }

    /// Puts the words from before back, and is empty then. The log is for as many elements as the maps have.
    pub fn restore(&mut self, maps: &mut Maps)
        requires count { length maps.old.words ≡ log_elements self.old }
        ensures maps { maps.new ≡ record { sizes = maps.old.sizes; words = words_before self.old maps.old.words } }
        ensures empty { IsEmpty (log_elements self.old) self.new }
    {
        self.exchange(maps);
        self.clear();
    }

    /// Puts the words from before back, and keeps those that were there instead: so to restore them undoes that. The
    /// log is for as many elements as the maps have.
    pub fn exchange(&mut self, maps: &mut Maps)
        requires count { length maps.old.words ≡ log_elements self.old }
        ensures maps { maps.new ≡ record { sizes = maps.old.sizes; words = words_before self.old maps.old.words } }
        ensures count { log_elements self.new ≡ log_elements self.old }
        ensures back { words_before self.new maps.new.words ≡ maps.old.words }
    {
        for page in 0..self.saved.len() as u32 {
            if self.saved[page as usize] {
                self.exchange_page(page, maps);
            }
        }
    }

    /// Forgets what was written: it is empty then.
    pub fn clear(&mut self)
        ensures { IsEmpty (log_elements self.old) self.new }
    {
        for page in 0..self.saved.len() as u32 {
            if self.saved[page as usize] {
                self.clear_page(page);
            }
        }
    }
}
