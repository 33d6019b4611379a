//! What a program sees of its maps, whatever keeps them.

ghost use Rattle.std.specs.Prelude.{◌≡◌, ◌≢◌, ℕ, ◌+◌, ◌<◌, ◌≤◌, ◌^◌, List, length, slice_index};
ghost use Rattle.array_maps.specs.Accesses.{Access, Action, Read, Write, ReadWrite, Reduce, exchanged, words_after};
ghost use Rattle.array_maps.specs.{MapList.{AreWords}, Halves.{part_of, with_half}};

use crate::access::{Half, Op, Part, Rmw};
use crate::changes::{combine, exchange};
use crate::halves::{part_of, with_half};
use crate::maps::Maps;

/// Maps as a program sees them: a list of words, of which each call accesses one. Elements are numbered
/// on over all maps, map 0 first. A store serves a number of accesses, and each call uses up at most one.
pub trait Store {
    /// The words that are seen.
    ghost words: { Self → List ℕ };

    /// How many accesses it still serves.
    ghost serves: { Self → ℕ };

    /// What an access does to the store, with whatever else it keeps.
    ghost effect: { Self → Access → Self → Type 0 };

    /// The words that are seen are below 2^64.
    fn words_fit(&self)
        ensures { AreWords (words self.now) };

    /// The word of an element.
    fn load(&mut self, e: u32) -> u64
        requires within { e < length (words self.old) }
        requires served { 0 < serves self.old }
        ensures answer { result ≡ slice_index (words self.old) e }
        ensures done { effect self.old (record { element = e; action = Read result }) self.new };

    /// Stores a word at an element.
    fn store(&mut self, e: u32, value: u64)
        requires within { e < length (words self.old) }
        requires served { 0 < serves self.old }
        ensures done { effect self.old (record { element = e; action = Write value }) self.new };

    /// Applies an operator to the word of an element.
    fn update(&mut self, e: u32, op: Op, operand: u64)
        requires within { e < length (words self.old) }
        requires served { 0 < serves self.old }
        ensures done { effect self.old (record { element = e; action = Reduce op operand }) self.new };

    /// Stores a half at an element: the other half is read and written again.
    fn store_half(&mut self, e: u32, half: Half, value: u32)
        requires within { e < length (words self.old) }
        requires served { 0 < serves self.old }
        ensures done { let word = slice_index (words self.old) e in
            effect self.old (record { element = e; action = ReadWrite word (with_half half word value) }) self.new };

    /// Changes a part of an element, and returns what was there, zero-extended. Compare-and-exchange alone
    /// looks at `compare`; at a half the lower halves of `value` and `compare` count.
    fn fetch(&mut self, e: u32, part: Part, rmw: Rmw, value: u64, compare: u64) -> u64
        requires within { e < length (words self.old) }
        requires served { 0 < serves self.old }
        ensures answer { result ≡ part_of part (slice_index (words self.old) e) }
        ensures done { let word = slice_index (words self.old) e in
            effect self.old (record { element = e; action = ReadWrite word (exchanged part rmw word value compare) })
            self.new };

    /// The words that are seen after an access.
    ghost shows: { (old new : Self) (access : Access) → effect old access new
        → words new ≡ words_after access (words old) };

    /// An access uses up at most one.
    ghost uses_one: { (old new : Self) (access : Access) → effect old access new → serves old ≤ serves new + 1 };
}

/// Maps always serve 4,096 accesses, and keep nothing but their words.
impl Store for Maps {
    ghost use Rattle.std.proofs.Common.{ap, arith};
    ghost use Rattle.array_maps.specs.MapList.{MapList};

    ghost words = { λ maps. maps.words };

    ghost serves = { λ _. 4096 };

    ghost effect = { λ old access new. new ≡ record { sizes = old.sizes; words = words_after access old.words } };

    fn words_fit(&self) {
        Maps::words_fit(self)
    }

    fn load(&mut self, e: u32) -> u64 {
        Maps::word(self, e)
    }

    fn store(&mut self, e: u32, value: u64) {
        self.set_word(e, value);
    }

    fn update(&mut self, e: u32, op: Op, operand: u64) {
        let word = self.word(e);
        self.set_word(e, combine(op, word, operand));
    }

    fn store_half(&mut self, e: u32, half: Half, value: u32) {
        let word = self.word(e);
        self.set_word(e, with_half(half, word, value as u64));
    }

    fn fetch(&mut self, e: u32, part: Part, rmw: Rmw, value: u64, compare: u64) -> u64 {
        let word = self.word(e);
        self.set_word(e, exchange(part, rmw, word, value, compare));
        part_of(part, word)
    }

    ghost shows = { λ old new access done. ap (λ (maps : MapList). maps.words) done };

    ghost uses_one = { λ old new access done. Prim.omega arith };
}
