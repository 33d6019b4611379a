//! The array maps of a program.

ghost use Rattle.std.specs.Prelude.{◌≡◌, ◌≢◌, ℕ, ◌+◌, ◌<◌, ◌≤◌, ◌↔◌, length, slice_index, slice_range, slice_set, IfOk};
ghost use Rattle.std.specs.{Prelude.{OnOk, IfSome, IfNone, IsErrOf, false}, List.{concat, sum}};
ghost use Rattle.bpf_insn_types.specs.Limits.{AreSizes, sizes_fit};
ghost use Rattle.array_maps.specs.Accesses.{Reduce, Write, words_after_run};
ghost use Rattle.array_maps.specs.MapList.{MapList, AreWords, base_of, zero_maps, lists, lengths, maps_of};

use crate::access::Op;
use crate::runs::{store_each, update_each};
use crate::word_change::WordChange;
use crate::words::are_words;
use bpf_insn_types::{MAX_ELEMENTS, elements_of};
use std::alloc::{AllocError, Global};
use std::marker::Model;
use thiserror::Error;

/// Why maps can't be made.
#[derive(Debug, Drop, PartialEq, Error)]
pub enum MapsError {
    /// M1: the sizes break the limits: 1 to 16 maps, each of at least 1 element, and at most 65,536
    /// elements over all.
    #[error("M1: there have to be 1 to 16 maps of at least 1 element, and at most 65,536 elements in all")]
    Limits,
    /// There was no memory.
    #[error("out of memory")]
    Memory,
}

impl From<AllocError> for MapsError {
    ghost use Rattle.array_maps.specs.declared.maps.MapsError.TheVariants.{Memory};

    ghost from_gives = { λ _ e. e ≡ Memory };

    fn from(_e: AllocError) -> MapsError {
        MapsError::Memory
    }
}

/// Array maps of 8-byte values. Elements are numbered on over all maps, map 0 first.
#[derive(Drop)]
pub struct Maps {
    sizes: Vec<u32>,
    words: Vec<u64>,
}

impl Model for Maps {
    ghost Value = { MapList };

    ghost view = { λ m. record { sizes = m.sizes.items; words = m.words.items } };

    ghost invariant = { λ m. AreSizes m.sizes.items × (length m.words.items ≡ sum m.sizes.items)
        × AreWords m.words.items };
}

/// How many values each map has, where none has more than there may be.
fn sizes_of(alloc: Global, values: &[Vec<u64>]) -> Result<Vec<u32>, MapsError>
    ensures ok { IfOk result (λ sizes. sizes.items ≡ lengths (lists values.now)) }
    ensures limits { IsErrOf result MapsError.Limits → sizes_fit (lengths (lists values.now)) ≡ false }
{
    let mut sizes = Vec::new(alloc);
    for map in values {
        if map.len() > MAX_ELEMENTS as usize {
            return Err(MapsError::Limits);
        }
        sizes.extend_from_slice(&[map.len() as u32])?;
    }
    Ok(sizes)
}

impl Maps {
    /// Maps of these sizes, all zero. M1 where the sizes break the limits.
    pub fn new(alloc: Global, sizes: &[u32]) -> Result<Maps, MapsError>
        ensures ok { IfOk result (λ maps. AreSizes sizes.now × (maps ≡ zero_maps sizes.now)) }
        ensures limits { IsErrOf result MapsError.Limits → sizes_fit sizes.now ≡ false }
    {
        let Some(elements) = elements_of(sizes) else {
            return Err(MapsError::Limits);
        };
        Ok(Maps {
            sizes: sizes.to_vec(alloc)?,
            words: vec![in alloc; 0u64; elements as usize]?,
        })
    }

    /// Maps of these values, map 0 first. M1 where their numbers break the limits.
    pub fn of(alloc: Global, values: &[Vec<u64>]) -> Result<Maps, MapsError>
        ensures ok { IfOk result (λ maps. AreSizes (lengths (lists values.now)) × (maps ≡ maps_of (lists values.now))) }
        ensures limits { IsErrOf result MapsError.Limits → sizes_fit (lengths (lists values.now)) ≡ false }
    {
        let sizes = sizes_of(alloc, values)?;
        if elements_of(&sizes).is_none() {
            return Err(MapsError::Limits);
        }
        let mut words = Vec::new(alloc);
        for map in values {
            let values = map.as_slice();
            are_words(values);
            words.extend_from_slice(values)?;
        }
        Ok(Maps { sizes, words })
    }

    /// The values of a map, which is below the number of maps.
    pub fn values(&self, map: usize) -> &[u64]
        requires { map < length self.now.sizes }
        ensures { result.now ≡ slice_range self.now.words (base_of self.now.sizes map)
            (base_of self.now.sizes map + slice_index self.now.sizes map) }
    {
        let base = self.base(map);
        &self.words[base..base + self.sizes[map] as usize]
    }

    /// The sizes, map 0 first.
    pub fn sizes(&self) -> &[u32]
        ensures sizes { result.now ≡ self.now.sizes }
        ensures limits { AreSizes self.now.sizes }
        ensures words { length self.now.words ≡ sum self.now.sizes }
    {
        self.sizes.as_slice()
    }

    /// The words of all elements: at most 65,536.
    pub fn words(&self) -> &[u64]
        ensures words { result.now ≡ self.now.words }
        ensures fit { AreWords result.now }
        ensures limits { length result.now ≤ 65536 }
    {
        self.words.as_slice()
    }

    /// Tells that the words are below 2^64.
    pub(crate) fn words_fit(&self)
        ensures { AreWords self.now.words }
    {
        let _words = self.words.len();
    }

    /// The value at an index of a map. The map is below the number of maps, and the index below its size.
    pub fn get(&self, map: usize, index: u32) -> u64
        requires map { map < length self.now.sizes }
        requires index { index < slice_index self.now.sizes map }
        ensures { result ≡ slice_index self.now.words (base_of self.now.sizes map + index) }
    {
        self.words[self.base(map) + index as usize]
    }

    /// Sets the value at an index of a map, and no other. The map is below the number of maps, and the
    /// index below its size.
    pub fn set(&mut self, map: usize, index: u32, value: u64)
        requires map { map < length self.old.sizes }
        requires index { index < slice_index self.old.sizes map }
        ensures { self.new ≡ record {
          sizes = self.old.sizes;
          words = slice_set self.old.words (base_of self.old.sizes map + index) value;
        } }
    {
        let at = self.base(map) + index as usize;
        self.words[at] = value;
    }

    /// Sets the words of all elements. There are as many as before.
    pub fn set_words(&mut self, words: Vec<u64>)
        requires { length words.items ≡ length self.old.words }
        ensures { self.new ≡ record { sizes = self.old.sizes; words = words.items } }
    {
        are_words(words.as_slice());
        self.words = words;
    }

    /// Changes the words of all elements in place.
    pub fn change<C: WordChange>(&mut self, change: &C)
        requires { C.wants change.now self.old.words }
        ensures sizes { self.new.sizes ≡ self.old.sizes }
        ensures words { C.makes change.now self.old.words self.new.words }
    {
        change.apply(&mut self.words);
        are_words(self.words.as_slice());
    }

    /// A copy.
    pub fn try_copy(&self, alloc: Global) -> Result<Maps, AllocError>
        ensures { IfOk result (λ copy. copy ≡ self.now) }
    {
        Ok(Maps {
            sizes: self.sizes().to_vec(alloc)?,
            words: self.words.as_slice().to_vec(alloc)?,
        })
    }

    /// The word of an element.
    pub(crate) fn word(&self, e: u32) -> u64
        requires { e < length self.now.words }
        ensures { result ≡ slice_index self.now.words e }
    {
        self.words[e as usize]
    }

    /// Sets the word of an element, and no other.
    pub(crate) fn set_word(&mut self, e: u32, value: u64)
        requires { e < length self.old.words }
        ensures { self.new ≡ record { sizes = self.old.sizes; words = slice_set self.old.words e value } }
    {
        self.words[e as usize] = value;
    }

    /// Stores words at the elements that follow on a first one, as many as there are words. All of these
    /// elements are there.
    pub fn store_run(&mut self, first: u32, values: &[u64])
        requires { first + length values.now ≤ length self.old.words }
        ensures { self.new ≡ record {
          sizes = self.old.sizes;
          words = words_after_run first (λ k. Write (slice_index values.now k)) (length values.now) self.old.words;
        } }
    {
        store_each(&mut self.words, first as usize, values);
        are_words(self.words.as_slice());
    }

    /// Applies an operator, by one operand each, to the elements that follow on a first one, as many as
    /// there are operands. All of these elements are there.
    pub fn update_run(&mut self, first: u32, op: Op, operands: &[u64])
        requires { first + length operands.now ≤ length self.old.words }
        ensures { self.new ≡ record {
          sizes = self.old.sizes;
          words = words_after_run first (λ k. Reduce op (slice_index operands.now k)) (length operands.now)
              self.old.words;
        } }
    {
        let first = first as usize;
        match op {
            Op::Add => update_each(&mut self.words, first, Op::Add, operands),
            Op::Or => update_each(&mut self.words, first, Op::Or, operands),
            Op::And => update_each(&mut self.words, first, Op::And, operands),
            Op::Xor => update_each(&mut self.words, first, Op::Xor, operands),
            Op::AddH => update_each(&mut self.words, first, Op::AddH, operands),
        }
        are_words(self.words.as_slice());
    }

    /// Where the words of a map begin.
    fn base(&self, map: usize) -> usize
        requires { map < length self.now.sizes }
        ensures base { result ≡ base_of self.now.sizes map }
        ensures within { result + slice_index self.now.sizes map ≤ length self.now.words }
    {
        sum_of(&self.sizes[..map])
    }
}

/// The sum of sizes that are small enough.
fn sum_of(sizes: &[u32]) -> usize
    requires { sum sizes.now ≤ 65536 }
    ensures { result ≡ sum sizes.now }
{
    let mut total: usize = 0;
    for size in sizes {
        total += *size as usize;
    }
    total
}
