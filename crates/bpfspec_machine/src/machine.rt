//! Machines.

ghost use Rattle.std.specs.Prelude.{◌≡◌, IfOk, if◌then◌else◌, length, slice_get};
ghost use Rattle.bpfspec_machine.specs.Machines.{new_machine, MachineRan, RanEach, count_at};
ghost use Rattle.bpfspec_machine.specs.Elements.{has_element, element_of, with_element_if, has_words, words_of};
ghost use Rattle.bpfspec_machine.specs.Elements.{with_words_if};

use array_maps::{Maps, MapsError};
use bpf_verify::Verified;
use loop_core_model::{LoopReport, Verdict};
use spec_run_main::run_in_place;
use std::alloc::{AllocError, Global};
use std::marker::Model;

/// A program with its maps, which runs many times. In contracts it is its program, its maps, and the lines of the loop
/// calls of its last run.
#[derive(Drop)]
pub struct Machine {
    program: Verified,
    maps: Maps,
    lines: Vec<LoopReport>,
    calls: usize,
}

impl Model for Machine {
    ghost use Rattle.std.specs.Prelude.{take};
    ghost use Rattle.bpfspec_machine.specs.Machines.{MachineState, IsMachine};

    ghost Value = { MachineState };

    ghost view = { λ m. record { program = m.program; maps = m.maps; loops = take m.calls m.lines.items } };

    ghost invariant = { λ m. IsMachine m.program m.maps m.lines.items };
}

impl Machine {
    /// The machine of an accepted program: its maps are all zero, and it has a line for each loop call that main can
    /// make.
    #[tactic(auto, unfolding(bpf_verify_model::specs::Count::count_of))]
    pub(crate) fn new(alloc: Global, program: Verified) -> Result<Machine, AllocError>
        ensures { IfOk result (λ machine. machine ≡ new_machine program) }
    {
        let maps = match Maps::new(alloc, program.sizes()) {
            Ok(maps) => maps,
            Err(MapsError::Limits) => unreachable!(),
            Err(MapsError::Memory) => return Err(AllocError),
        };
        let blank = LoopReport {
            slot: 0,
            answer: 0,
            verdict: Verdict::InOrder,
        };
        let lines = Vec::from_elem(alloc, blank, program.count(0) as usize)?;
        Ok(Machine {
            program,
            maps,
            lines,
            calls: 0,
        })
    }

    /// Runs the program on the maps, its argument in R1, each loop in order, and gives its return value. What it leaves
    /// in the maps stays there for the next run. Nothing is allocated, and so nothing is refused.
    pub fn run(&mut self, argument: u64) -> u64
        ensures { MachineRan argument self.old self.new result }
    {
        let ran = run_in_place(
            &self.program,
            &mut self.maps,
            argument,
            self.lines.as_mut_slice(),
        );
        self.calls = ran.calls;
        ran.ret
    }

    /// Runs the program once for each argument, in order, and writes the answers. There are as many of these.
    pub fn run_each(&mut self, arguments: &[u64], answers: &mut [u64])
        requires { length answers.old ≡ length arguments.now }
        ensures { RanEach arguments.now self.old self.new answers.new }
    {
        for i in 0..arguments.len() {
            answers[i] = self.run(arguments[i]);
        }
    }

    /// The most instructions that a call of a function takes; none where there is no such function. Main is 0, and
    /// callbacks are numbered from 1 by where they start.
    pub fn count(&self, function: u32) -> Option<u32>
        ensures { result ≡ count_at self.now.program function }
    {
        if function <= self.program.callbacks() {
            Some(self.program.count(function))
        } else {
            None
        }
    }

    /// How many elements a map has; none where there is no such map.
    pub fn size(&self, map: u32) -> Option<u32>
        ensures { result ≡ slice_get self.now.maps.sizes map }
    {
        self.maps.sizes().get(map as usize).copied()
    }

    /// Whether there is an element.
    fn has(&self, map: u32, index: u32) -> bool
        ensures { result ≡ has_element self.now.maps.sizes map index }
    {
        self.size(map).is_some_and(|size| index < size)
    }

    /// The value of an element; none where there is no such element.
    pub fn get(&self, map: u32, index: u32) -> Option<u64>
        ensures { result ≡ element_of self.now.maps map index }
    {
        if !self.has(map, index) {
            return None;
        }
        Some(self.maps.get(map as usize, index))
    }

    /// Sets the value of an element, and returns whether there is such an element.
    pub fn set(&mut self, map: u32, index: u32, value: u64) -> bool
        ensures there { result ≡ has_element self.old.maps.sizes map index }
        ensures set { self.new ≡ with_element_if result self.old map index value }
    {
        if !self.has(map, index) {
            return false;
        }
        self.maps.set(map as usize, index, value);
        true
    }

    /// Whether a map has this many elements.
    fn has_words(&self, map: u32, count: usize) -> bool
        ensures { result ≡ has_words self.now.maps.sizes map count }
    {
        self.size(map).is_some_and(|size| size as usize == count)
    }

    /// Copies the values of a map's elements out, and returns whether there is a map of as many elements.
    pub fn copy_words(&self, map: u32, words: &mut [u64]) -> bool
        ensures there { result ≡ has_words self.now.maps.sizes map (length words.old) }
        ensures copied { words.new ≡ (if result then words_of self.now.maps map else words.old) }
    {
        if !self.has_words(map, words.len()) {
            return false;
        }
        let _sizes = self.maps.sizes(); // as many as there are words
        words.copy_from_slice(self.maps.values(map as usize));
        true
    }

    /// Sets the values of a map's elements, and returns whether there is a map of as many elements.
    pub fn set_words(&mut self, map: u32, words: &[u64]) -> bool
        ensures there { result ≡ has_words self.old.maps.sizes map (length words.now) }
        ensures set { self.new ≡ with_words_if result self.old map words.now }
    {
        if !self.has_words(map, words.len()) {
            return false;
        }
        let sizes = self.maps.sizes(); // as many as there are words
        let first = sizes[..map as usize].iter().sum();
        self.maps.store_run(first, words);
        true
    }

    /// The report on a loop call of the last run, by its number; none where it made fewer.
    pub fn line(&self, number: usize) -> Option<LoopReport>
        ensures { result ≡ slice_get self.now.loops number }
    {
        if number < self.calls {
            self.lines.get(number).copied()
        } else {
            None
        }
    }
}
