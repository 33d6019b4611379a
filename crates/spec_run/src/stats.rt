//! Which way the loop calls of a run went, and how long they took.

use crate::observing::Observer;
use bpf_step::LoopCall;
use bpf_verify::Verified;
use loop_core_model::Verdict;
use spec_run_loop::{LoopAnswer, Strategy};
use std::alloc::Global;
use std::time::{Clock, Duration, Instant};

/// How a loop call went.
#[derive(Clone, Copy, Debug)]
pub struct LoopStats {
    /// Its number among the program's loop calls, refused ones included, from 0.
    pub number: usize,
    /// The slot of the call.
    pub slot: u32,
    /// Whether its callback has a list of row operations, by which iterations in order may go together.
    pub has_list: bool,
    /// How many iterations were called for.
    pub called_for: u32,
    /// How many ran in order, or would have: fewer where one broke the loop.
    pub answer: u32,
    /// The verdict on it.
    pub verdict: Verdict,
    /// Which way it went.
    pub strategy: Strategy,
    /// How long it took, where the clock could be read.
    pub time: Option<Duration>,
}

/// How the loop calls of a run went, and how long they took by a clock. It observes the run.
#[derive(Drop)]
pub struct Stats<'c, C> {
    clock: &'c C,
    began: Option<Instant>,
    loop_began: Option<Instant>,
    loops: Vec<LoopStats>,
    time: Option<Duration>,
}

impl<'c, C: Clock> Stats<'c, C> {
    /// Those of a run that hasn't begun.
    pub fn new(alloc: Global, clock: &'c C) -> Stats<'c, C> {
        Stats {
            clock,
            began: None,
            loop_began: None,
            loops: Vec::new(alloc),
            time: None,
        }
    }

    /// How each loop call went that wasn't refused, in order. One for which there was no memory is left out.
    pub fn loops(&self) -> &[LoopStats] {
        &self.loops
    }

    /// How long the program took, where it is done and the clock could be read.
    pub fn time(&self) -> Option<Duration> {
        self.time
    }

    /// What the clock reads now, where it can be read.
    fn now(&self) -> Option<Instant> {
        Instant::now(self.clock).ok()
    }

    /// How long it is since then, where both are known.
    fn since(&self, then: Option<Instant>) -> Option<Duration> {
        Some(self.now()?.duration_since(then?))
    }
}

impl<C: Clock> Observer for Stats<'_, C> {
    fn begin(&mut self) {
        self.began = self.now();
    }

    fn begin_loop(&mut self) {
        self.loop_began = self.now();
    }

    fn end_loop(
        &mut self,
        program: &Verified,
        number: usize,
        call: &LoopCall,
        answered: &LoopAnswer,
    ) {
        let time = self.since(self.loop_began);
        let _ = self.loops.push(LoopStats {
            number,
            slot: call.slot(),
            has_list: program.rows(call.callback()).is_some(),
            called_for: call.n(),
            answer: answered.answer,
            verdict: answered.verdict,
            strategy: answered.strategy,
            time,
        });
    }

    fn end(&mut self) {
        self.time = self.since(self.began);
    }
}
