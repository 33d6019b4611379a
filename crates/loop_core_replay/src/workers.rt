//! The workers of a replayed schedule.

ghost use Rattle.std.specs.Prelude.{◌≡◌, ◌<◌, ℕ, true, false, List, [], length, IfSome, IfOk, IfErr, OnOk};
ghost use Rattle.std.specs.{Prelude.{OnErr, slice_index_or}, List.{list_all}};
ghost use Rattle.loop_core_model.specs.declared.replay_fault.ReplayFault.TheVariants.{NotEnded};
ghost use Rattle.loop_core_model.specs.{Intervals.{blocks_of}, Schedule.{at_first, has_ended, is_stopped, worker_of}};
ghost use Rattle.loop_core_replay.specs.{Standing.{WorkersFit, state}, Steps.{LeadsTo, Faults}};
ghost use Rattle.loop_core_replay.specs.declared.worker.Worker.TheVariants.{Idle};

use crate::moves::transition_of;
use crate::worker::{Shared, Worker};
use loop_core_model::{Event, MAX_WORKERS, ReplayFault};
use loop_core_split::Split;
use std::marker::Model;

const WORKERS: usize = MAX_WORKERS as usize;

/// Sixteen workers that share the blocks of a split, while a list of events goes by. They take no memory.
#[derive(Drop)]
pub struct Workers {
    shared: Shared,
    workers: [Worker; WORKERS],
}

impl Model for Workers {
    ghost use Rattle.std.specs.Prelude.{◌≡◌, length};
    ghost use Rattle.loop_core_replay.specs.Standing.{Standing};

    ghost Value = { Standing };

    ghost view = { λ w. record { shared = w.shared; workers = w.workers } };

    ghost invariant = { λ w. length w.workers ≡ 16 };
}

impl Workers {
    /// Workers that haven't done anything.
    pub fn new() -> Workers
        ensures first { state result [] ≡ at_first }
        ensures fits { (bounds : List ℕ) → WorkersFit bounds result }
    {
        Workers {
            shared: Shared {
                next: 0,
                least: None,
            },
            workers: [Worker::Idle; WORKERS],
        }
    }

    /// What the worker of this number does. One above 15 does nothing.
    pub(crate) fn get(&self, number: u8) -> Worker
        ensures { result ≡ slice_index_or self.now.workers number Idle }
    {
        let worker = self.workers.get(usize::from(number));
        worker.copied().unwrap_or(Worker::Idle)
    }

    /// Does the event that is at this place of a list. Where it is a worker's turn, the iteration breaks or not.
    /// Returns the block if the event ran it to its break or its end. The split is the one that these workers share.
    ///
    /// E1 (`NoSuchWorker`) a worker above 15, E2 (`NotEnabled`) an event that isn't enabled, each with the place.
    pub(crate) fn step(
        &mut self,
        split: &Split,
        event: Event,
        place: usize,
        breaks: bool,
    ) -> Result<Option<u32>, ReplayFault>
        requires { WorkersFit split.now self.old }
        ensures fits { OnOk result (WorkersFit split.now self.new) }
        ensures within { IfOk result (λ ran. IfSome ran (λ block. block < blocks_of split.now)) }
        ensures follows { IfOk result (LeadsTo split.now event place breaks self.old self.new) }
        ensures fault { IfErr result (Faults split.now event place self.old) }
    {
        let number = usize::from(event.worker);
        if number >= WORKERS {
            return Err(ReplayFault::NoSuchWorker { event: place });
        }
        match transition_of(split, event.kind, self.workers[number], self.shared, breaks) {
            Some(change) => {
                self.workers[number] = change.worker;
                self.shared = change.shared;
                Ok(change.ran)
            }
            None => Err(ReplayFault::NotEnabled { event: place }),
        }
    }

    /// Whether these events have ended: some worker is in them, and each that does has stopped.
    /// E3 (`NotEnded`) with the number of events where they haven't.
    pub fn end(&self, events: &[Event]) -> Result<(), ReplayFault>
        ensures ended { OnOk result ((runs : List ℕ) → has_ended events.now (state self.now runs) ≡ true) }
        ensures not_ended { OnErr result ((runs : List ℕ) → has_ended events.now (state self.now runs) ≡ false) }
        ensures fault { IfErr result (λ f. f ≡ NotEnded (length events.now)) }
    {
        if !events.is_empty() && self.have_stopped(events) {
            Ok(())
        } else {
            Err(ReplayFault::NotEnded {
                events: events.len(),
            })
        }
    }

    fn has_stopped(&self, number: u8) -> bool
        ensures { result ≡ is_stopped (worker_of (state self.now []) number) }
    {
        matches!(self.get(number), Worker::Stopped)
    }

    /// Whether each worker of these events has stopped.
    fn have_stopped(&self, events: &[Event]) -> bool
        ensures { result ≡ list_all (λ e. is_stopped (worker_of (state self.now []) e.worker)) events.now }
    {
        events.iter().all(|event| self.has_stopped(event.worker))
    }
}
