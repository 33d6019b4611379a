//! What each event does to a worker and to what it shares.

ghost use Rattle.std.specs.Prelude.{◌≡◌, ◌<◌, ◌≤◌, ℕ, Bool, List, IfSome, IfNone, Some, None};
ghost use Rattle.loop_core_model.specs.{Intervals.{blocks_of, end_of}, Events.{claims, looks, iterates}};
ghost use Rattle.loop_core_replay.specs.Standing.{schedule_worker, shared_of, WorkerFits};
ghost use Rattle.loop_core_replay.specs.Moves.{TransitionFits, transition_result, IsTransition, IsNeverEnabled};

use crate::worker::{Shared, Worker};
use loop_core_model::EventKind;
use loop_core_split::{Split, is_late, lesser};

/// What a worker and what it shares become, and the block that was run to its break or its end with it.
#[derive(Clone, Copy)]
pub(crate) struct WorkerTransition {
    pub(crate) worker: Worker,
    pub(crate) shared: Shared,
    pub(crate) ran: Option<u32>,
}

fn becomes(worker: Worker, shared: Shared, ran: Option<u32>) -> WorkerTransition
    ensures { result ≡ record { worker = worker; shared = shared; ran = ran } }
{
    WorkerTransition {
        worker,
        shared,
        ran,
    }
}

fn claim(split: &Split, shared: Shared) -> WorkerTransition
    requires { shared.next ≤ blocks_of split.now }
    ensures fits { TransitionFits split.now result }
    ensures claims { (runs : List ℕ) → claims split.now (shared_of shared runs) ≡ transition_result result runs }
{
    if shared.next < split.blocks() {
        let next = shared.next + 1;
        becomes(
            Worker::Holding { block: shared.next },
            Shared { next, ..shared },
            None,
        )
    } else {
        becomes(Worker::Drained, shared, None)
    }
}

fn look(split: &Split, block: u32, shared: Shared) -> WorkerTransition
    requires next { shared.next ≤ blocks_of split.now }
    requires block { block < blocks_of split.now }
    ensures fits { TransitionFits split.now result }
    ensures looks { (runs : List ℕ) → looks split.now block (shared_of shared runs) ≡ transition_result result runs }
{
    let start = split.start(block);
    if is_late(shared.least, start) {
        becomes(Worker::Idle, shared, None)
    } else if start == split.end(block) {
        becomes(Worker::Idle, shared, Some(block))
    } else {
        becomes(
            Worker::Running {
                block,
                index: start,
            },
            shared,
            None,
        )
    }
}

/// What comes of the iteration of this index, which broke or not.
fn iterate(split: &Split, block: u32, index: u32, broke: bool, shared: Shared) -> WorkerTransition
    requires next { shared.next ≤ blocks_of split.now }
    requires block { block < blocks_of split.now }
    requires index { index < end_of split.now block }
    ensures fits { TransitionFits split.now result }
    ensures iterates { (breaks : ℕ → Bool) (runs : List ℕ) → breaks index ≡ broke →
        iterates breaks split.now block index (shared_of shared runs) ≡ transition_result result runs }
{
    let end = split.end(block);
    if broke {
        becomes(Worker::Posting { index }, shared, Some(block))
    } else if index + 1 == end {
        becomes(Worker::Idle, shared, Some(block))
    } else {
        becomes(
            Worker::Running {
                block,
                index: index + 1,
            },
            shared,
            None,
        )
    }
}

/// What an event of this kind makes of a worker, or `None` where it isn't enabled. Where it is the worker's turn, the
/// iteration breaks or not.
pub(crate) fn transition_of(
    split: &Split,
    kind: EventKind,
    worker: Worker,
    shared: Shared,
    breaks: bool,
) -> Option<WorkerTransition>
    requires next { shared.next ≤ blocks_of split.now }
    requires worker { WorkerFits split.now worker }
    ensures some { IfSome result (IsTransition split.now kind worker shared breaks) }
    ensures none { IfNone result (IsNeverEnabled split.now kind worker shared) }
{
    match (kind, worker) {
        (EventKind::Claim, Worker::Idle) => Some(claim(split, shared)),
        (EventKind::Look, Worker::Holding { block }) => Some(look(split, block, shared)),
        (EventKind::Turn, Worker::Running { block, index }) => {
            Some(iterate(split, block, index, breaks, shared))
        }
        (EventKind::Post, Worker::Posting { index }) => {
            let least = lesser(Some(index), shared.least);
            Some(becomes(Worker::Idle, Shared { least, ..shared }, None))
        }
        (EventKind::Stop, Worker::Drained) => Some(becomes(Worker::Stopped, shared, None)),
        _ => None,
    }
}
