//! Under `rt try --test --fail-alloc N` each allocation fails in turn: the borrowed maps are then unchanged, and a
//! second try succeeds.

ghost use Rattle.std.specs.Prelude.{◌≤◌};

use crate::tests::replays::loops::{A_BREAK_THAT_IS_NONE, AN_EARLY_BREAK, Row};
use crate::tests::replays::schedules::goes_on;
use crate::tests::replays::stage::Stage;
use loop_core_model::{Event, Test};
use loop_core_replay::ReplayError;
use std::alloc::{AllocError, Global};
use std::process::Abort;
use std::test::Fail;

fn stage_of(alloc: Global, row: &Row) -> Option<Stage> {
    match Stage::try_new(alloc, row) {
        None => Stage::try_new(alloc, row),
        made => made,
    }
}

/// The events of worker 0 alone.
fn events_of(alloc: Global, row: &Row, length: u32) -> Result<Vec<Event>, AllocError>
    requires { length ≤ 17 }
{
    let mut events = Vec::new(alloc);
    if goes_on(row, 0, length, &mut events).is_err() {
        goes_on(row, 0, length, &mut events)?;
    }
    Ok(events)
}

/// Replays a list of events, by a second try if memory ran out at the first.
fn is_still(
    rt: &impl Abort,
    alloc: Global,
    stage: &Stage,
    row: &Row,
    events: &[Event],
    test: Test,
) {
    let mut replayed = stage.has_outcome(alloc, row, events, test);
    if replayed == Err(ReplayError::Memory) {
        assert!(rt;
            stage.words() == row.words,
            "a refused replay leaves the maps"
        );
        replayed = stage.has_outcome(alloc, row, events, test);
    }
    assert!(rt;
        replayed == Ok(true) && stage.words() == row.words,
        "of {test:?}"
    );
}

fn stand_still(
    rt: &impl Abort,
    alloc: Global,
    row: &Row,
    length: u32,
    test: Test,
) -> Result<(), Fail>
    requires { length ≤ 17 }
{
    let stage = stage_of(alloc, row).ok_or("a loop")?;
    let events = events_of(alloc, row, length)?;
    is_still(rt, alloc, &stage, row, &events, test);
    Ok(())
}

#[test]
fn borrowed_maps_stay_after_a_conflict(rt: HostRuntime) -> Result<(), Fail> {
    stand_still(&rt, rt.alloc(), &A_BREAK_THAT_IS_NONE, 15, Test::Lrpd)
}

#[test]
fn borrowed_maps_stay_after_a_pass(rt: HostRuntime) -> Result<(), Fail> {
    stand_still(&rt, rt.alloc(), &AN_EARLY_BREAK, 13, Test::Flow)
}
