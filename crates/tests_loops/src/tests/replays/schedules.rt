//! Every schedule of two workers, found by trying each event that is enabled.

ghost use Rattle.std.specs.Prelude.{◌≤◌};

use crate::tests::replays::loops::{A_BREAK_THAT_IS_NONE, AN_EARLY_BREAK, Row};
use crate::tests::replays::stage::Stage;
use crate::tests::replays::table::Table;
use loop_core_model::{Event, Test};
use std::alloc::{AllocError, Global};
use std::process::Abort;
use std::test::Fail;

/// Has workers 0 and 1 proceed as the bits of a word say, the lowest first, and returns whether both have ended then.
/// If a worker that has stopped should proceed, returns false.
pub(crate) fn goes_on(
    row: &Row,
    word: u32,
    length: u32,
    events: &mut Vec<Event>,
) -> Result<bool, AllocError>
    requires { length ≤ 17 }
{
    let mut table = Table::new(row.bounds, row.breaks);
    events.clear();
    for place in 0..length {
        let worker = (word >> place & 1) as u8;
        let Some(kind) = table.enabled(worker) else {
            return Ok(false);
        };
        events.push(Event { kind, worker })?;
        table.go_on(worker);
    }
    Ok(table.has_ended())
}

/// Replays each schedule that ends, and asserts its outcome and how many there are. None is longer than 17 events:
/// three for each of four blocks, a post, and a claim and a stop of each worker.
fn schedules_agree(
    rt: &impl Abort,
    alloc: Global,
    row: &Row,
    test: Test,
    wanted: u32,
) -> Result<(), Fail> {
    let stage = Stage::try_new(alloc, row).ok_or("a loop")?;
    let mut events = Vec::new(alloc);
    let mut ended = 0u32;
    for length in 0..18 {
        for word in 0..1 << length {
            if goes_on(row, word, length, &mut events)? {
                ended = ended.saturating_add(1);
                let replayed = stage.has_outcome(alloc, row, &events, test);
                assert!(rt; replayed == Ok(true), "of {events:?}");
            }
        }
    }
    assert_eq!(rt; ended, wanted);
    Ok(())
}

#[test]
fn schedules_of_a_conflict_agree_by_flow(rt: HostRuntime) -> Result<(), Fail> {
    schedules_agree(&rt, rt.alloc(), &A_BREAK_THAT_IS_NONE, Test::Flow, 27_498)
}

#[test]
fn schedules_of_a_conflict_agree_by_pairs(rt: HostRuntime) -> Result<(), Fail> {
    schedules_agree(&rt, rt.alloc(), &A_BREAK_THAT_IS_NONE, Test::Lrpd, 27_498)
}

#[test]
fn schedules_with_skipped_blocks_agree_by_flow(rt: HostRuntime) -> Result<(), Fail> {
    schedules_agree(&rt, rt.alloc(), &AN_EARLY_BREAK, Test::Flow, 17_430)
}

#[test]
fn schedules_with_skipped_blocks_agree_by_pairs(rt: HostRuntime) -> Result<(), Fail> {
    schedules_agree(&rt, rt.alloc(), &AN_EARLY_BREAK, Test::Lrpd, 17_430)
}
