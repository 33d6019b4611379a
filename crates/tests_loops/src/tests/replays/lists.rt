//! Every list of at most five events of three workers, against the table of events.

ghost use Rattle.std.specs.Prelude.{◌≡◌, length};

use crate::tests::replays::loops::{NO_ITERATIONS, Row, TWO_BREAKS};
use crate::tests::replays::stage::Stage;
use crate::tests::replays::table::Table;
use loop_core_model::{Event, EventKind, Test};
use loop_core_replay::ReplayError;
use std::alloc::Global;
use std::process::Abort;
use std::test::Fail;

/// The event of a number from 0 to 14.
fn event_of(number: u32) -> Event {
    let kind = match number / 3 {
        0 => EventKind::Claim,
        1 => EventKind::Look,
        2 => EventKind::Turn,
        3 => EventKind::Post,
        _ => EventKind::Stop,
    };
    Event {
        kind,
        worker: (number % 3) as u8,
    }
}

/// The list of a number: the events of its five digits to the base of 15.
fn list_of(number: u32) -> [Event; 5]
    ensures { length result ≡ 5 }
{
    [
        event_of(number % 15),
        event_of(number / 15 % 15),
        event_of(number / 225 % 15),
        event_of(number / 3375 % 15),
        event_of(number / 50_625 % 15),
    ]
}

/// How many lists of n events there are, up to five.
fn lists_of(length: usize) -> u32 {
    match length {
        0 => 1,
        1 => 15,
        2 => 225,
        3 => 3375,
        4 => 50_625,
        _ => 759_375,
    }
}

/// The expected result of the replay of a list: the fault that the table finds, or else the row's outcome.
fn said_of(row: &Row, events: &[Event]) -> Result<bool, ReplayError> {
    match Table::new(row.bounds, row.breaks).fault(events) {
        None => Ok(true),
        Some(fault) => Err(ReplayError::Fault(fault)),
    }
}

fn lists_are_judged(rt: &impl Abort, alloc: Global, row: &Row) -> Result<(), Fail> {
    let stage = Stage::try_new(alloc, row).ok_or("a loop")?;
    for length in 0..6 {
        for number in 0..lists_of(length) {
            let list = list_of(number);
            let events = &list[..length];
            let replayed = stage.has_outcome(alloc, row, events, Test::Flow);
            assert!(rt; replayed == said_of(row, events), "of {events:?}");
        }
    }
    Ok(())
}

#[test]
fn lists_of_a_loop_with_breaks_are_judged(rt: HostRuntime) -> Result<(), Fail> {
    lists_are_judged(&rt, rt.alloc(), &TWO_BREAKS)
}

#[test]
fn lists_of_a_loop_without_iterations_are_judged(rt: HostRuntime) -> Result<(), Fail> {
    lists_are_judged(&rt, rt.alloc(), &NO_ITERATIONS)
}
