//! Workers that are held until others have arrived. By contract a loop has the same outcome however it is run. Only
//! here is it shown that workers run at once, pass the gate, and skip what lies after a break that they see.

use crate::meeting::{Holds, MeetingGate};
use crate::rows::{first_loop, read_row};
use crate::tests::runs::reports::{loop_report, report, served};
use loop_core_model::Test;
use spec_run::{Plan, Policy};
use std::alloc::Global;
use std::process::Abort;
use std::test::Fail;
use std::thread::Threads;

/// A row with a loop, how many workers and blocks it is run by, which of them are held, and its report.
#[derive(Clone, Copy)]
struct Held {
    row: &'static str,
    workers: u32,
    blocks: u32,
    holds: Holds,
    report: &'static str,
}

/// Eight iterations add their index. The first block waits until the second has begun, and the first iteration of each
/// until the other's is next: one thread alone can't do that.
const ADDS: Held = Held {
    row: "maps 1 | mov64 r1, 8 | LOOP | ldmapval r2, 0, 0 | atomic64 add [r2+0], r1 | END | %% | map 0: 18446744073709551615",
    workers: 2,
    blocks: 2,
    holds: Holds {
        blocks: &[(0, 1)],
        turns: &[(0, 4), (4, 0)],
    },
    report: "return 8 | loop 0 at 5: answer 8, parallel | map 0: 27",
};

/// Sixteen iterations write an element each; that of 5 breaks. Two blocks wait for each other.
const BREAKS_AT_5: Held = Held {
    row: "maps 16 | mov64 r1, 16 | LOOP | AT | st64 [r3+0], 1 | mov64 r0, 0 | jne64 r1, 5, done | mov64 r0, 1 | done: | exit",
    workers: 2,
    blocks: 2,
    holds: Holds {
        blocks: &[(0, 1)],
        turns: &[(0, 8), (8, 0)],
    },
    report: "return 6 | loop 0 at 5: answer 6, parallel | map 0: 1 1 1 1 1 1 0 0 0 0 0 0 0 0 0 0",
};

/// Two blocks wait until a third has begun.
const THREE_AT_ONCE: Held = Held {
    workers: 3,
    blocks: 3,
    holds: Holds {
        blocks: &[(0, 2), (1, 2)],
        turns: &[],
    },
    ..BREAKS_AT_5
};

/// The iterations of 3 and 12 break. The first block waits until the last has begun: the other worker runs all between,
/// and its later break counts for nothing.
const LEAST_BREAK_LAST: Held = Held {
    row: "maps 16 | mov64 r1, 16 | LOOP | AT | st64 [r3+0], 1 | mov64 r0, 0 | jeq64 r1, 3, hit | jne64 r1, 12, done | \
        hit: | mov64 r0, 1 | done: | exit",
    workers: 2,
    blocks: 4,
    holds: Holds {
        blocks: &[(0, 3)],
        turns: &[],
    },
    report: "return 4 | loop 0 at 5: answer 4, parallel | map 0: 1 1 1 1 0 0 0 0 0 0 0 0 0 0 0 0",
};

fn plan_of(held: &Held) -> Plan {
    Plan {
        workers: held.workers,
        blocks: held.blocks,
        test: Test::Flow,
        policy: Policy::Blocks,
    }
}

/// Asserts the report, and that all who are held met those for whom they waited.
fn has_passed(
    rt: &impl Abort,
    alloc: Global,
    text: &str,
    wanted: &str,
    gate: &MeetingGate,
) -> Result<(), Fail> {
    let wanted = wanted.replace(alloc, " | ", "\n")?;
    assert_eq!(rt; text.trim_end(), wanted.as_str());
    assert!(rt; gate.has_met(), "of {wanted}");
    Ok(())
}

fn loop_passes<R: Threads + Sync + Abort>(rt: &R, alloc: Global, held: &Held) -> Result<(), Fail> {
    let gate = MeetingGate::new(held.holds);
    let row = read_row(alloc, held.row).ok_or("a row has a program")?;
    let first = first_loop(alloc, &row).ok_or("a program has a loop")?;
    let text = loop_report(rt, alloc, &row, &first, &plan_of(held), &gate)?;
    let (_, wanted) = held.report.split_once(" | ").ok_or("a report has lines")?;
    has_passed(rt, alloc, &text, wanted, &gate)
}

fn program_passes<R: Threads + Sync + Abort>(
    rt: &R,
    alloc: Global,
    held: &Held,
) -> Result<(), Fail> {
    let gate = MeetingGate::new(held.holds);
    let row = read_row(alloc, held.row).ok_or("a row has a program")?;
    let text = report(rt, alloc, &row, &plan_of(held), &gate)?;
    has_passed(rt, alloc, &text, held.report, &gate)
}

fn input_passes<R: Threads + Sync + Abort>(rt: &R, alloc: Global, held: &Held) -> Result<(), Fail> {
    let gate = MeetingGate::new(held.holds);
    let text = served(rt, alloc, held.row, &plan_of(held), &gate)?;
    has_passed(rt, alloc, &text, held.report, &gate)
}

const ALL: [Held; 4] = [ADDS, BREAKS_AT_5, THREE_AT_ONCE, LEAST_BREAK_LAST];

#[test]
fn workers_of_a_loop_meet(rt: HostRuntime) -> Result<(), Fail> {
    for held in &ALL {
        loop_passes(&rt, rt.alloc(), held)?;
    }
    Ok(())
}

#[test]
fn workers_of_a_program_meet(rt: HostRuntime) -> Result<(), Fail> {
    for held in &ALL {
        program_passes(&rt, rt.alloc(), held)?;
    }
    Ok(())
}

#[test]
fn workers_of_an_input_meet(rt: HostRuntime) -> Result<(), Fail> {
    for held in &ALL {
        input_passes(&rt, rt.alloc(), held)?;
    }
    Ok(())
}

/// As many iterations as are worth two threads, each of which writes an element.
const WORTH_THREADS: Held = Held {
    row: "maps 1 | mov64 r1, 2000000 | LOOP | ldmapval r3, 0, 0 | st64 [r3+0], 7 | END",
    workers: 2,
    blocks: 2,
    holds: Holds {
        blocks: &[(0, 1)],
        turns: &[],
    },
    report: "return 2000000 | loop 0 at 5: answer 2000000, parallel | map 0: 7",
};

/// A loop of enough work is run by several threads where a plan asks for what pays.
#[test]
fn workers_of_a_loop_that_pays_meet(rt: HostRuntime) -> Result<(), Fail> {
    let gate = MeetingGate::new(WORTH_THREADS.holds);
    let row = read_row(rt.alloc(), WORTH_THREADS.row).ok_or("a row has a program")?;
    let plan = Plan {
        test: Test::Lrpd,
        policy: Policy::Pays,
        ..plan_of(&WORTH_THREADS)
    };
    let text = report(&rt, rt.alloc(), &row, &plan, &gate)?;
    has_passed(&rt, rt.alloc(), &text, WORTH_THREADS.report, &gate)
}

/// A bit for each of the numbers 0 to 3.
const FIRST_FOUR: u64 = 15;

/// One worker sees the break of the first block, and runs no iteration of the others: a look that loads nothing would.
#[test]
fn blocks_after_a_break_are_skipped(rt: HostRuntime) -> Result<(), Fail> {
    let held = Held {
        workers: 1,
        holds: Holds {
            blocks: &[],
            turns: &[],
        },
        ..LEAST_BREAK_LAST
    };
    let gate = MeetingGate::new(held.holds);
    let row = read_row(rt.alloc(), held.row).ok_or("a row has a program")?;
    let text = report(&rt, rt.alloc(), &row, &plan_of(&held), &gate)?;
    has_passed(&rt, rt.alloc(), &text, held.report, &gate)?;
    assert_eq!(rt; [gate.blocks.came(), gate.turns.came()], [FIRST_FOUR; 2]);
    Ok(())
}
