//! Under `rt try --test --fail-alloc N` each allocation fails in turn: the maps are then unchanged, and a second try
//! succeeds.

use crate::meeting::{Holds, MeetingGate};
use crate::rows::{Row, read_row};
use array_maps::Maps;
use loop_core_model::{LoopReport, Test, Verdict};
use spec_run::{Gate, NoGate, Plan, Policy, Report, RunError, run, run_in_order};
use std::alloc::Global;
use std::process::Abort;
use std::test::Fail;
use std::thread::Threads;

/// A row with the words of its maps, and the outcome of its run: return value, loops, and the words afterwards.
#[derive(Clone, Copy)]
struct Case {
    row: &'static str,
    words: &'static [u64],
    ret: u64,
    loops: &'static [LoopReport],
    left: &'static [u64],
}

/// Two loops in turn, each of which adds its indices to the second element.
const TWO_LOOPS: Case = Case {
    row: "maps 2 | mov64 r6, 3 | mov64 r1, r6 | ldcode r2, cb | mov64 r3, 0 | mov64 r4, 0 | call 181 | mov64 r1, r6 | LOOP | \
        ldmapval r3, 0, 8 | atomic64 add [r3+0], r1 | END",
    words: &[0, 0],
    ret: 3,
    loops: &[
        LoopReport {
            slot: 6,
            answer: 3,
            verdict: Verdict::Parallel,
        },
        LoopReport {
            slot: 12,
            answer: 3,
            verdict: Verdict::Parallel,
        },
    ],
    left: &[0, 6],
};

/// Sixteen iterations write an element each; that of 5 breaks.
const BREAKS_AT_5: Case = Case {
    row: "maps 16 | mov64 r1, 16 | LOOP | AT | st64 [r3+0], 1 | mov64 r0, 0 | jne64 r1, 5, done | mov64 r0, 1 | done: | exit",
    words: &[0; 16],
    ret: 6,
    loops: &[LoopReport {
        slot: 5,
        answer: 6,
        verdict: Verdict::Parallel,
    }],
    left: &[1, 1, 1, 1, 1, 1, 0, 0, 0, 0, 0, 0, 0, 0, 0, 0],
};

/// Each iteration copies its element to the next, so that the loop is discarded and run in order.
const COPIES_ON: Case = Case {
    row: "maps 5 | mov64 r1, 4 | LOOP | AT | ldx64 r4, [r3+0] | stx64 [r3+8], r4 | END | %% | map 0: 9 0 0 0 0",
    words: &[9, 0, 0, 0, 0],
    ret: 4,
    loops: &[LoopReport {
        slot: 5,
        answer: 4,
        verdict: Verdict::Conflict { count: 3, least: 1 },
    }],
    left: &[9, 9, 9, 9, 9],
};

const PLAN: Plan = Plan {
    workers: 2,
    blocks: 4,
    test: Test::Flow,
    policy: Policy::Blocks,
};

/// A row, by a second try if memory ran out at the first.
fn row_of(alloc: Global, case: &Case) -> Result<Row, Fail> {
    let row = match read_row(alloc, case.row) {
        None => read_row(alloc, case.row),
        made => made,
    };
    Ok(row.ok_or("a row has a program")?)
}

/// Whether memory ran out; the maps are as they were then.
fn is_refused(rt: &impl Abort, case: &Case, ran: &Result<Report, RunError>, maps: &Maps) -> bool {
    match ran {
        Err(RunError::Memory) => {
            assert_eq!(rt; maps.words(), case.words);
            true
        }
        _ => false,
    }
}

/// Asserts that a run is that of a case.
fn is_run(rt: &impl Abort, case: &Case, report: &Report, maps: &Maps) {
    assert_eq!(rt; report.ret, case.ret);
    assert_eq!(rt; report.loops.as_slice(), case.loops);
    assert_eq!(rt; maps.words(), case.left);
}

/// Runs a case with workers in threads, once more if memory ran out.
fn runs_at_last<R: Threads + Sync + Abort, G: Gate>(
    rt: &R,
    alloc: Global,
    case: &Case,
    gate: &G,
) -> Result<(), Fail> {
    let Row { program, mut maps } = row_of(alloc, case)?;
    let mut ran = run(rt, alloc, &program, &mut maps, 0, &PLAN, gate);
    if is_refused(rt, case, &ran, &maps) {
        ran = run(rt, alloc, &program, &mut maps, 0, &PLAN, gate);
    }
    is_run(rt, case, &ran?, &maps);
    Ok(())
}

#[test]
fn maps_stay_where_a_second_loop_is_refused(rt: HostRuntime) -> Result<(), Fail> {
    runs_at_last(&rt, rt.alloc(), &TWO_LOOPS, &NoGate)
}

#[test]
fn maps_stay_where_a_discarded_loop_is_refused(rt: HostRuntime) -> Result<(), Fail> {
    runs_at_last(&rt, rt.alloc(), &COPIES_ON, &NoGate)
}

/// The block that breaks waits until the last one has begun.
const LAST_BLOCK_FIRST: Holds = Holds {
    blocks: &[(1, 3)],
    turns: &[],
};

#[test]
fn maps_stay_where_a_worker_past_the_break_is_refused(rt: HostRuntime) -> Result<(), Fail> {
    let gate = MeetingGate::new(LAST_BLOCK_FIRST);
    runs_at_last(&rt, rt.alloc(), &BREAKS_AT_5, &gate)
}

/// Two loops run in order, on one thread.
#[test]
fn maps_stay_where_order_is_refused(rt: HostRuntime) -> Result<(), Fail> {
    let alloc = rt.alloc();
    let Row { program, mut maps } = row_of(alloc, &TWO_LOOPS)?;
    let mut ran = run_in_order(alloc, &program, &mut maps, 0);
    if is_refused(&rt, &TWO_LOOPS, &ran, &maps) {
        ran = run_in_order(alloc, &program, &mut maps, 0);
    }
    let in_order = Case {
        loops: &[
            LoopReport {
                slot: 6,
                answer: 3,
                verdict: Verdict::InOrder,
            },
            LoopReport {
                slot: 12,
                answer: 3,
                verdict: Verdict::InOrder,
            },
        ],
        ..TWO_LOOPS
    };
    is_run(&rt, &in_order, &ran?, &maps);
    Ok(())
}
