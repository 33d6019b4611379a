//! The example at the head of `spec_run`.

use crate::rows::{Row, read_row};
use spec_run::{NoGate, Plan, Policy, Test, run};
use std::test::Fail;

/// A loop of eight iterations that adds its index.
const ADDS: &str =
    "maps 1 | mov64 r1, 8 | LOOP | ldmapval r2, 0, 0 | atomic64 add [r2+0], r1 | END | %% | map 0: 5";

#[test]
fn a_program_is_run(rt: HostRuntime) -> Result<(), Fail> {
    let alloc = rt.alloc();
    let Row { program, mut maps } = read_row(alloc, ADDS).ok_or("a program")?;
    let plan = Plan {
        workers: 4,
        blocks: 16,
        test: Test::Flow,
        policy: Policy::Pays,
    };
    let report = run(&rt, alloc, &program, &mut maps, 0, &plan, &NoGate)?;
    assert_eq!(rt; report.ret, 8);
    assert_eq!(rt; report.loops.len(), 1);
    assert_eq!(rt; maps.words(), [33].as_slice());
    Ok(())
}
