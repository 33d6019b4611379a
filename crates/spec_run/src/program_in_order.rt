//! Running a program with its loops in order.

ghost use Rattle.std.specs.Prelude.{◌≡◌, ◌≢◌, IfOk, OnErr, Err};
ghost use Rattle.spec_run_main.specs.Reports.{IsReportInOrder};

use crate::in_order::InOrder;
use array_maps::Maps;
use bpf_verify::Verified;
use spec_run_loop::RunError;
use spec_run_main::{Report, run_main};
use std::alloc::Global;

/// Runs the program on the maps, its argument in R1, with each loop in order. It runs on a copy, which
/// takes the maps' place at the end. No iteration is stuck, and each ends within the count that the
/// verifier reports.
///
/// It fails with `Sizes` where the maps' sizes differ from the program's, and with `Memory`. The maps
/// are as before then.
pub fn run_in_order(
    alloc: Global,
    program: &Verified,
    maps: &mut Maps,
    argument: u64,
) -> Result<Report, RunError>
    ensures ran { IfOk result (λ report. IsReportInOrder program.now argument maps.old maps.new report.ret
        report.loops.items) }
    ensures refused { OnErr result (maps.new ≡ maps.old) }
    ensures sizes { maps.old.sizes ≢ program.now.sizes → result ≡ Err RunError.Sizes }
    ensures only { result ≡ Err RunError.Sizes → maps.old.sizes ≢ program.now.sizes }
    ensures plan { result ≢ Err RunError.Plan }
{
    if maps.sizes() != program.sizes() {
        return Err(RunError::Sizes);
    }
    let mut left = maps.try_copy(alloc)?;
    let mut runner = InOrder::new(alloc);
    let ret = run_main(program, &mut left, argument, &mut runner)?;
    *maps = left;
    Ok(Report {
        ret,
        loops: runner.lines,
    })
}
