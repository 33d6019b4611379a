//! A run in place: each loop in order, and nothing allocated.

ghost use Rattle.std.specs.Prelude.{◌≡◌, ◌+◌, ◌-◌, ◌<◌, ◌≤◌, ◌++◌, ◌∷◌, [], length, take};
ghost use Rattle.bpf_verify_sound.specs.Soundness.{most_from};
ghost use Rattle.spec_run_main.specs.Reports.{IsReportInOrder};

use crate::driver::run_main;
use crate::runner::LoopRunner;
use array_maps::Maps;
use bpf_step::LoopCall;
use bpf_step_model::RefusedCall;
use bpf_verify::Verified;
use loop_core_model::{LoopReport, Verdict};
use loop_core_sequential::in_order;
use std::convert::Infallible;

/// What a run in place returns, besides the maps that it changes.
#[derive(Clone, Copy)]
pub struct RanInPlace {
    /// The program's return value.
    pub ret: u64,
    /// How many loop calls it made.
    pub calls: usize,
}

/// Adds a line after the first ones, and gives how many there are then.
fn add_line(lines: &mut [LoopReport], calls: usize, line: LoopReport) -> usize
    requires { calls < length lines.old }
    ensures count { result ≡ calls + 1 }
    ensures added { take (calls + 1) lines.new ≡ take calls lines.old ++ line ∷ [] }
    ensures room { length lines.new ≡ length lines.old }
{
    lines[calls] = line;
    calls + 1
}

/// Runs each loop call in order, and writes their lines to the first of these.
#[derive(Drop)]
struct InPlace<'l> {
    lines: &'l mut [LoopReport],
    calls: usize,
}

impl LoopRunner for InPlace<'_> {
    ghost use Rattle.loop_core_model.specs.Report.{loop_report_in_order};
    ghost use Rattle.spec_run_main.specs.Lines.{AreLines};

    type Stop = Infallible;

    ghost records = { λ _ first calls now. (now.lines.ghost_name ≡ first.lines.ghost_name)
        × (length now.lines.now ≡ length first.lines.now)
        × AreLines loop_report_in_order calls (take now.calls now.lines.now) };

    ghost room = { λ runner. length runner.lines.now - runner.calls };

    #[inline]
    fn run_call(
        &mut self,
        program: &Verified,
        call: &LoopCall,
        maps: &mut Maps,
    ) -> Result<u32, Infallible> {
        let answer = in_order(program, call, maps);
        let line = LoopReport {
            slot: call.slot(),
            answer: i64::from(answer),
            verdict: Verdict::InOrder,
        };
        self.calls = add_line(self.lines, self.calls, line);
        Ok(answer)
    }

    #[inline]
    fn note_refusal(&mut self, slot: u32, call: RefusedCall) -> Result<(), Infallible> {
        let line = LoopReport {
            slot,
            answer: call.answer,
            verdict: Verdict::Refused,
        };
        self.calls = add_line(self.lines, self.calls, line);
        Ok(())
    }
}

/// Runs the program on the maps, its argument in R1, with each loop in order, and changes them as it goes. The
/// report on its loop calls is written to the first of these lines. Nothing is allocated, and so nothing is refused.
///
/// The maps are of the program's sizes, and there are at least as many lines as main takes instructions at most.
pub fn run_in_place(
    program: &Verified,
    maps: &mut Maps,
    argument: u64,
    lines: &mut [LoopReport],
) -> RanInPlace
    requires sizes { maps.old.sizes ≡ program.now.sizes }
    requires room { most_from program.now 0 ≤ length lines.old }
    ensures ran { IsReportInOrder program.now argument maps.old maps.new result.ret (take result.calls lines.new) }
    ensures room { length lines.new ≡ length lines.old }
{
    let mut runner = InPlace { lines, calls: 0 };
    match run_main(program, maps, argument, &mut runner) {
        Ok(ret) => RanInPlace {
            ret,
            calls: runner.calls,
        },
        Err(never) => match never {},
    }
}
