//! Explaining the loop calls of a program while it runs.

ghost use Rattle.std.specs.Prelude.{◌≡◌, [], None, IfOk};
ghost use Rattle.loop_core_model.specs.declared.verdict.Verdict.TheVariants.{Refused as WasRefused};
ghost use Rattle.spec_run_explain.specs.{Causes.{still_wants}, Programs.{IsProgramExplained}};

use crate::call::explain_call;
use array_maps::Maps;
use bpf_step::LoopCall;
use bpf_step_model::RefusedCall;
use bpf_verify::Verified;
use loop_core_model::{LoopReport, Test, Verdict};
use loop_core_sequential::in_order;
use loop_core_witness::{Explained, LoopExplained};
use spec_run_main::{LoopRunner, Report, run_main};
use std::alloc::{AllocError, Global};

/// The explanation of a call that was refused.
fn refused(alloc: Global, slot: u32, call: RefusedCall) -> LoopExplained
    ensures line { result.line ≡ record { slot = slot; answer = call.answer; verdict = WasRefused } }
    ensures iterations { result.iterations ≡ call.iterations }
    ensures flags { result.flags ≡ call.flags }
    ensures broke { result.broke ≡ None }
    ensures strategy { result.strategy ≡ None }
    ensures causes { result.causes.items ≡ [] }
    ensures grid { result.grid ≡ None }
{
    LoopExplained {
        line: LoopReport {
            slot,
            answer: call.answer,
            verdict: Verdict::Refused,
        },
        iterations: call.iterations,
        flags: call.flags,
        broke: None,
        strategy: None,
        causes: Vec::new(alloc),
        grid: None,
    }
}

/// Whether a grid is wanted after a loop call that is explained so.
fn still_wants(wants_grid: bool, explained: &LoopExplained) -> bool
    ensures { result ≡ still_wants wants_grid explained.now.grid }
{
    match &explained.grid {
        Some(_) => false,
        None => wants_grid,
    }
}

/// Runs each loop call in order, and explains it by a test: at most `most` elements of each. A grid is made of the
/// first that conflicts, if one is wanted.
#[derive(Drop)]
struct Explainer {
    alloc: Global,
    test: Test,
    most: u32,
    /// Whether a grid is still wanted.
    wants_grid: bool,
    lines: Vec<LoopReport>,
    loops: Vec<LoopExplained>,
}

impl LoopRunner for Explainer {
    ghost use Rattle.spec_run_explain.specs.{Causes.{wants_after}, Programs.{AreExplainedSoFar}};

    type Stop = AllocError;

    ghost records = { λ program first calls now. (now.test ≡ first.test) × (now.most ≡ first.most)
        × (now.wants_grid ≡ wants_after first.wants_grid now.loops.items)
        × AreExplainedSoFar now.test program now.most first.wants_grid calls now.lines.items now.loops.items };

    ghost room = { λ _. 4096 };

    fn run_call(
        &mut self,
        program: &Verified,
        call: &LoopCall,
        maps: &mut Maps,
    ) -> Result<u32, AllocError> {
        let start = maps.try_copy(self.alloc)?;
        let answer = in_order(program, call, maps);
        let explained = explain_call(
            self.alloc,
            program,
            call,
            &start,
            self.test,
            self.most,
            self.wants_grid,
            answer,
        )?;
        self.wants_grid = still_wants(self.wants_grid, &explained);
        self.lines.push(explained.line)?;
        self.loops.push(explained)?;
        Ok(answer)
    }

    fn note_refusal(&mut self, slot: u32, call: RefusedCall) -> Result<(), AllocError> {
        let explained = refused(self.alloc, slot, call);
        self.lines.push(explained.line)?;
        self.loops.push(explained)?;
        Ok(())
    }
}

/// Runs the program in order on the maps, its argument in R1, and explains each loop call by a test: at most `most`
/// elements of each. If a grid is wanted, it is made of the first that conflicts. The maps are of the program's sizes,
/// and are left as the program leaves them.
pub fn explain_loops(
    alloc: Global,
    program: &Verified,
    maps: &mut Maps,
    argument: u64,
    test: Test,
    most: u32,
    wants_grid: bool,
) -> Result<Explained, AllocError>
    requires sizes { maps.old.sizes ≡ program.now.sizes }
    ensures { IfOk result (IsProgramExplained test program.now most wants_grid argument maps.old maps.new) }
{
    let mut explainer = Explainer {
        alloc,
        test,
        most,
        wants_grid,
        lines: Vec::new(alloc),
        loops: Vec::new(alloc),
    };
    let ret = run_main(program, maps, argument, &mut explainer)?;
    Ok(Explained {
        report: Report {
            ret,
            loops: explainer.lines,
        },
        loops: explainer.loops,
    })
}
