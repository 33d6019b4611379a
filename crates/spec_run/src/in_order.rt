//! Running loop calls in order.

use array_maps::Maps;
use bpf_step::LoopCall;
use bpf_step_model::RefusedCall;
use bpf_verify::Verified;
use loop_core_model::{LoopReport, Verdict};
use loop_core_sequential::in_order;
use spec_run_main::LoopRunner;
use std::alloc::{AllocError, Global};

/// Runs each loop call in order, and keeps the lines of the report.
#[derive(Drop)]
pub(crate) struct InOrder {
    pub(crate) lines: Vec<LoopReport>,
}

impl InOrder {
    ghost use Rattle.std.specs.Prelude.{◌≡◌, []};

    /// One that ran none yet.
    pub(crate) fn new(alloc: Global) -> InOrder
        ensures { result.lines.items ≡ [] }
    {
        InOrder {
            lines: Vec::new(alloc),
        }
    }
}

impl LoopRunner for InOrder {
    ghost use Rattle.loop_core_model.specs.Report.{loop_report_in_order};
    ghost use Rattle.spec_run_main.specs.Lines.{AreLines};

    type Stop = AllocError;

    ghost records = { λ _ _ calls now. AreLines loop_report_in_order calls now.lines.items };

    ghost room = { λ _. 4096 };

    fn run_call(
        &mut self,
        program: &Verified,
        call: &LoopCall,
        maps: &mut Maps,
    ) -> Result<u32, AllocError> {
        let answer = in_order(program, call, maps);
        self.lines.push(LoopReport {
            slot: call.slot(),
            answer: i64::from(answer),
            verdict: Verdict::InOrder,
        })?;
        Ok(answer)
    }

    fn note_refusal(&mut self, slot: u32, call: RefusedCall) -> Result<(), AllocError> {
        self.lines.push(LoopReport {
            slot,
            answer: call.answer,
            verdict: Verdict::Refused,
        })?;
        Ok(())
    }
}
