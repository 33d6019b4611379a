//! What becomes of a loop.

ghost use Rattle.std.specs.Prelude.{◌≡◌, IfOk};
ghost use Rattle.bpf_verify_sound.specs.Soundness.{OverApproximatesCall};
ghost use Rattle.loop_core_gather.specs.{Decisions.{IsDecision}, Gathered.{IsOutcome}};

use crate::storing::{LeftPage, store_pages};
use array_maps::Maps;
use bpf_step::LoopCall;
use bpf_verify::Verified;
use loop_core_model::{Test, Verdict};
use loop_core_sequential::in_order;
use std::alloc::{AllocError, Global};

/// What becomes of a loop by its gathered blocks.
#[derive(Drop)]
pub enum Decision {
    /// It passes: its call answers this, and it leaves these pages, and the others as they were.
    Commit { answer: u32, pages: Vec<LeftPage> },
    /// It doesn't: what was run is discarded, and it runs in order.
    Discard { verdict: Verdict },
}

/// The verdict on a loop, and what its call answers: how many iterations ran in order, or would have.
#[derive(Clone, Copy)]
pub struct LoopResult {
    pub verdict: Verdict,
    pub answer: u32,
}

/// The outcome of a loop.
#[derive(Drop)]
pub struct LoopOutcome {
    /// Whether it passed the test.
    pub verdict: Verdict,
    /// What the call answers: how many iterations ran in order, or would have.
    pub answer: u32,
    /// The maps after it.
    pub maps: Maps,
}

impl Decision {
    /// Applies to the maps the decision by this test on a loop call on them that main of this program made: they are
    /// then as the loop leaves them. The maps are of the program's sizes.
    pub fn apply(
        self,
        program: &Verified,
        call: &LoopCall,
        maps: &mut Maps,
        test: Test,
    ) -> LoopResult
        requires known { OverApproximatesCall program.now call.now }
        requires sizes { maps.old.sizes ≡ program.now.sizes }
        requires decided { IsDecision test program.now call.now maps.old.words self }
        ensures { IsOutcome test program.now call.now maps.old result.verdict result.answer maps.new }
    {
        match self {
            Decision::Commit { answer, pages } => {
                store_pages(maps, &pages);
                LoopResult {
                    verdict: Verdict::Parallel,
                    answer,
                }
            }
            Decision::Discard { verdict } => LoopResult {
                verdict,
                answer: in_order(program, call, maps),
            },
        }
    }

    /// Applies the decision, as `apply` does, to a copy of the maps, which stay as they are.
    pub fn apply_to_copy(
        self,
        alloc: Global,
        program: &Verified,
        call: &LoopCall,
        start: &Maps,
        test: Test,
    ) -> Result<LoopOutcome, AllocError>
        requires known { OverApproximatesCall program.now call.now }
        requires sizes { start.now.sizes ≡ program.now.sizes }
        requires decided { IsDecision test program.now call.now start.now.words self }
        ensures { IfOk result (λ o. IsOutcome test program.now call.now start.now o.verdict o.answer o.maps) }
    {
        let mut maps = start.try_copy(alloc)?;
        let LoopResult { verdict, answer } = self.apply(program, call, &mut maps, test);
        Ok(LoopOutcome {
            verdict,
            answer,
            maps,
        })
    }
}
