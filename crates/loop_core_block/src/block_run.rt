//! Running a block.

ghost use Rattle.std.specs.Prelude.{◌≡◌, ◌<◌, length, None, IfOk};
ghost use Rattle.bpf_verify_sound.specs.Soundness.{OverApproximatesCall};
ghost use Rattle.loop_core_model.specs.{Split.{split_fault}, Intervals.{blocks_of, start_of, end_of}};
ghost use Rattle.loop_core_block.specs.{Shown.{shown}, Ran.{RecordsRun}, LoopBlocks.{IsBlockOf}};
ghost use Rattle.loop_core_block.specs.Workspaces.{IsWorkspaceFor};

use crate::block::Block;
use crate::runner::Runner;
use crate::speculative_loop::SpeculativeLoop;
use crate::workspace::BlockWorkspace;
use array_maps::Maps;
use bpf_step::LoopCall;
use bpf_verify::Verified;
use loop_core_model::Test;
use loop_core_split::{Gate, Split};
use std::alloc::{AllocError, Global};

impl<'l, 'a> SpeculativeLoop<'l, 'a> {
    /// Runs the block of a number, which the split has: its iterations from its start on, up to the first that
    /// returns 1, or all, each on the start maps. The gate's `turn` is called for each of them before it.
    ///
    /// It fails if there is no memory.
    pub fn run_block<G: Gate>(&self, number: u32, gate: &G) -> Result<Block<'a>, AllocError>
        requires { number < blocks_of self.now.bounds }
        ensures { IfOk result (λ b. IsBlockOf self.now number (shown b)) }
    {
        let workspace = BlockWorkspace::try_new(self.alloc, self.elements(), self.test)?;
        self.run_block_in(workspace, number, gate)
    }

    /// Runs the block of a number, as `run_block` does, in a workspace that is for the loop.
    pub fn run_block_in<G: Gate>(
        &self,
        workspace: BlockWorkspace,
        number: u32,
        gate: &G,
    ) -> Result<Block<'a>, AllocError>
        requires within { number < blocks_of self.now.bounds }
        requires fits { IsWorkspaceFor (length self.now.start.words) self.now.test workspace }
        ensures { IfOk result (λ b. IsBlockOf self.now number (shown b)) }
    {
        let first = self.split.start(number);
        let past = self.split.end(number);
        let mut runner = Runner::in_workspace(self, workspace);
        let broke = runner.run(self.alloc, first, past, gate)?;
        let Runner { copy, planes, .. } = runner;
        Ok(Block {
            number,
            first,
            past,
            broke,
            planes,
            copy,
        })
    }
}

/// Runs a block of a loop call that main of this program made: its iterations from its start on, up to the first
/// that returns 1, or all, each on the start maps. The gate's `turn` is called for each of them before it. The maps are
/// of the program's sizes, and the split, which has this block, is of the call's iterations.
pub fn run_block<'a, G: Gate>(
    alloc: Global,
    program: &Verified,
    call: &LoopCall,
    start: &'a Maps,
    split: &Split,
    number: u32,
    gate: &G,
    test: Test,
) -> Result<Block<'a>, AllocError>
    requires known { OverApproximatesCall program.now call.now }
    requires sizes { start.now.sizes ≡ program.now.sizes }
    requires split { split_fault split.now call.now.n ≡ None }
    requires within { number < blocks_of split.now }
    ensures number { IfOk result (λ b. (shown b).number ≡ number) }
    ensures first { IfOk result (λ b. (shown b).first ≡ start_of split.now number) }
    ensures past { IfOk result (λ b. (shown b).past ≡ end_of split.now number) }
    ensures ran { IfOk result (λ b. RecordsRun test program.now call.now start.now.words (shown b)) }
{
    let speculative = SpeculativeLoop {
        alloc,
        program,
        call,
        start,
        split,
        test,
    };
    speculative.run_block(number, gate)
}
