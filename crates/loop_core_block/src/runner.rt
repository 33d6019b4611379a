//! Running iterations one after another.

ghost use Rattle.std.specs.Prelude.{◌≡◌, ◌+◌, ◌<◌, ◌≤◌, ℕ, length, List, [], IfOk};
ghost use Rattle.bpf_step_model.specs.Iteration.{Iterated};
ghost use Rattle.bpf_insn_types.specs.Program.{callback_starts};
ghost use Rattle.bpf_verify_model.specs.Count.{count_of, function_start};
ghost use Rattle.bpf_verify_sound.specs.Soundness.{most_from};
ghost use Rattle.shadow_marks.specs.Standing.{test_of};
ghost use Rattle.loop_core_block.specs.Workspaces.{IsWorkspaceFor};
ghost use Rattle.loop_core_block.specs.Runs.{start_words, IsReady, RunnerHasRun, RanOneMore, RanUpTo};

use crate::speculative_loop::SpeculativeLoop;
use crate::workspace::BlockWorkspace;
use bpf_step::Callback;
use bpf_verify::Verified;
use loop_core_split::Gate;
use private_copy::{MAX_ACCESSES, Private, law_of_accesses};
use shadow_marks::Planes;
use std::alloc::{AllocError, Global};

/// Runs iterations of a loop call by rising index, each on the start words, and keeps what they did.
#[derive(Drop)]
pub(crate) struct Runner<'c, 'a> {
    callback: Callback<'c>,
    /// The most instructions of an iteration, so the most accesses: at most 4,096.
    most: u32,
    pub(crate) copy: Private<'a>,
    pub(crate) planes: Planes,
}

/// The most instructions of the callback that starts at a slot: its count; 4,096 where none does.
pub fn most_instructions(program: &Verified, slot: u32) -> u32
    ensures count { (function : ℕ) → 0 < function → function ≤ length (callback_starts program.now.insns)
        → function_start program.now.insns function ≡ slot → result ≡ count_of program.now.insns function }
    ensures enough { most_from program.now slot ≤ result }
    ensures few { result ≤ 4096 }
{
    // The program is accepted.
    let _unit = program.unit();
    for function in 1..=program.callbacks() {
        if program.start(function) == slot {
            return program.count(function);
        }
    }
    MAX_ACCESSES
}

impl<'c, 'a> Runner<'c, 'a> {
    /// A runner of a loop's iterations, which has run none, in a workspace that is for the loop.
    pub(crate) fn in_workspace(
        of: &SpeculativeLoop<'c, 'a>,
        workspace: BlockWorkspace,
    ) -> Runner<'c, 'a>
        requires { IsWorkspaceFor (length of.now.start.words) of.now.test workspace }
        ensures ready { IsReady result }
        ensures program { result.callback.program ≡ of.now.program }
        ensures call { result.callback.call ≡ of.now.call }
        ensures start { start_words result ≡ of.now.start.words }
        ensures test { test_of result.planes.tested ≡ of.now.test }
        ensures none { (first : ℕ) → RunnerHasRun first first [] result }
    {
        // The maps have as many words as their sizes say.
        let _sizes = of.start.sizes();
        let BlockWorkspace { copy, planes } = workspace;
        Runner {
            callback: Callback::new(of.program, of.call),
            most: most_instructions(of.program, of.call.callback()),
            copy: Private::in_workspace(copy, of.start),
            planes,
        }
    }

    /// Runs the iterations from a first index up to, and not with, another, or up to the first that breaks.
    /// Returns the index at which it broke. The gate's `turn` is called before each iteration.
    pub(crate) fn run<G: Gate>(
        &mut self,
        alloc: Global,
        first: u32,
        past: u32,
        gate: &G,
    ) -> Result<Option<u32>, AllocError>
        requires ready { IsReady self.old }
        requires rising { first ≤ past }
        requires within { past ≤ self.old.callback.call.n }
        requires none { RunnerHasRun first first [] self.old }
        ensures ran { IfOk result (RanUpTo first past self.old self.new) }
    {
        for index in first..past {
            gate.turn(index);
            if self.iterate(alloc, index)? {
                return Ok(Some(index));
            }
        }
        Ok(None)
    }

    /// Runs the iteration of an index, up to which iterations were run, and returns whether it broke.
    fn iterate(&mut self, alloc: Global, index: u32) -> Result<bool, AllocError>
        requires ready { IsReady self.old }
        requires below { index < self.old.callback.call.n }
        requires so_far { (first : ℕ) × (ran : List Iterated) × RunnerHasRun first index ran self.old }
        ensures ran { IfOk result (RanOneMore index self.old self.new) }
    {
        law_of_accesses();
        self.copy.begin(alloc, self.most)?;
        let done = self.callback.run(index, &mut self.copy);
        self.copy.end(&mut self.planes, index);
        Ok(done.ret == 1)
    }
}
