//! A loop call that is run.

ghost use Rattle.std.specs.Prelude.{◌≡◌};
ghost use Rattle.bpf_verify_sound.specs.Soundness.{OverApproximatesCall};
ghost use Rattle.loop_core_sequential.specs.LoopRuns.{IsLoopRun};

use bpf_step::{Callback, LoopCall};
use bpf_verify::Verified;

/// A loop call that main of a program made, and what runs its iterations one by one.
#[derive(Drop)]
pub(crate) struct LoopRun<'a> {
    pub(crate) program: &'a Verified,
    pub(crate) call: &'a LoopCall,
    pub(crate) callback: Callback<'a>,
}

impl<'a> LoopRun<'a> {
    /// The run of a loop call that main of this program made.
    #[inline]
    pub(crate) fn new(program: &'a Verified, call: &'a LoopCall) -> LoopRun<'a>
        requires { OverApproximatesCall program.now call.now }
        ensures program { result.program.now ≡ program.now }
        ensures call { result.call.now ≡ call.now }
        ensures ready { IsLoopRun result }
    {
        LoopRun {
            program,
            call,
            callback: Callback::new(program, call),
        }
    }
}
