//! A loop that adds up.

ghost use Rattle.std.specs.Prelude.{◌≡◌, IfSome, IfNone};
ghost use Rattle.bpf_verify_sound.specs.Soundness.{OverApproximatesCall};
ghost use Rattle.spec_run_loop.specs.SumLoops.{AddsUp, AddsUpByNone, AlwaysPasses};

use crate::function_end::function_end;
use crate::law_of_sum_operations;
use crate::reducing::sum_operator;
use array_maps::Op;
use bpf_step::{LoopCall, law_of_plain_iterations};
use bpf_verify::Verified;
use bpf_verify_sound::{law_of_accepted_programs, law_of_accepted_runs};
use std::marker::Model;

/// A loop call that main of a program made, whose iterations do nothing to the maps but reduce elements by one
/// operator.
#[derive(Drop)]
pub struct ReductionLoop<'l> {
    /// The program whose main made the call.
    pub program: &'l Verified,
    /// The call: a callback, and how often it is called.
    pub call: &'l LoopCall,
    pub(crate) op: Op,
}

impl<'l> Model for ReductionLoop<'l> {
    ghost use Rattle.spec_run_loop.specs.SumLoops.{SumLoopOf, IsSumLoop};

    ghost Value = { SumLoopOf };

    ghost view = { λ l. record { program = l.program.now; call = l.call.now; op = l.op } };

    ghost invariant = { λ l. IsSumLoop (record { program = l.program.now; call = l.call.now; op = l.op }) };
}

impl<'l> ReductionLoop<'l> {
    /// A loop call that main of this program made, where the operations of its callback add up. `None` where they
    /// don't: then its iterations may still do nothing but reduce elements.
    pub fn of(program: &'l Verified, call: &'l LoopCall) -> Option<ReductionLoop<'l>>
        requires known { OverApproximatesCall program.now call.now }
        ensures program { IfSome result (λ l. l.program ≡ program.now) }
        ensures call { IfSome result (λ l. l.call ≡ call.now) }
        ensures adds { IfSome result (λ _. AddsUp program.now call.now) }
        ensures none { IfNone result (AddsUpByNone program.now call.now) }
    {
        law_of_sum_operations();
        law_of_plain_iterations();
        let (ops, _fast) = program.operations();
        // For the proof: each byte of the frame that iterations see has a value.
        let _frame = call.frame();
        let start = call.callback();
        let past = function_end(program, start, ops.len() as u32);
        let op = sum_operator(ops, start, past)?;
        Some(ReductionLoop { program, call, op })
    }

    /// The law of loops that add up: by either test, no element conflicts. Nothing runs here.
    pub fn law_of_passing(&self)
        ensures { AlwaysPasses self.now }
    {
        law_of_accepted_runs();
        law_of_accepted_programs();
        // For the proof: the program is accepted.
        let _unit = self.program.unit();
    }
}
