//! A loop call, and the plan by which it is run.

use bpf_step::LoopCall;
use bpf_verify::Verified;
use loop_core_split::Plan;
use std::alloc::Global;
use std::marker::Model;

/// A loop call that main of a program made, and the plan by which it is run: borrowed by all that work on it.
#[derive(Drop)]
pub struct LoopJob<'l> {
    /// Where what is run of it is kept.
    pub alloc: Global,
    /// The program whose main made the call.
    pub program: &'l Verified,
    /// The call: a callback, and how often it is called.
    pub call: &'l LoopCall,
    /// How it is run: by a plan that is within its limits.
    pub plan: &'l Plan,
}

impl<'l> Model for LoopJob<'l> {
    ghost use Rattle.spec_run_loop.specs.Jobs.{JobOf, IsJob};

    ghost Value = { JobOf };

    ghost view = { λ j. record { program = j.program.now; call = j.call.now; plan = j.plan.now } };

    ghost invariant = { λ j. IsJob (record { program = j.program.now; call = j.call.now; plan = j.plan.now }) };
}
