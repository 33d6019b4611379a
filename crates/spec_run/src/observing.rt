//! Observers of a run.

use bpf_step::LoopCall;
use bpf_verify::Verified;
use spec_run_loop::LoopAnswer;

/// Is notified of a program and its loop calls while they run. Nothing that a run gives depends on it.
pub trait Observer {
    /// The program begins.
    fn begin(&mut self);

    /// A valid loop call begins.
    fn begin_loop(&mut self);

    /// That loop call of a program is done: it has this number among its loop calls, refused ones included.
    fn end_loop(
        &mut self,
        program: &Verified,
        number: usize,
        call: &LoopCall,
        answered: &LoopAnswer,
    );

    /// The program is done.
    fn end(&mut self);
}

/// No observer.
#[derive(Drop)]
pub struct Unobserved;

impl Observer for Unobserved {
    fn begin(&mut self) {}

    fn begin_loop(&mut self) {}

    fn end_loop(
        &mut self,
        _program: &Verified,
        _number: usize,
        _call: &LoopCall,
        _answered: &LoopAnswer,
    ) {}

    fn end(&mut self) {}
}
