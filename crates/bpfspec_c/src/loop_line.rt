//! Loop calls, as C sees them.

ghost use Rattle.std.specs.Prelude.{◌≡◌};
ghost use Rattle.bpfspec_c.specs.Calls.{loop_line};

use loop_core_model::LoopReport;

/// What a loop call of the last run did.
#[repr(C)]
#[derive(Clone, Copy)]
pub struct LoopLine {
    /// The slot of the call.
    pub slot: u64,
    /// What it answered: a number of iterations, -7 or -22.
    pub answer: i64,
}

/// The line of a loop call, where there is one.
pub(crate) fn loop_line(report: Option<LoopReport>) -> Option<LoopLine>
    ensures { result ≡ loop_line report }
{
    match report {
        Some(report) => Some(LoopLine {
            slot: u64::from(report.slot),
            answer: report.answer,
        }),
        None => None,
    }
}
