//! The workers of a loop call: each in a thread of its own, over one board. What is run by them is gathered elsewhere.
#![tactic(auto)]

mod worker;
mod working;
mod workspace;

ghost use Rattle.spec_run_workers.specs.CompleteLaw.{WorkersComplete};

pub use worker::{run_alone, run_workers};
pub use working::work;
pub use workspace::Workspace;

/// The law of workers: where the histories of all seats are legal, as `Board::gather` ensures,
/// the blocks of the workers are complete: none is missing that starts at or before their least break, none
/// appears twice, and each interval is the split's. Nothing runs here: the contract is the law.
pub fn law_of_workers()
    ensures { WorkersComplete }
{}
