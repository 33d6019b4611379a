//! Explanations of a program's loops.

use crate::grid::Grid;
use crate::place::Place;
use crate::witness::Witness;
use loop_core_model::LoopReport;
use loop_core_split::Strategy;
use spec_run_main::Report;

/// Why an element conflicts.
#[derive(Clone, Copy, Debug)]
pub struct Cause {
    /// The element's number over all maps.
    pub element: u32,
    /// The two iterations that fail the test there.
    pub witness: Witness,
    /// The first access of it, in order, that isn't a reduce by the operator of the first one: it is what keeps the
    /// element from being reduction-only.
    pub end: Option<Place>,
}

/// The explanation of a loop call.
#[derive(Drop)]
pub struct LoopExplained {
    /// Its line in the report.
    pub line: LoopReport,
    /// How many iterations it asks for: R1, modulo 2^32.
    pub iterations: u32,
    /// Its flags: R4; 0 of a call that isn't refused.
    pub flags: u64,
    /// The iteration that breaks it, each run on the words as they were at the call.
    pub broke: Option<Place>,
    /// Which way `run` takes it, where it isn't given workers and blocks; `None` of a call that is refused.
    pub strategy: Option<Strategy>,
    /// The least elements that conflict, rising, each with its cause.
    pub causes: Vec<Cause>,
    /// Its iterations around the first cause, of the first call that conflicts, if a grid is asked for.
    pub grid: Option<Grid>,
}

/// The explanation of a program's loops.
#[derive(Drop)]
pub struct Explained {
    /// What it did.
    pub report: Report,
    /// Its loop calls, in order.
    pub loops: Vec<LoopExplained>,
}
