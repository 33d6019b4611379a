//! The facts of a program's loops: their calls, the pairs of iterations that conflict, and what iterations do at
//! elements.

use loop_core_model::LoopReport;
use loop_core_split::Strategy;
use loop_core_trace::Slots;
use loop_core_witness::{Place, Span, Witness};

/// A call of a loop.
#[derive(Clone, Copy)]
pub struct LoopFact {
    /// Its number among the calls of main, from 0.
    pub number: usize,
    /// Its line in the report: its slot, what it answers, and how it comes out.
    pub line: LoopReport,
    /// How many iterations it asks for: R1 modulo 2^32.
    pub iterations: u32,
    /// Its flags: R4.
    pub flags: u64,
    /// Which way `run` takes it; `None` of a call that is refused.
    pub strategy: Option<Strategy>,
    /// The iteration that breaks it, and the slot of its exit.
    pub broke: Option<Place>,
}

/// Two iterations that fail the test at an element.
#[derive(Clone, Copy)]
pub struct PairFact {
    /// The number of the loop's call.
    pub number: usize,
    /// The map.
    pub map: usize,
    /// The element in that map.
    pub element: u32,
    /// The iteration that writes it, and the one that reads it, with their slots.
    pub pair: Witness,
    /// The first access that ends the element's reduction.
    pub end: Option<Place>,
}

/// The two spans of iterations that a picture of a loop shows.
#[derive(Clone, Copy)]
pub struct GridFact {
    /// The number of the loop's call.
    pub number: usize,
    /// The lower span.
    pub lower: Span,
    /// The upper span.
    pub upper: Span,
}

/// What an iteration does at an element.
#[derive(Clone, Copy)]
pub struct CellFact {
    /// The number of the loop's call.
    pub number: usize,
    /// The iteration.
    pub iteration: u32,
    /// The map.
    pub map: usize,
    /// The element in that map.
    pub element: u32,
    /// The slots of its first write, its exposed read and its first reduce there.
    pub slots: Slots,
}
