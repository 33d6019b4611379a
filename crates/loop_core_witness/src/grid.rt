//! What iterations do at elements, in rows and columns.

use crate::choosing::Span;
use loop_core_trace::Slots;

/// What an iteration does at an element.
#[derive(Clone, Copy, Debug, PartialEq)]
pub struct Cell {
    /// The element's number over all maps.
    pub element: u32,
    /// The slots of its first write and its exposed read there.
    pub slots: Slots,
}

/// An iteration.
#[derive(Drop)]
pub struct Row {
    /// Its index.
    pub index: u32,
    /// What it does at each element, in the order of the columns.
    pub cells: Vec<Cell>,
}

/// Iterations of a loop call and elements that they access.
#[derive(Drop)]
pub struct Grid {
    /// The numbers of the elements over all maps, rising: the columns, at most 64.
    pub elements: Vec<u32>,
    /// The iterations, rising, at most 64.
    pub rows: Vec<Row>,
    /// The first of them, up to those that aren't shown.
    pub lower: Span,
    /// The others; where there are none, from the end of the first ones.
    pub upper: Span,
}
