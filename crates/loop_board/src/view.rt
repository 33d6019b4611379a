//! How large a board is, and what a seat knows at its table.

use std::collections::LinkedList;

/// How large a board is.
#[derive(Clone, Copy)]
pub struct Extent {
    /// 1 to 64.
    pub blocks: u32,
    /// 1 to 16.
    pub workers: u32,
}

/// What a seat knows and did. Contracts alone see it: no value of it is made.
pub struct SeatView {
    /// How large its board is.
    pub extent: Extent,
    /// Its parts of the right to know the whole: one for each worker whose seat it is or took in.
    pub parts: u64,
    /// How often it found none, at most once for each part.
    pub nones: u64,
    /// The blocks that it drew, in order.
    pub draws: LinkedList<u32>,
    /// The indices that it posted, in order.
    pub posts: LinkedList<u32>,
    /// The answers of its looks, in order.
    pub looks: LinkedList<u32>,
}
