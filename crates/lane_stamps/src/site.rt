//! Sites: where a list of row operations accesses the maps.

use crate::kind::Kind;
use lane_rows::{Mask, Places, Row};

/// What the lanes of a batch do at one site, by the numbers of the rows that say it.
#[derive(Clone, Copy)]
pub struct Site {
    /// What is done.
    pub kind: Kind,
    /// Sites that leave something have ranks from 1 on, which rise: two of one rank reduce by one operator.
    pub rank: u32,
    /// Whether its accesses may meet those of other watched sites: else they meet none where order matters.
    pub watched: bool,
    /// The mask of the lanes that get there.
    pub mask: usize,
    /// Their places: elements, or halves where the kind is of halves.
    pub places: usize,
    /// The row of words that are stored, that replace halves, or that an operator is applied with; of no use where the
    /// kind leaves nothing.
    pub value: usize,
}

/// The rows that a batch has for its lanes.
#[derive(Clone, Copy)]
pub struct Lanes<'a> {
    /// Words of each lane.
    pub rows: &'a [Row],
    /// Lanes that get to a site.
    pub masks: &'a [Mask],
    /// Where they access the maps.
    pub places: &'a [Places],
}
