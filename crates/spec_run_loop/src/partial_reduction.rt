//! What iterations add up to.

use array_maps::Maps;

/// What a range of a loop's iterations adds up to: a word for each element, with which what was there is combined.
#[derive(Drop)]
pub struct PartialReduction {
    pub(crate) maps: Maps,
    /// The loop's answer, where one of the iterations returned 1: none of the range ran after it.
    pub(crate) broke: Option<u32>,
}
