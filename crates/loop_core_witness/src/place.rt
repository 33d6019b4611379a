//! Places in a loop.

/// A slot in an iteration of a loop.
#[derive(Clone, Copy, Debug, PartialEq)]
pub struct Place {
    /// The iteration's index.
    pub index: u32,
    /// The slot.
    pub slot: u32,
}
