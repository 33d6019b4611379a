//! Where a picture of a loop is.

/// Two iterations that meet at an element.
#[derive(Clone, Copy, Debug)]
pub struct Focus {
    /// The element's number over all maps.
    pub element: u32,
    /// The index of one of them.
    pub first: u32,
    /// The index of the other.
    pub second: u32,
}
