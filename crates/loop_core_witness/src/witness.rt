//! Pairs of iterations.

use crate::place::Place;

/// Two iterations that fail a test at an element.
#[derive(Clone, Copy, Debug, PartialEq)]
pub struct Witness {
    /// The one that writes the element, and where it does so first.
    pub writer: Place,
    /// The one that has an exposed read of it, and where.
    pub reader: Place,
}
