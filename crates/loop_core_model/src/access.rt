//! What an access is, as far as the marks of its element go.

use array_maps::Op;

/// The kind of one access of an element.
#[derive(Clone, Copy)]
pub enum Access {
    /// It reads the element.
    Read,
    /// It writes a whole word there, without a look at it.
    Write,
    /// It reads and writes it.
    Both,
    /// It applies an operator without a look at it.
    Reduce(Op),
}
