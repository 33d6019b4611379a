//! The statuses of calls, by the numbers that Linux has for like errors, below 0.

/// It was done.
pub(crate) const DONE: i32 = 0;

/// The handle holds no machine.
pub(crate) const EMPTY: i32 = -9;

/// There was no memory.
pub(crate) const MEMORY: i32 = -12;

/// The program breaks a rule of the verifier.
pub(crate) const REFUSED: i32 = -13;

/// The handle holds a machine already.
pub(crate) const HELD: i32 = -16;

/// The text, or the bytes of the instructions, are none of their form.
pub(crate) const MALFORMED: i32 = -22;

/// There is no such element, map, loop call or function, or the counts differ.
pub(crate) const OUT_OF_RANGE: i32 = -34;
