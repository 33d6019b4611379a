//! Where the value of a register comes from.

/// Where the value of a register before a slot comes from.
#[derive(Clone, Copy, Debug, PartialEq)]
pub enum Source {
    /// No instruction wrote it since main started.
    Start,
    /// The instruction at this slot wrote it.
    Written(u32),
    /// The call at this slot entered the callback with it.
    Entered(u32),
    /// Edges from several slots meet at this one.
    Meeting(u32),
}
