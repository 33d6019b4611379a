//! Where the edges into a slot come from.

/// Where the edges into a slot come from.
#[derive(Clone, Copy, Debug, PartialEq)]
pub enum Inflow {
    /// No edge leads there.
    Nowhere,
    /// All edges that lead there come from this slot.
    One(u32),
    /// They come from several slots: it is a join.
    Several,
}
