//! What can be wrong with a split and with the blocks that were run of it.

/// Why bounds are no split of a number of iterations.
#[derive(Clone, Copy, Debug)]
pub enum SplitFault {
    /// S1: a bound is below the one before.
    Falling,
    /// S2: there are fewer than 2 or more than 65 bounds.
    Number,
    /// S3: the first isn't 0, or the last isn't the number of iterations.
    Ends,
}

/// Why blocks can't be gathered.
#[derive(Clone, Copy, Debug)]
pub enum GatherFault {
    /// G1: a block of the split is missing that starts at or before the least break of those that are
    /// there.
    Missing,
    /// G2: a number appears twice.
    Twice,
    /// G3: an interval isn't the split's.
    Foreign,
}
