//! The strategy by which a loop call went.

/// Why a loop went by blocks.
#[derive(Clone, Copy, Debug)]
pub enum BlocksReason {
    /// The plan asks for blocks.
    Asked,
    /// It is judged by the lrpd test, by which no loop is watched.
    Lrpd,
    /// Several workers save more than their private copies cost.
    Work,
    /// It was run in order before, watched, and an iteration read what was written in the loop.
    ReadsWritten,
}

/// The strategy by which a loop call went, and why.
#[derive(Clone, Copy, Debug)]
pub enum Strategy {
    /// In order, by the calling thread, as its caller asked.
    InOrder,
    /// Its iterations do nothing but reduce elements by one operator: even shares of them were added up by this many
    /// workers, 2 to 16, or one ran it in order.
    Sums {
        workers: u32,
    },
    /// In order, by the calling thread, and watched: no iteration read what an earlier one wrote.
    Watched,
    /// By this many blocks, 1 to 64, on private copies of this many workers, 1 to 16. Where it didn't pass, it was run
    /// in order after that.
    Blocks {
        blocks: u32,
        workers: u32,
        why: BlocksReason,
    },
}
