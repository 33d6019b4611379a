//! What one worker does, and what the workers share.

/// What a worker does.
#[derive(Clone, Copy)]
pub enum Worker {
    /// It may claim a block.
    Idle,
    /// It holds this block, and hasn't begun it.
    Holding { block: u32 },
    /// It runs this block, and has this index before it.
    Running { block: u32, index: u32 },
    /// It has this break to post.
    Posting { index: u32 },
    /// It found no block left.
    Drained,
    /// It does nothing any more.
    Stopped,
}

/// What the workers share.
#[derive(Clone, Copy)]
pub struct Shared {
    /// The next block to be claimed, 0 to the number of blocks.
    pub next: u32,
    /// The least break that was posted.
    pub least: Option<u32>,
}
