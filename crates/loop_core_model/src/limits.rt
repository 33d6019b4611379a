//! How many workers and blocks a speculative loop may have.

/// The most workers.
pub const MAX_WORKERS: u32 = 16;

/// The most blocks.
pub const MAX_BLOCKS: u32 = 64;
