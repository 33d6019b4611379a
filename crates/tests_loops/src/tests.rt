//! The tests themselves.

mod blocks;
mod replays;
mod runs;
