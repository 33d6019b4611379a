//! The examples at the heads of crates.

mod maps;
mod texts;
