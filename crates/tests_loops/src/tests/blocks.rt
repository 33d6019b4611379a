//! The blocks of a loop: their outcome when gathered, and workers that share them.

mod examples;
mod growths;
mod workers;
