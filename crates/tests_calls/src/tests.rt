//! The tests themselves.

mod asserts;
mod board;
mod examples;
mod growths;
mod maps;
mod streams;
mod units;
