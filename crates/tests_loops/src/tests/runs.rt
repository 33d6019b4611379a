//! Loops and programs that are run by several workers, and in order.

mod examples;
mod gates;
mod growths;
mod reports;
