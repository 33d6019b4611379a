//! Replays: every short list of events against the table of events, and every schedule of two workers.

mod growths;
mod lists;
mod loops;
mod schedules;
mod stage;
mod table;
