//! Why a loop conflicts: of an element the two iterations that fail a test there, with the slots at which the one first
//! writes it and the other has its exposed read; the access by which it isn't reduction-only; and the iteration that
//! breaks the loop. Of the pairs that fail it is the one with the least reader, and of these the one with the least
//! writer.
//!
//! ```text
//! let broke = find_break(alloc, &program, &call, &start, conflicts.broke)?;
//! let pair = find_pair(alloc, &program, &call, &start, Test::Flow, 1, broke, &survey)?;
//! // pair.writer.index is the iteration that writes element 1, and pair.writer.slot the slot at which it does
//! ```
//!
//! And what iterations do, element by element: the rows and columns of a picture of the loop, at most 64 of each, around
//! two iterations that meet at an element.
//!
//! ```text
//! let focus = Focus { element: 1, first: 0, second: 1 };
//! let grid = grid_of_loop(alloc, &program, &call, &start, call.n(), Some(focus))?;
//! // grid.rows[0].cells[1].slots.write is the slot at which iteration 0 first writes the second column's element
//! ```
//!
//! `Explained` holds all that is found of a program's loops.
#![tactic(auto)]

mod breaking;
mod choosing;
mod counting;
mod ending;
mod explained;
mod finding;
mod focus;
mod following;
mod grid;
mod kind;
mod pairing;
mod place;
mod survey;
mod touching;
mod witness;

pub use breaking::find_break;
pub use choosing::Span;
pub use counting::counted_by;
pub use ending::find_end_of_reduction;
pub use explained::{Cause, Explained, LoopExplained};
pub use focus::Focus;
pub use following::grid_of_loop;
pub use grid::{Cell, Grid, Row};
pub use pairing::find_pair;
pub use place::Place;
pub use survey::{Stretch, Survey};
pub use touching::block_of;
pub use witness::Witness;
