//! What is known of a row list before it runs: of its values in all lanes, of its accesses, and of its iterations.
//!
//! `facts` gives each value a range of words and a line modulo a power of two (`specs/Facts.antt`). `meetings` lists
//! the pairs of sites where lanes of a batch may access a common half and order matters (`specs/Meetings.antt`).
//! `list_sites` gives each access its kind and rank, and whether it is watched (`specs/Lists.antt`).
#![tactic(auto)]

mod apart;
mod arithmetic;
mod elements;
mod fact;
mod kinds;
mod lines;
mod listing;
mod marking;
mod meeting;
mod narrowing;
mod nonzero;
mod ordering;
mod site;
mod slots;
mod transfer;

pub use elements::are_lines_clear;
pub use fact::Fact;
pub use lines::{Line, common_bits, low};
pub use listing::{ListSites, list_sites};
pub use meeting::{Meeting, leaves, may_load_own, meetings, reads, reduce_alike};
pub use narrowing::is_narrower;
pub use ordering::is_ordered;
pub use site::{Site, sites};
pub use slots::{NO_ROW, Skip, Slot};
pub use transfer::facts;
