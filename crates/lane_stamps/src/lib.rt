//! What the lanes of a batch did at its sites: how many of them may go together, by one stamp for each half of each
//! element, and what they leave, applied site by site.
//!
//! ```text
//! rank_sites(&mut sites);
//! let count = stamps.limit(&sites, lanes, 512);    // none of these lanes loads what an earlier one leaves
//! apply(&sites, lanes, count, &mut words);
//! ```
#![tactic(auto)]

mod applying;
mod blending;
mod covering;
mod forms;
mod kind;
mod links;
mod marking;
mod ranking;
mod reading;
mod site;
mod stamping;
mod turns;

pub use applying::apply;
pub use forms::{Form, element_of, form_of};
pub use kind::Kind;
pub use ranking::{alike, rank_sites};
pub use reading::{has, place_of, place_on};
pub use site::{Lanes, Site};
pub use turns::{MOST_SITES, Stamps};
