//! What is wrong with a list of events.

use thiserror::Error;

/// Why a list of events is no schedule. Where several faults are there, the first event counts, and there the least
/// number.
#[derive(Clone, Copy, Debug, PartialEq, Error)]
pub enum ReplayFault {
    /// The event at this index names a worker above 15.
    #[error("E1: the event at index {event} is of a worker above 15")]
    NoSuchWorker { event: usize },
    /// The event at this index isn't enabled.
    #[error("E2: the event at index {event} isn't enabled")]
    NotEnabled { event: usize },
    /// The list hasn't ended: it has this many events.
    #[error("E3: the list hasn't ended after its {events} events")]
    NotEnded { events: usize },
}
