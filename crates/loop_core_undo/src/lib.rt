//! Undo logs: which elements of maps were written since a log was empty, and the words from before, so that they can be
//! put back. Maps that are watched note in one what is written, and tell whether an element was read after it was.
//!
//! ```text
//! let mut log = UndoLog::try_new(alloc, 8)?;          // for maps of 8 elements, all zero
//! let mut watched = Watched::new(&mut maps, &mut log);
//! watched.store(3, 7);
//! watched.load(3);
//! watched.has_dependence();                                  // true: element 3 was read after it was written
//! log.restore(&mut maps);                             // all are zero again
//! ```
#![tactic(auto)]

mod pages;
mod runs;
mod undo_log;
mod watched;

ghost use Rattle.loop_core_undo.specs.{Undo.{WordsBeforeAreKept}, Watching.{AccessesAreWatched}};

pub use undo_log::UndoLog;
pub use watched::Watched;

/// The law of undo logs: the words from before are the same after changes at elements that are noted as written.
pub fn law_of_words_before()
    ensures { WordsBeforeAreKept }
{}

/// The law of watched maps: what accesses do to them, each by its effect.
pub fn law_of_watching()
    ensures { AccessesAreWatched }
{}
