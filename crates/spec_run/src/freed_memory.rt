//! Memory that the blocks of one loop give back, for those of the next.

use std::alloc::Global;

/// The words of 16 MiB.
const WORDS: usize = 2_097_152;

/// Lets the C library keep up to 32 MiB that are given back, for what is asked for next. Else it hands them to the
/// system each time, and the blocks of each loop call begin on pages that the system has to clear.
///
/// GNU's keeps twice the largest piece that it took from the system by itself and then gave back. So one is taken here
/// and given back. Nothing is written there, and where it is refused, nothing is lost. No compiler sees into the calls
/// for it, so none can leave them out.
pub(crate) fn keep_freed_memory(alloc: Global) {
    drop(Vec::<u64>::with_capacity(alloc, WORDS));
}
