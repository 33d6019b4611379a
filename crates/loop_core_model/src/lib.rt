//! Speculative loops, as definitions and laws. What counts, what conflicts, what is committed, and the law that a loop
//! which passes is the loop in order. What has to be kept of iterations at an element, so that its conflict is known by
//! either test: flags while an iteration runs, and marks of those that ended. A loop in blocks, and what is kept of
//! each. What workers may do and when, one atomic step each, and the outcome of a loop, which depends on none of it.
//! Batches of a loop in order: iterations done at once, one a lane, and when they are the loop's own. How many workers
//! and blocks there may be. Nothing runs here: each function's contract is a law.
#![tactic(auto)]

pub mod access;
pub mod event;
pub mod faults;
mod limits;
pub mod loop_test;
pub mod pages;
pub mod replay_fault;
pub mod verdict;

ghost use Rattle.loop_core_model.specs.{Block.{ScansFollow}, BlockRows.{BlockRows}, Flags.{FlagsFollowKinds}};
ghost use Rattle.loop_core_model.specs.{Conflict.{FailsByPair, FlowPassesMore}, Gather.{BlocksGather}, Law.{LoopLaw}};
ghost use Rattle.loop_core_model.specs.{GatherRows.{GatherRows}, Kept.{OperatorsAssociate, CommitsOfKept}};
ghost use Rattle.loop_core_model.specs.{KeptLaw.{KeptBlocksTell}, LoopByEffects.{LoopByEachLane}, Split.{EvenIsSplit}};
ghost use Rattle.loop_core_model.specs.{MarkLaw.{MarksTell, FirstIsNumber, MarksMerge}, OutcomeLaw.{OutcomeByTest}};
ghost use Rattle.loop_core_model.specs.{PlaneRows.{PlaneRows}, Planes.{PlaneHasElements, PlaneJudges}};
ghost use Rattle.loop_core_model.specs.{ReplayRows.{ReplayRows}, Scan.{CountedAreScanned}, SplitLaw.{SplitsPartition}};
ghost use Rattle.loop_core_model.specs.{ScheduleLaw.{EndedSchedulesComplete}, SplitRows.{SplitRows}};
ghost use Rattle.loop_core_model.specs.{VerdictBounds.{VerdictsAgree}, VerdictRows.{VerdictRows}};

pub use access::Access;
pub use event::{Event, EventKind};
pub use faults::{GatherFault, SplitFault};
pub use limits::{MAX_BLOCKS, MAX_WORKERS};
pub use loop_test::Test;
pub use pages::PAGE;
pub use replay_fault::ReplayFault;
pub use verdict::{LoopReport, Verdict};

/// The law of speculation: by either test, a loop whose counted iterations end on the start words, and
/// of which no element conflicts, is the loop in order.
pub fn law_of_speculation()
    ensures { LoopLaw }
{}

/// The law of tests: a test fails exactly where there are two iterations, one that writes the element
/// and one with an exposed read of it, whose indices differ (LRPD), or of which the writer has the
/// lesser (flow). What passes by the first passes by the second.
pub fn law_of_tests()
    ensures pairs { FailsByPair }
    ensures flow { FlowPassesMore }
{}

/// The law of the scan: the counted iterations are those of all indices in turn, up to the first that
/// breaks.
pub fn law_of_scan()
    ensures { CountedAreScanned }
{}

/// The law of bounds for what is reported: with a greater bound the counted iterations, the verdicts
/// and the reports that are there stay the same.
pub fn law_of_verdict_bounds()
    ensures { VerdictsAgree }
{}

/// The definitions give the verdicts of worked loops by both tests: which pass, and of which others how
/// many elements conflict and which is the least.
pub fn worked_verdicts()
    ensures { VerdictRows }
{}

/// The law of flags: an iteration's flags at an element begin empty, and each action changes them by
/// its kind alone.
pub fn law_of_flags()
    ensures { FlagsFollowKinds }
{}

/// The law of marks: they tell exactly which elements are reduction-only, and which conflict by either
/// test; those of one iteration follow from its flags, those of two disjoint sets are merged, and the
/// order of merging doesn't matter.
pub fn law_of_marks()
    ensures tell { MarksTell }
    ensures number { FirstIsNumber }
    ensures merge { MarksMerge }
{}

/// The law of planes: a plane of bits, a word for each 64 elements, whose bits say what a test says of
/// each element and are zero past the end, has just the elements that pass. They are as many as bits
/// are set in its words, and the least of them is 64 times the index of the first word that isn't 0,
/// and its trailing zeros.
pub fn law_of_planes()
    ensures elements { PlaneHasElements }
    ensures verdict { PlaneJudges }
{}

/// The law of operators: each of the five is associative, so that operands may be combined block by
/// block, each from its first on.
pub fn law_of_operators()
    ensures { OperatorsAssociate }
{}

/// The law of kept values: what a pass leaves at an element follows from the last values and partials
/// of the blocks in order, and from whether the element is reduction-only.
pub fn law_of_kept_values()
    ensures { CommitsOfKept }
{}

/// The law of blocks: the scan of two adjacent intervals is the scan of the first and then, unless it
/// broke, of the second.
pub fn law_of_blocks()
    ensures { ScansFollow }
{}

/// The law of even splits: 1 to 64 blocks of any number of iterations are a split; none, or more, have
/// the wrong number of bounds.
pub fn law_of_even_splits()
    ensures { EvenIsSplit }
{}

/// The law of gathering: blocks of a split, of which none is missing that starts at or before their
/// least break, have the loop's least break, and their iterations are the counted ones, whichever other
/// blocks were run.
pub fn law_of_gathering()
    ensures { BlocksGather }
{}

/// The law of splits: each index of the loop lies in exactly one block, and the blocks reach no
/// further.
pub fn law_of_splits()
    ensures { SplitsPartition }
{}

/// The law of schedules: whatever the workers do, in whatever order, a list of events that has ended
/// took every block, and left blocks of which none is missing, doubled or foreign; and the least break
/// that was posted is the loop's.
pub fn law_of_schedules()
    ensures { EndedSchedulesComplete }
{}

/// The law of outcomes: a loop that passes a test answers how many iterations count and leaves what is
/// committed of them; one that conflicts answers and leaves what it does in order.
pub fn law_of_outcomes()
    ensures { OutcomeByTest }
{}

/// The law of kept blocks: the merged marks of blocks are those of all their iterations, so they tell
/// whether an element conflicts and whether it is reduction-only; and what a pass leaves there follows
/// from that and from the blocks' kept values.
pub fn law_of_kept_blocks()
    ensures { KeptBlocksTell }
{}

/// The definitions give the first writers, last readers and kept values of worked blocks.
pub fn worked_blocks()
    ensures { BlockRows }
{}

/// The definitions give the planes of marks of worked blocks, and what planes of conflicts tell.
pub fn worked_planes()
    ensures { PlaneRows }
{}

/// The definitions give the fault of worked lists of blocks.
pub fn worked_lists_of_blocks()
    ensures { GatherRows }
{}

/// The definitions give the bounds of worked even splits, and the fault of other bounds.
pub fn worked_splits()
    ensures { SplitRows }
{}

/// The definitions give what worked lists of events come to: the loop's outcome, or their first fault.
pub fn worked_replays()
    ensures { ReplayRows }
{}

/// The law of batches: where iterations go on that ran on the words from before them, and each loads the
/// same after those before it, the loop in order is the loop after them, on the words after their effects,
/// one lane after another. Each effect is on the word that it finds: so lanes may change one element, where
/// none loads it.
pub fn law_of_batches()
    ensures each { LoopByEachLane }
{}
