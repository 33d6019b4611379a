//! Loops with one map, and their outcomes.

use loop_core_model::Verdict;

/// A unit, its lines separated by ` | `; the words of its map and the bounds of its loop's blocks; which iterations
/// break on these words; and the loop's outcome.
#[derive(Clone, Copy)]
pub struct Row {
    pub unit: &'static str,
    pub words: &'static [u64],
    pub bounds: &'static [u32],
    pub breaks: &'static [u32],
    pub verdict: Verdict,
    pub answer: u32,
    pub left: &'static [u64],
}

/// Sixteen iterations, of which two break.
pub const TWO_BREAKS: Row = Row {
    unit: "maps 16 | mov64 r1, 16 | ldcode r2, cb | mov64 r3, 0 | mov64 r4, 0 | call 181 | exit | cb: | \
        mov64 r2, r1 | lsh64 r2, 3 | ldmapval r3, 0, 0 | add64 r3, r2 | st64 [r3+0], 1 | mov64 r0, 0 | \
        jeq64 r1, 3, hit | jne64 r1, 12, done | hit: | mov64 r0, 1 | done: | exit",
    words: &[0; 16],
    bounds: &[0, 4, 8, 12, 16],
    breaks: &[3, 12],
    verdict: Verdict::Parallel,
    answer: 4,
    left: &[1, 1, 1, 1, 0, 0, 0, 0, 0, 0, 0, 0, 0, 0, 0, 0],
};

/// No iterations, in one block.
pub const NO_ITERATIONS: Row = Row {
    unit: "maps 1 | mov64 r1, 0 | ldcode r2, cb | mov64 r3, 0 | mov64 r4, 0 | call 181 | exit | cb: | \
        ldmapval r2, 0, 0 | atomic64 add [r2+0], r1 | mov64 r0, 0 | exit",
    words: &[5],
    bounds: &[0, 0],
    breaks: &[],
    verdict: Verdict::Parallel,
    answer: 0,
    left: &[5],
};

/// Four iterations that read the element which the first one writes. The last one breaks where it reads 0, so never in
/// order.
pub const A_BREAK_THAT_IS_NONE: Row = Row {
    unit: "maps 1 | mov64 r1, 4 | ldcode r2, cb | mov64 r3, 0 | mov64 r4, 0 | call 181 | exit | cb: | \
        ldmapval r3, 0, 0 | ldx64 r4, [r3+0] | mov64 r0, 0 | jne64 r1, 0, later | st64 [r3+0], 1 | exit | \
        later: | jne64 r1, 3, done | jne64 r4, 0, done | mov64 r0, 1 | done: | exit",
    words: &[0],
    bounds: &[0, 1, 2, 3, 4],
    breaks: &[3],
    verdict: Verdict::Conflict { count: 1, least: 0 },
    answer: 4,
    left: &[1],
};

/// Four iterations that write an element each, of which the second one breaks.
pub const AN_EARLY_BREAK: Row = Row {
    unit: "maps 4 | mov64 r1, 4 | ldcode r2, cb | mov64 r3, 0 | mov64 r4, 0 | call 181 | exit | cb: | \
        mov64 r2, r1 | lsh64 r2, 3 | ldmapval r3, 0, 0 | add64 r3, r2 | st64 [r3+0], 1 | mov64 r0, 0 | \
        jne64 r1, 1, done | mov64 r0, 1 | done: | exit",
    words: &[0, 0, 0, 0],
    bounds: &[0, 1, 2, 3, 4],
    breaks: &[1],
    verdict: Verdict::Parallel,
    answer: 2,
    left: &[1, 1, 0, 0],
};
