//! A refused loop call.

/// What a loop call asked for that `bpf_loop` refused, and its answer (bpf-helpers(7), bpf_loop).
#[derive(Clone, Copy, Debug, PartialEq)]
pub struct RefusedCall {
    /// How many iterations it asked for: R1, modulo 2^32.
    pub iterations: u32,
    /// Its flags: R4.
    pub flags: u64,
    /// Its answer: -22 for flags other than 0, -7 for more than 8,388,608 iterations.
    pub answer: i64,
}
