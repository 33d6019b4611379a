//! A loop that is run speculatively.

use array_maps::Maps;
use bpf_step::LoopCall;
use bpf_verify::Verified;
use loop_core_model::Test;
use loop_core_split::Split;
use std::alloc::Global;
use std::marker::Model;

/// A loop that is run speculatively, borrowed by all that work on it: a loop call that main of this program made, the
/// maps that it starts on, which are of the program's sizes, a split of its iterations, and the test that judges it.
#[derive(Drop)]
pub struct SpeculativeLoop<'l, 'a> {
    /// Where its blocks, and what is gathered of them, are kept.
    pub alloc: Global,
    /// The program whose main made the call.
    pub program: &'l Verified,
    /// The call: a callback, and how often it is called.
    pub call: &'l LoopCall,
    /// The maps as they are at the call. They don't change while they are borrowed.
    pub start: &'a Maps,
    /// The blocks of its iterations.
    pub split: &'l Split,
    /// The test by which it passes, or doesn't.
    pub test: Test,
}

impl<'l, 'a> Model for SpeculativeLoop<'l, 'a> {
    ghost use Rattle.loop_core_block.specs.Loops.{LoopOf, IsSpeculative};

    ghost Value = { LoopOf };

    ghost view = { λ l. record {
      program = l.program.now;
      call = l.call.now;
      start = l.start.now;
      bounds = l.split.now;
      test = l.test;
    } };

    ghost invariant = { λ l. IsSpeculative (record {
      program = l.program.now;
      call = l.call.now;
      start = l.start.now;
      bounds = l.split.now;
      test = l.test;
    }) };
}

impl<'l, 'a> SpeculativeLoop<'l, 'a> {
    ghost use Rattle.std.specs.Prelude.{◌≡◌, ◌≤◌, length};

    /// How many elements its maps have together: at most 65,536.
    pub fn elements(&self) -> u32
        ensures count { result ≡ length self.now.start.words }
        ensures few { result ≤ 65536 }
    {
        self.start.words().len() as u32
    }
}
