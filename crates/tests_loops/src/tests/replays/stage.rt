//! A loop at its call: the program that made it, the maps there, and its blocks.

ghost use Rattle.std.specs.Prelude.{◌≡◌, IfSome, None};
ghost use Rattle.loop_core_model.specs.Split.{split_fault};
ghost use Rattle.bpf_verify_sound.specs.Soundness.{OverApproximatesCall};

use crate::rows::first_call;
use crate::tests::replays::loops::Row;
use array_maps::Maps;
use bpf_step::LoopCall;
use bpf_text::parse_unit;
use bpf_verify::{Verified, verify};
use loop_core_model::{Event, Test};
use loop_core_replay::{ReplayError, replay_loop};
use loop_core_split::Split;
use std::alloc::Global;
use std::marker::Model;

/// A loop of an accepted program at its call.
#[derive(Drop)]
pub struct Stage {
    program: Verified,
    call: LoopCall,
    maps: Maps,
    split: Split,
}

impl Model for Stage {
    ghost use Rattle.tests_loops.specs.ReplayStages.{StageOf, IsReplayStage};

    ghost Value = { StageOf };

    ghost view = { λ s. record { program = s.program; call = s.call; start = s.maps; bounds = s.split } };

    ghost invariant = { λ s. IsReplayStage (record {
      program = s.program;
      call = s.call;
      start = s.maps;
      bounds = s.split;
    }) };
}

fn program_of(alloc: Global, unit: &str) -> Option<Verified> {
    let text = unit.replace(alloc, " | ", "\n").ok()?;
    let unit = parse_unit(alloc, &text).ok()?;
    verify(alloc, unit).ok()
}

/// The loop call that main makes first, and the split of its iterations by these bounds, unless there is no memory or
/// something is amiss.
fn call_and_split(
    alloc: Global,
    program: &Verified,
    maps: &mut Maps,
    bounds: &[u32],
) -> Option<(LoopCall, Split)>
    ensures sizes { IfSome result (λ _. maps.new.sizes ≡ program.now.sizes) }
    ensures known { IfSome result (λ at. OverApproximatesCall program.now at.0) }
    ensures split { IfSome result (λ at. split_fault at.1 at.0.n ≡ None) }
{
    if maps.sizes() != program.sizes() {
        return None;
    }
    let call = first_call(program, maps)?;
    let bounds = bounds.to_vec(alloc).ok()?;
    match Split::of(bounds, call.n()) {
        Ok(split) => Some((call, split)),
        Err(_) => None,
    }
}

fn maps_of(alloc: Global, words: &[u64]) -> Option<Maps> {
    Maps::of(alloc, &[words.to_vec(alloc).ok()?]).ok()
}

impl Stage {
    /// The first loop of a row's unit, unless there is no memory or the row is amiss.
    pub fn try_new(alloc: Global, row: &Row) -> Option<Stage> {
        let program = program_of(alloc, row.unit)?;
        let mut maps = maps_of(alloc, row.words)?;
        let (call, split) = call_and_split(alloc, &program, &mut maps, row.bounds)?;
        Some(Stage {
            program,
            call,
            maps,
            split,
        })
    }

    /// The words of the maps.
    pub fn words(&self) -> &[u64] {
        self.maps.words()
    }

    /// Whether the replay of a list of events has the row's outcome.
    pub fn has_outcome(
        &self,
        alloc: Global,
        row: &Row,
        events: &[Event],
        test: Test,
    ) -> Result<bool, ReplayError> {
        let outcome = replay_loop(
            alloc,
            &self.program,
            &self.call,
            &self.maps,
            &self.split,
            events,
            test,
        )?;
        Ok(
            outcome.verdict == row.verdict
                && outcome.answer == row.answer
                && outcome.maps.words() == row.left,
        )
    }
}
