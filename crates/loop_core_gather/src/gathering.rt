//! Gathering the blocks of a loop.

ghost use Rattle.std.specs.{Prelude.{◌≡◌, ◌≤◌, map, Some, None, Err, IfOk, OnOk}, List.{All}};
ghost use Rattle.bpf_verify_sound.specs.Soundness.{OverApproximatesCall};
ghost use Rattle.loop_core_model.specs.{LeastBreak.{count_to}, Split.{split_fault}, Gather.{gather_fault}};
ghost use Rattle.loop_core_model.specs.declared.faults.GatherFault.{GatherFault as FaultOf};
ghost use Rattle.loop_core_block.specs.{Ran.{RecordsRun}, Shown.{shown}};
ghost use Rattle.loop_core_gather.specs.Gathered.{all_gathered, HasOutcome};

use crate::gathered::Gathered;
use crate::merged::planes_in_one;
use crate::order::counting_blocks;
use crate::touched::touched_pages;
use array_maps::Maps;
use bpf_step::LoopCall;
use bpf_verify::Verified;
use lane_planes::{conflict_plane, verdict_of};
use loop_core_block::Block;
use loop_core_model::{GatherFault, Test};
use loop_core_split::Split;
use std::alloc::{AllocError, Global};
use thiserror::Error;

/// Why blocks aren't gathered.
#[derive(Debug, Drop, Error)]
pub enum GatherError {
    /// The blocks have a fault.
    #[error("the blocks aren't those of the loop: {0:?}")]
    Fault(GatherFault),
    /// There was no memory.
    #[error("out of memory")]
    Memory,
}

impl From<AllocError> for GatherError {
    ghost use Rattle.loop_core_gather.specs.declared.gathering.GatherError.TheVariants.{Memory};

    ghost from_gives = { λ _ e. e ≡ Memory };

    fn from(_e: AllocError) -> GatherError {
        GatherError::Memory
    }
}

/// How many iterations count, of n: up to the least break, or all.
fn counted(n: u32, least: Option<u32>) -> u32
    requires { count_to n least ≤ n }
    ensures { result ≡ count_to n least }
{
    match least {
        None => n,
        Some(index) => index + 1,
    }
}

/// Gathers the blocks of a loop call that main of this program made, each run on the start maps for this test. Blocks
/// of the split that start past the least break may be missing; the others are there.
///
/// `Fault` where the blocks have one, the least of them: G1 (`Missing`) a block of the split isn't there that starts
/// at or before the least break of those that are, G2 (`Twice`) a number appears twice, G3 (`Foreign`) an interval
/// isn't the split's. `Memory` where there was none.
pub fn gather<'a>(
    alloc: Global,
    program: &Verified,
    call: &LoopCall,
    start: &'a Maps,
    split: &Split,
    mut blocks: Vec<Block<'a>>,
    test: Test,
) -> Result<Gathered<'a>, GatherError>
    requires known { OverApproximatesCall program.now call.now }
    requires sizes { start.now.sizes ≡ program.now.sizes }
    requires split { split_fault split.now call.now.n ≡ None }
    requires ran { All (λ b. RecordsRun test program.now call.now start.now.words (shown b)) blocks.items }
    ensures fault { (fault : FaultOf) → result ≡ Err (GatherError.Fault fault)
        → gather_fault split.now (all_gathered program.now call.now start.now.words (map shown blocks.entry.items))
        ≡ Some fault }
    ensures faultless { OnOk result (gather_fault split.now (all_gathered program.now call.now start.now.words
        (map shown blocks.entry.items)) ≡ None) }
    ensures outcome { IfOk result (HasOutcome test program.now call.now start.now.words) }
{
    let counting = match counting_blocks(split, &blocks) {
        Err(fault) => return Err(GatherError::Fault(fault)),
        Ok(counting) => counting,
    };
    let words = start.words();
    let elements = words.len() as u32;
    let touched = touched_pages(alloc, elements, &blocks, &counting.places)?;
    let planes = planes_in_one(
        alloc,
        elements,
        test,
        blocks.as_mut_slice(),
        &counting.places,
    )?;
    let conflicting = conflict_plane(alloc, &planes)?;
    Ok(Gathered {
        verdict: verdict_of(&conflicting),
        answer: counted(call.n(), counting.least),
        start: words,
        blocks,
        counting: counting.places,
        planes,
        touched,
    })
}
