//! The blocks that a replay runs.

ghost use Rattle.std.specs.Prelude.{◌≡◌, ◌<◌, [], replicate, None, IfOk, OnOk};
ghost use Rattle.loop_core_model.specs.{Gather.{is_bound}, Intervals.{blocks_of}};
ghost use Rattle.loop_core_block.specs.{LoopBlocks.{IsBlockOf}, Shown.{shown}};
ghost use Rattle.loop_core_replay.specs.{Standing.{WorkerFits}, Replays.{AreBlocks, TurnBreaks, BlockHasRun}};

use crate::worker::Worker;
use loop_core_block::{Block, SpeculativeLoop};
use loop_core_model::EventKind;
use loop_core_split::{NoGate, Split};
use std::alloc::{AllocError, Global};
use std::marker::Model;

/// The blocks that a replay runs. A block is run as a whole when a worker reaches its first iteration; then the worker
/// has its turns.
#[derive(Drop)]
pub(crate) struct Blocks<'a> {
    /// Those that a worker is in, by number.
    under_way: Vec<Option<Block<'a>>>,
    /// Those that a worker ran to the break or the end, the latest first.
    ran: Vec<Block<'a>>,
}

impl<'a> Model for Blocks<'a> {
    ghost use Rattle.loop_core_replay.specs.Replays.{BlocksOf};

    ghost Value = { BlocksOf };

    ghost view = { λ b. record { under_way = b.under_way.items; ran = b.ran.items } };
}

/// Whether a break is at this index.
fn is_at(broke: Option<u32>, index: u32) -> bool
    ensures { result ≡ is_bound broke index }
{
    match broke {
        Some(at) => at == index,
        None => false,
    }
}

impl<'a> Blocks<'a> {
    /// No block of this split was begun.
    pub(crate) fn try_new(alloc: Global, split: &Split) -> Result<Blocks<'a>, AllocError>
        ensures under_way { IfOk result (λ blocks. blocks.under_way ≡ replicate (blocks_of split.now) None) }
        ensures ran { IfOk result (λ blocks. blocks.ran ≡ []) }
    {
        let mut under_way = Vec::with_capacity(alloc, split.blocks() as usize)?;
        for _ in 0..split.blocks() {
            under_way.push(None)?;
        }
        Ok(Blocks {
            under_way,
            ran: Vec::new(alloc),
        })
    }

    /// Whether the iteration breaks that a worker does by this event, whose block is active then. `false` where it is
    /// no worker's turn.
    pub(crate) fn breaks(
        &mut self,
        of: &SpeculativeLoop<'_, 'a>,
        kind: EventKind,
        worker: Worker,
    ) -> Result<bool, AllocError>
        requires worker { WorkerFits of.now.bounds worker }
        requires blocks { AreBlocks of.now self.old }
        ensures blocks { OnOk result (AreBlocks of.now self.new) }
        ensures ran { self.new.ran ≡ self.old.ran }
        ensures breaks { IfOk result (TurnBreaks of.now kind worker) }
    {
        match (kind, worker) {
            (EventKind::Turn, Worker::Running { block, index }) => {
                if let Some(active) = &self.under_way[block as usize] {
                    return Ok(is_at(active.broke(), index));
                }
                let active = of.run_block(block, &NoGate)?;
                let breaks = is_at(active.broke(), index);
                self.under_way[block as usize] = Some(active);
                Ok(breaks)
            }
            _ => Ok(false),
        }
    }

    /// The block of this number, which isn't active any more.
    fn take(&mut self, of: &SpeculativeLoop<'_, 'a>, number: u32) -> Result<Block<'a>, AllocError>
        requires within { number < blocks_of of.now.bounds }
        requires blocks { AreBlocks of.now self.old }
        ensures blocks { AreBlocks of.now self.new }
        ensures ran { self.new.ran ≡ self.old.ran }
        ensures block { IfOk result (λ b. IsBlockOf of.now number (shown b)) }
    {
        match self.under_way[number as usize].take() {
            Some(block) => Ok(block),
            None => of.run_block(number, &NoGate),
        }
    }

    /// A worker has run this block. An empty one was never active, and is run at once.
    pub(crate) fn end(
        &mut self,
        of: &SpeculativeLoop<'_, 'a>,
        number: u32,
    ) -> Result<(), AllocError>
        requires within { number < blocks_of of.now.bounds }
        requires blocks { AreBlocks of.now self.old }
        ensures { OnOk result (BlockHasRun of.now number self.old self.new) }
    {
        let block = self.take(of, number)?;
        self.ran.insert(0, block)?;
        Ok(())
    }

    /// Those that were run.
    pub(crate) fn into_ran(self) -> Vec<Block<'a>>
        ensures { result.items ≡ self.entry.ran }
    {
        let Blocks { under_way: _, ran } = self;
        ran
    }
}
