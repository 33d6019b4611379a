//! A replay, event by event.

ghost use Rattle.std.specs.Prelude.{◌≡◌, Err, IfOk};
ghost use Rattle.loop_core_model.specs.Schedule.{replay};
ghost use Rattle.loop_core_replay.specs.Replays.{loop_breaks, IsLeft};

use crate::blocks::Blocks;
use crate::error::ReplayError;
use crate::workers::Workers;
use loop_core_block::{Block, SpeculativeLoop};
use loop_core_model::{Event, ReplayFault};

/// Does all events of a list, and gives the blocks that were run where it has ended.
pub(crate) fn run_events<'a>(
    of: &SpeculativeLoop<'_, 'a>,
    events: &[Event],
) -> Result<Vec<Block<'a>>, ReplayError>
    ensures left { IfOk result (λ ran. IsLeft of.now events.now ran.items) }
    ensures fault { (fault : ReplayFault) → result ≡ Err (ReplayError.Fault fault)
        → replay (loop_breaks of.now) of.now.bounds events.now ≡ Err fault }
{
    let mut workers = Workers::new();
    let mut blocks = Blocks::try_new(of.alloc, of.split)?;
    for place in 0..events.len() {
        let event = events[place];
        let worker = workers.get(event.worker);
        let breaks = blocks.breaks(of, event.kind, worker)?;
        let block = match workers.step(of.split, event, place, breaks) {
            Ok(Some(block)) => block,
            Ok(None) => continue,
            Err(fault) => return Err(ReplayError::Fault(fault)),
        };
        blocks.end(of, block)?;
    }
    match workers.end(events) {
        Ok(()) => Ok(blocks.into_ran()),
        Err(fault) => Err(ReplayError::Fault(fault)),
    }
}
