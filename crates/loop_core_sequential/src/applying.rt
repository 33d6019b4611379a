//! What the lanes of a batch did, applied to maps.

use array_maps::WordChange;
use row_run::Batch;

/// What the first lanes of a batch did.
#[derive(Clone, Copy)]
pub(crate) struct FirstLanes<'a> {
    pub(crate) batch: &'a Batch,
    /// How many they are.
    pub(crate) lanes: usize,
}

impl WordChange for FirstLanes<'_> {
    ghost use Rattle.std.specs.Prelude.{◌≡◌, length};
    ghost use Rattle.loop_core_model.specs.Effects.{words_after_each_lane};
    ghost use Rattle.row_run.specs.Batches.{batch_log};
    ghost use Rattle.loop_core_sequential.specs.Lanes.{MayApply};

    ghost wants = { λ first words. MayApply first.batch.now first.lanes (length words) };

    ghost makes = { λ first old new. new ≡ words_after_each_lane (batch_log first.batch.now) first.lanes old };

    fn apply(&self, words: &mut [u64]) {
        self.batch.apply(self.lanes, words);
    }
}
