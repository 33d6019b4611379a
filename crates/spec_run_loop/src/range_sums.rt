//! Sums of ranges of a loop's iterations.

ghost use Rattle.std.specs.Prelude.{◌≡◌, ◌+◌, ◌<◌, ◌≤◌, length, All, IfOk};
ghost use Rattle.spec_run_loop.specs.{Rounds.{share_start}, Sums.{IsSumFor, IsSumOf}};

use crate::identity::clear;
use crate::partial_reduction::PartialReduction;
use crate::reduction_loop::ReductionLoop;
use crate::round::Round;
use array_maps::Maps;
use bpf_verify_sound::{law_of_accepted_programs, law_of_accepted_runs};
use loop_core_model::law_of_operators;
use loop_core_sequential::range_in_order;
use std::alloc::{AllocError, Global};

impl<'l> ReductionLoop<'l> {
    /// This many sums, for any ranges of iterations.
    pub fn try_new_sums(
        &self,
        alloc: Global,
        count: u32,
    ) -> Result<Vec<PartialReduction>, AllocError>
        ensures count { IfOk result (λ sums. length sums.items ≡ count) }
        ensures fit { IfOk result (λ sums. All (IsSumFor self.now) sums.items) }
    {
        let mut sums = Vec::new(alloc);
        for _ in 0..count {
            let Ok(maps) = Maps::new(alloc, self.program.sizes()) else {
                return Err(AllocError);
            };
            sums.push(PartialReduction { maps, broke: None })?;
        }
        Ok(sums)
    }

    /// Adds up the iterations of a share of a round, or those of it up to the first that returns 1, in place of what
    /// was added up before.
    pub fn run_share(&self, sum: &mut PartialReduction, round: &Round, share: u32)
        requires fit { IsSumFor self.now sum.old }
        requires within { round.now.to ≤ self.now.call.n }
        requires share { share < round.now.shares }
        ensures { IsSumOf self.now (share_start round.now share) (share_start round.now (share + 1)) sum.new }
    {
        law_of_operators();
        law_of_accepted_runs();
        law_of_accepted_programs();
        // For the proof (`_unit`, `_words`): the program is accepted; the sum's maps have at most 65,536 words.
        let _unit = self.program.unit();
        clear(&mut sum.maps, self.op);
        let _words = sum.maps.words();
        let from = round.start(share);
        let to = round.start(share + 1);
        sum.broke = range_in_order(self.program, self.call, from, to, &mut sum.maps);
    }
}
