//! Sums, combined with the maps.

ghost use Rattle.std.specs.Prelude.{◌≡◌, ℕ, All};
ghost use Rattle.loop_core_sequential.specs.Rests.{RanTo};
ghost use Rattle.spec_run_loop.specs.Sums.{AreSumsOf, IsSumFor};

use crate::partial_reduction::PartialReduction;
use crate::reduction_loop::ReductionLoop;
use array_maps::Maps;

impl<'l> ReductionLoop<'l> {
    /// Combines the maps with sums of ranges of iterations that follow one another, range after range, up to the first
    /// that broke off: the maps are as these iterations leave them in order. Gives the loop's answer where one broke
    /// off. The maps are of the program's sizes.
    pub fn add_up(&self, sums: &[PartialReduction], maps: &mut Maps) -> Option<u32>
        requires fit { All (IsSumFor self.now) sums.now }
        requires sizes { maps.old.sizes ≡ self.now.program.sizes }
        ensures { (from to : ℕ) → AreSumsOf self.now from to sums.now
            → RanTo self.now.program self.now.call from to maps.old maps.new result }
    {
        for sum in sums {
            // For the proof: words are below 2^64, and `maps` and `sum.maps` have as many as their sizes add up to.
            let _words = maps.words();
            let _sizes = maps.sizes();
            let _others = sum.maps.sizes();
            maps.update_run(0, self.op, sum.maps.words());
            if let Some(answer) = sum.broke {
                return Some(answer);
            }
        }
        None
    }
}
