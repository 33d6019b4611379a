//! How many iterations of a loop are tried together, and when.

ghost use Rattle.std.specs.Prelude.{◌≡◌, ◌<◌, ◌≤◌};

use row_facts::ListSites;
use row_list::RowList;
use row_run::Batch;
use std::alloc::Global;

/// The most iterations that are done together.
pub(crate) const MOST: u32 = 512;

/// The fewest that are tried after a batch of which some didn't go.
const LEAST: u32 = 32;

/// The longest pause, in batches.
const LONGEST_PAUSE: u32 = 4096;

/// What a batch costs without its lanes, in iterations that run alone. An operation takes some 17 machine instructions
/// in an iteration alone, and in a batch 44, with 1.2 more for each lane (x86-64-v3).
const COST: u32 = 3;

/// How many of a batch's lanes cost as much as one iteration that runs alone.
const LANES_A_COST: u32 = 14;

/// Batches of a loop's iterations. How many are tried together follows the mean of how many went; if they take longer
/// so than alone, there is a pause.
#[derive(Drop)]
pub(crate) struct Batches {
    pub(crate) batch: Batch,
    /// How many iterations are tried together the next time.
    pub(crate) lanes: u32,
    /// Four times the mean of how many went of the last batches; 0 where nothing is known.
    quarters: u32,
    /// How many batches of iterations go alone after the next one that isn't worth its while.
    pause: u32,
    /// How many iterations go alone before the next batch.
    pub(crate) alone: u32,
    /// How many of the last batch went.
    last: u32,
    /// How many whole batches come before more lanes are tried: twice as many each time that a batch wasn't whole.
    patience: u32,
    /// How many batches were whole since then: all of their lanes went.
    whole: u32,
    ghost lanes_fit: { (0 < lanes) × (lanes ≤ 512) },
    ghost quarters_fit: { quarters ≤ 2048 },
    ghost pause_fits: { (0 < pause) × (pause ≤ 4096) },
    ghost patience_fits: { patience ≤ 64 },
    ghost whole_fits: { whole ≤ 64 },
}

impl Batches {
    /// Nothing was tried yet.
    pub(crate) fn new(alloc: Global) -> Batches {
        Batches {
            batch: Batch::new(alloc),
            lanes: MOST,
            quarters: 0,
            pause: 1,
            alone: 0,
            last: 0,
            patience: 1,
            whole: 0,
        }
    }

    /// Makes room for a callback's list. Where memory runs out no batch can be run, and each iteration goes alone.
    pub(crate) fn make_room(&mut self, list: &RowList, sites: &ListSites) {
        let _made = self.batch.make_room(list, sites);
    }

    /// Notes that so many of a batch's lanes went: how many are tried the next time, and how many iterations go alone
    /// before.
    pub(crate) fn pace(&mut self, count: u32, lanes: u32)
        requires { count ≤ 512 }
        ensures { count ≡ 0 → 0 < self.new.alone }
    {
        let quarters = if self.quarters == 0 {
            4 * count
        } else {
            self.quarters - self.quarters / 4 + count
        };
        if count.max(quarters / 4) < COST + lanes / LANES_A_COST {
            self.give_up();
            return;
        }
        self.quarters = quarters;
        self.pause = 1;
        self.alone = if count == 0 { 1 } else { 0 };
        self.fit(count, lanes);
    }

    /// A batch took longer than its iterations do alone: there is a pause, and the next one is four times as long.
    fn give_up(&mut self)
        ensures { 0 < self.new.alone }
    {
        self.alone = self.lanes * self.pause;
        self.pause = (4 * self.pause).min(LONGEST_PAUSE);
        self.lanes = self.lanes.div_ceil(2).max(LEAST);
        self.quarters = 0;
    }

    /// How many iterations are tried the next time, where so many of some went. If some didn't go: a quarter more than
    /// go in the mean, or as many as went if it was so the last time too. If all went, and did time and again: twice as
    /// many.
    fn fit(&mut self, count: u32, lanes: u32)
        ensures { self.new.alone ≡ self.old.alone }
    {
        let again = count == self.last;
        self.last = count;
        if count < lanes {
            let mean = self.quarters / 4;
            let wanted = if again { count } else { mean + mean / 4 };
            self.lanes = wanted.clamp(LEAST, MOST).div_ceil(16) * 16;
            self.patience = (2 * self.patience).min(64);
            self.whole = 0;
            return;
        }
        let whole = self.whole + 1;
        if whole < self.patience {
            self.whole = whole;
            return;
        }
        self.lanes = (2 * self.lanes).min(MOST);
        self.whole = 0;
    }

    /// The index at which a batch is tried next, from one on up to another: the iterations before it go alone.
    pub(crate) fn resume(&self, index: u32, to: u32) -> u32
        requires { index ≤ to }
        ensures on { index ≤ result }
        ensures within { result ≤ to }
        ensures alone { 0 < self.now.alone → index < to → index < result }
    {
        index.saturating_add(self.alone).min(to)
    }
}
