//! Gates at which workers meet.

use loop_core_split::Gate;
use std::hint::spin_loop;
use std::sync::atomic::{AtomicBool, AtomicU64, Ordering};

/// For how many rounds one is held at most.
const MAX_ROUNDS: u32 = 1 << 24;

/// Numbers below 64, each of which comes once, and pairs of which the first is held until the second has come.
#[derive(Drop)]
pub struct Meeting {
    holds: &'static [(u32, u32)],
    came: AtomicU64,
    gave_up: AtomicBool,
}

impl Meeting {
    /// Before any number has come.
    pub fn new(holds: &'static [(u32, u32)]) -> Self {
        Meeting {
            holds,
            came: AtomicU64::new(0),
            gave_up: AtomicBool::new(false),
        }
    }

    /// The numbers that have come, a bit each.
    pub fn came(&self) -> u64 {
        self.came.load(Ordering::SeqCst)
    }

    fn has_come(&self, number: u32) -> bool {
        self.came() >> (number % 64) & 1 == 1
    }

    /// Whether both of each pair have come, and none was held for too many rounds.
    pub fn has_met(&self) -> bool {
        for hold in self.holds {
            if !self.has_come(hold.0) || !self.has_come(hold.1) {
                return false;
            }
        }
        !self.gave_up.load(Ordering::SeqCst)
    }

    fn wait_for(&self, number: u32) {
        for _ in 0..MAX_ROUNDS {
            if self.has_come(number) {
                return;
            }
            spin_loop();
        }
        self.gave_up.store(true, Ordering::SeqCst);
    }

    fn come(&self, number: u32) {
        if number < 64 {
            self.came.fetch_add(1 << number, Ordering::SeqCst);
        }
        for hold in self.holds {
            if hold.0 == number {
                self.wait_for(hold.1);
            }
        }
    }
}

/// Which blocks are held as they begin, and which iterations: of each pair the first, until the second has come.
#[derive(Clone, Copy)]
pub struct Holds {
    pub blocks: &'static [(u32, u32)],
    pub turns: &'static [(u32, u32)],
}

/// A gate at which blocks meet as they begin, and iterations.
#[derive(Drop)]
pub struct MeetingGate {
    pub blocks: Meeting,
    pub turns: Meeting,
}

impl MeetingGate {
    /// Before any block has begun.
    pub fn new(holds: Holds) -> Self {
        MeetingGate {
            blocks: Meeting::new(holds.blocks),
            turns: Meeting::new(holds.turns),
        }
    }

    /// Whether all who are held met those for whom they waited.
    pub fn has_met(&self) -> bool {
        self.blocks.has_met() && self.turns.has_met()
    }
}

impl Gate for MeetingGate {
    fn begin(&self, block: u32) {
        self.blocks.come(block);
    }

    fn turn(&self, index: u32) {
        self.turns.come(index);
    }
}
