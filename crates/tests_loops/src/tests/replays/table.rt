//! The table of events, read plainly: when an event of a worker is enabled, and what it does.

use loop_core_model::{Event, EventKind, ReplayFault};

/// What a worker does.
#[derive(Clone, Copy)]
enum Doing {
    /// It is in no event so far; else it is idle.
    Absent,
    Idle,
    Holding(u32),
    Running(u32, u32),
    Posting(u32),
    Drained,
    Stopped,
}

/// Workers 0 to 2 that share blocks of these bounds. The iterations of some indices break.
#[derive(Drop)]
pub struct Table<'a> {
    bounds: &'a [u32],
    breaks: &'a [u32],
    next: u32,
    least: u32,
    workers: [Doing; 3],
}

impl<'a> Table<'a> {
    /// Before any event.
    pub fn new(bounds: &'a [u32], breaks: &'a [u32]) -> Table<'a> {
        Table {
            bounds,
            breaks,
            next: 0,
            least: u32::MAX,
            workers: [Doing::Absent; 3],
        }
    }

    fn doing(&self, worker: u8) -> Doing {
        match self.workers.get(usize::from(worker)) {
            Some(doing) => *doing,
            None => Doing::Stopped,
        }
    }

    fn bound(&self, number: u32) -> u32 {
        self.bounds
            .get(number as usize)
            .copied()
            .unwrap_or(u32::MAX)
    }

    /// The kind of the event that is enabled for a worker.
    pub fn enabled(&self, worker: u8) -> Option<EventKind> {
        match self.doing(worker) {
            Doing::Absent | Doing::Idle => Some(EventKind::Claim),
            Doing::Holding(_) => Some(EventKind::Look),
            Doing::Running(_, _) => Some(EventKind::Turn),
            Doing::Posting(_) => Some(EventKind::Post),
            Doing::Drained => Some(EventKind::Stop),
            Doing::Stopped => None,
        }
    }

    /// Takes the next block.
    fn claim(&mut self) -> Doing {
        let block = self.next;
        if block as usize + 1 >= self.bounds.len() {
            return Doing::Drained;
        }
        self.next = block.saturating_add(1);
        Doing::Holding(block)
    }

    /// Skips a block that starts past the least break or is empty, and begins another.
    fn look(&self, block: u32) -> Doing {
        let start = self.bound(block);
        if start > self.least || start == self.bound(block.saturating_add(1)) {
            Doing::Idle
        } else {
            Doing::Running(block, start)
        }
    }

    /// Does one iteration.
    fn turn(&self, block: u32, index: u32) -> Doing {
        let next = index.saturating_add(1);
        if self.breaks.contains(&index) {
            Doing::Posting(index)
        } else if next == self.bound(block.saturating_add(1)) {
            Doing::Idle
        } else {
            Doing::Running(block, next)
        }
    }

    /// Does the event that is enabled for a worker.
    pub fn go_on(&mut self, worker: u8) {
        let after = match self.doing(worker) {
            Doing::Absent | Doing::Idle => self.claim(),
            Doing::Holding(block) => self.look(block),
            Doing::Running(block, index) => self.turn(block, index),
            Doing::Posting(index) => {
                self.least = self.least.min(index);
                Doing::Idle
            }
            Doing::Drained | Doing::Stopped => Doing::Stopped,
        };
        if let Some(doing) = self.workers.get_mut(usize::from(worker)) {
            *doing = after;
        }
    }

    /// Whether some worker is in the events, and each that does has stopped.
    pub fn has_ended(&self) -> bool {
        let mut some = false;
        for doing in &self.workers {
            match doing {
                Doing::Absent => {}
                Doing::Stopped => some = true,
                _ => return false,
            }
        }
        some
    }

    /// The fault of a list of events, which are done up to it.
    pub fn fault(&mut self, events: &[Event]) -> Option<ReplayFault> {
        for place in 0..events.len() {
            let event = events[place];
            if self.enabled(event.worker) != Some(event.kind) {
                return Some(ReplayFault::NotEnabled { event: place });
            }
            self.go_on(event.worker);
        }
        if self.has_ended() {
            return None;
        }
        Some(ReplayFault::NotEnded {
            events: events.len(),
        })
    }
}
