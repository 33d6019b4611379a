//! Maps that are watched.

ghost use Rattle.std.specs.Prelude.{◌≡◌, false, length};
ghost use Rattle.loop_core_undo.specs.Undo.{log_elements};

use crate::undo_log::UndoLog;
use array_maps::{Half, Maps, Op, Part, Rmw, Store};

/// Maps whose accesses are noted in an undo log. It knows whether one of them met an element that was written before:
/// whether it saw or reduced it.
#[derive(Drop)]
pub struct Watched<'w> {
    pub(crate) maps: &'w mut Maps,
    pub(crate) log: &'w mut UndoLog,
    pub(crate) met: bool,
    ghost count: { length maps.now.words ≡ log_elements log.now },
}

impl<'w> Watched<'w> {
    /// Maps of as many elements as the log is for, by which nothing was met yet.
    pub fn new(maps: &'w mut Maps, log: &'w mut UndoLog) -> Watched<'w>
        requires { length maps.old.words ≡ log_elements log.old }
        ensures maps { result.maps.now ≡ maps.old }
        ensures same_maps { result.maps.ghost_name ≡ maps.entry.ghost_name }
        ensures log { result.log.now ≡ log.old }
        ensures same_log { result.log.ghost_name ≡ log.entry.ghost_name }
        ensures met { result.met ≡ false }
    {
        Watched {
            maps,
            log,
            met: false,
        }
    }

    /// Whether an access saw or reduced an element that was written before it.
    pub fn has_dependence(&self) -> bool
        ensures { result ≡ self.now.met }
    {
        self.met
    }
}

impl<'w> Store for Watched<'w> {
    ghost use Rattle.std.proofs.Common.{ap, arith};
    ghost use Rattle.array_maps.specs.MapList.{MapList};
    ghost use Rattle.loop_core_undo.specs.Watching.{IsWatched};

    ghost words = { λ watched. watched.maps.now.words };

    ghost serves = { λ _. 4096 };

    ghost effect = { IsWatched };

    fn words_fit(&self) {
        let _words = self.maps.words();
    }

    #[inline]
    fn load(&mut self, e: u32) -> u64 {
        self.meet(e);
        self.maps.load(e)
    }

    #[inline]
    fn store(&mut self, e: u32, value: u64) {
        self.log.mark(e, self.maps);
        self.maps.store(e, value);
    }

    #[inline]
    fn update(&mut self, e: u32, op: Op, operand: u64) {
        self.meet(e);
        self.log.mark(e, self.maps);
        self.maps.update(e, op, operand);
    }

    fn store_half(&mut self, e: u32, half: Half, value: u32) {
        self.meet(e);
        self.log.mark(e, self.maps);
        self.maps.store_half(e, half, value);
    }

    fn fetch(&mut self, e: u32, part: Part, rmw: Rmw, value: u64, compare: u64) -> u64 {
        self.meet(e);
        self.log.mark(e, self.maps);
        self.maps.fetch(e, part, rmw, value, compare)
    }

    ghost shows = { λ old new access done. ap (λ (maps : MapList). maps.words) done.maps };

    ghost uses_one = { λ old new access done. Prim.omega arith };
}

impl<'w> Watched<'w> {
    ghost use Rattle.std.specs.Prelude.{◌<◌, ◌||◌};
    ghost use Rattle.loop_core_undo.specs.Undo.{is_written};

    /// Tells from now on that an access met an element that was written before, where this one was.
    #[inline(always)]
    fn meet(&mut self, e: u32)
        requires { e < log_elements self.old.log.now }
        ensures maps { self.new.maps.now ≡ self.old.maps.now }
        ensures same_maps { self.new.maps.ghost_name ≡ self.old.maps.ghost_name }
        ensures log { self.new.log.now ≡ self.old.log.now }
        ensures same_log { self.new.log.ghost_name ≡ self.old.log.ghost_name }
        ensures met { self.new.met ≡ (self.old.met || is_written self.old.log.now e) }
    {
        self.met |= self.log.is_written(e);
    }
}
