//! Finding the first iteration that accesses an element.

ghost use Rattle.std.specs.Prelude.{IfOk};
ghost use Rattle.loop_core_witness.specs.Searches.{IsSearch, FindsFirst};

use crate::kind::{Kind, slot_in};
use crate::place::Place;
use crate::survey::{Stretch, Survey};
use array_maps::{Maps, Op};
use bpf_step::LoopCall;
use bpf_verify::Verified;
use loop_core_trace::trace_iteration;
use std::alloc::{AllocError, Global};

/// A search for accesses of an element in the counted iterations of a loop call that main of this program made, each
/// run on the start maps.
#[derive(Drop)]
pub(crate) struct Search<'a> {
    pub(crate) alloc: Global,
    pub(crate) program: &'a Verified,
    pub(crate) call: &'a LoopCall,
    pub(crate) start: &'a Maps,
    /// The element.
    pub(crate) element: u32,
    /// How many iterations count.
    pub(crate) count: u32,
    /// What the iterations did, stretch by stretch.
    pub(crate) survey: &'a Survey,
}

impl Search<'_> {
    ghost use Rattle.std.specs.Prelude.{◌≤◌, ◌<◌, IfSome};
    ghost use Rattle.loop_core_witness.specs.{Searches.{LacksUpTo, IsQuietUpTo}, Surveys.{IsStretch}};

    /// The stretch that an index is in, where the survey has it.
    fn around(&self, index: u32) -> Option<&Stretch>
        requires { IsSearch self.now }
        ensures is { IfSome result (λ stretch. IsStretch self.now.program.now self.now.call.now
            self.now.start.now.words stretch.now) }
        ensures first { IfSome result (λ stretch. stretch.now.first ≤ index) }
        ensures past { IfSome result (λ stretch. index < stretch.now.past) }
    {
        let stretches = self.survey.stretches.as_slice();
        match stretches.get((index / self.survey.size) as usize) {
            Some(stretch) if stretch.first <= index && index < stretch.past => Some(stretch),
            _ => None,
        }
    }

    /// The index, or past the stretch that it is in, where no iteration of that does what is looked for.
    fn skip(&self, kind: Kind, index: u32) -> u32
        requires { IsSearch self.now }
        ensures { LacksUpTo self.now kind index result }
    {
        match self.around(index) {
            Some(stretch) if stretch.lacks(kind, self.element) => stretch.past,
            _ => index,
        }
    }

    /// The index, or past the stretch that it is in, where no iteration of that ends a reduction by this operator;
    /// where there was none yet, where none of them accesses the element.
    pub(crate) fn skip_quiet(&self, op: Option<Op>, index: u32) -> u32
        requires { IsSearch self.now }
        ensures { IsQuietUpTo self.now op index result }
    {
        match self.around(index) {
            Some(stretch) if stretch.is_quiet(op, self.element) => stretch.past,
            _ => index,
        }
    }

    /// The first counted iteration from an index on that writes the element, or that has an exposed read of it.
    pub(crate) fn first(&self, kind: Kind, from: u32) -> Result<Option<Place>, AllocError>
        requires { IsSearch self.now }
        ensures { IfOk result (FindsFirst self.now kind from) }
    {
        let mut maps = self.start.try_copy(self.alloc)?;
        let mut index = from;
        while index < self.count {
            let next = self.skip(kind, index);
            if index < next {
                index = next;
                continue;
            }
            let trace = trace_iteration(
                self.alloc,
                self.program,
                self.call,
                &mut maps,
                index,
                self.element,
            )?;
            if let Some(slot) = slot_in(kind, trace.slots) {
                return Ok(Some(Place { index, slot }));
            }
            index += 1;
        }
        Ok(None)
    }
}
