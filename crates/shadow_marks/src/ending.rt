//! The end of an iteration: its flags come into the planes.

ghost use Rattle.std.specs.Prelude.{◌≡◌, ◌+◌, ◌/◌, ◌<◌, ℕ, List, length};
ghost use Rattle.array_maps.specs.Accesses.{Action};
ghost use Rattle.loop_core_model.specs.Marks.{Visit, Marks, marks_of_one, merged};
ghost use Rattle.shadow_marks.specs.{Iteration.{element_count, flags_at, AreFlagsOf, IsEmptied}, Kept.{flags_in}};
ghost use Rattle.shadow_marks.specs.Standing.{EachPlane, ArePlanes, StandAt, StandFor, one_more};
ghost use Rattle.shadow_marks.specs.Ending.{OperatorsFold, KeepsShape, Folds, TestedHave, TestedFolds};

use crate::bits::{is_set, or_bit};
use crate::element_flags::{ElementFlags, Flag};
use crate::iter_flags::IterFlags;
use crate::planes::{NO_WRITER, OperatorPlanes, Planes, Tested};
use array_maps::Op;

impl Planes {
    /// Ends the iteration of an index: what its flags tell comes into the planes, and the flags are
    /// emptied. Planes and flags are for as many elements, and the index is below 4,294,967,295.
    pub fn end_iteration(&mut self, flags: &mut IterFlags, index: u32)
        requires whole { ArePlanes self.old }
        requires elements { element_count flags.old ≡ self.old.elements }
        requires index { index < NO_WRITER }
        ensures shape { KeepsShape self.old self.new }
        ensures marks { (e : ℕ) (marks : Marks) → StandAt self.old e marks
            → StandAt self.new e (merged marks (marks_of_one index (flags_at flags.old e))) }
        ensures visits { (visits : ℕ → List Visit) (actions : ℕ → List Action) → AreFlagsOf actions flags.old
            → StandFor self.old visits → StandFor self.new (one_more visits index actions) }
        ensures emptied { IsEmptied flags.new }
        ensures same_elements { element_count flags.new ≡ element_count flags.old }
    {
        while let Some((e, kept)) = flags.take() {
            self.fold(e, kept, index);
        }
    }

    /// Merges the flags of one element into its marks. Most iterations touch few elements, so the planes
    /// are looked up here, at each, and not once before the loop.
    #[inline(never)]
    fn fold(&mut self, e: u32, kept: ElementFlags, index: u32)
        requires whole { ArePlanes self.old }
        requires in_range { e < self.old.elements }
        requires index { index < NO_WRITER }
        ensures { Folds self.old self.new e index (flags_in kept) }
    {
        or_bit(&mut self.plain, e, kept.has(Flag::Plain));
        self.operators.fold(e, kept);
        self.tested.fold(e, kept, index);
    }
}

impl OperatorPlanes {
    /// Sets an element's bits of the operators that it was reduced by.
    #[inline]
    fn fold(&mut self, e: u32, kept: ElementFlags)
        requires { EachPlane (λ words. e / 64 < length words) self.old }
        ensures { OperatorsFold self.old self.new e (flags_in kept) }
    {
        if !kept.reduces() {
            return;
        }
        or_bit(&mut self.add, e, kept.has(Flag::By(Op::Add)));
        or_bit(&mut self.or, e, kept.has(Flag::By(Op::Or)));
        or_bit(&mut self.and, e, kept.has(Flag::By(Op::And)));
        or_bit(&mut self.xor, e, kept.has(Flag::By(Op::Xor)));
        or_bit(&mut self.addh, e, kept.has(Flag::By(Op::AddH)));
    }
}

impl Tested {
    /// Merges what a test needs of the flags of one element.
    #[inline]
    fn fold(&mut self, e: u32, kept: ElementFlags, index: u32)
        requires have { TestedHave self.old e }
        requires index { index < NO_WRITER }
        ensures { TestedFolds self.old self.new e (flags_in kept) index }
    {
        let wrote = kept.has(Flag::Wrote);
        let looked = kept.has(Flag::Looked);
        match self {
            Tested::Lrpd(planes) => {
                let by_two = wrote && is_set(&planes.written, e);
                or_bit(&mut planes.written_by_two, e, by_two);
                or_bit(&mut planes.written, e, wrote);
                or_bit(&mut planes.read_only, e, looked && !wrote);
                or_bit(&mut planes.read_and_written, e, looked && wrote);
            }
            Tested::Flow(planes) => {
                let e = e as usize;
                if wrote {
                    planes.first[e] = planes.first[e].min(index);
                }
                if looked {
                    planes.last[e] = planes.last[e].max(index + 1);
                }
            }
        }
    }
}
