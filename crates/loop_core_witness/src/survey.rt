//! What the iterations of a loop did, stretch by stretch.

ghost use Rattle.std.specs.Prelude.{◌≡◌, ◌/◌, ◌<◌, length};
ghost use Rattle.shadow_marks.specs.Standing.{ArePlanes, EachPlane};
ghost use Rattle.loop_core_witness.specs.Surveys.{is_other, reduces_by_other, does_more};

use crate::kind::Kind;
use array_maps::Op;
use shadow_marks::{OperatorPlanes, Planes, Tested, is_set};

/// Iterations of a loop call that follow each other, each run on the start maps. None of them breaks the loop.
#[derive(Drop)]
pub struct Stretch {
    /// The first index.
    pub first: u32,
    /// The index after the last one.
    pub past: u32,
    /// Their marks, for the LRPD test.
    pub planes: Planes,
}

/// Stretches of a loop call's iterations. By their marks a search passes those in which nothing is that it looks for.
#[derive(Drop)]
pub struct Survey {
    /// A search looks for an index in stretch index / size.
    pub size: u32,
    /// The stretches.
    pub stretches: Vec<Stretch>,
}

/// Whether an operator isn't the one that is kept, if one is.
fn is_other(kept: Option<Op>, op: Op) -> bool
    ensures { result ≡ is_other kept op }
{
    match kept {
        None => true,
        Some(kept) => kept != op,
    }
}

/// Whether an iteration reduces an element by such an operator, as planes show.
fn reduces_by_other(planes: &OperatorPlanes, kept: Option<Op>, e: u32) -> bool
    requires { EachPlane (λ words. e / 64 < length words) planes.now }
    ensures { result ≡ reduces_by_other planes.now kept e }
{
    is_other(kept, Op::Add) && is_set(&planes.add, e)
        || is_other(kept, Op::Or) && is_set(&planes.or, e)
        || is_other(kept, Op::And) && is_set(&planes.and, e)
        || is_other(kept, Op::Xor) && is_set(&planes.xor, e)
        || is_other(kept, Op::AddH) && is_set(&planes.addh, e)
}

/// Whether an iteration does more at an element than reduce it by the operator that is kept, as planes show; where none
/// is, whether it accesses it. Each access is plain or by an operator.
pub(crate) fn does_more(planes: &Planes, kept: Option<Op>, e: u32) -> bool
    requires whole { ArePlanes planes.now }
    requires below { e < planes.now.elements }
    ensures { result ≡ does_more planes.now kept e }
{
    is_set(&planes.plain, e) || reduces_by_other(&planes.operators, kept, e)
}

impl Stretch {
    ghost use Rattle.std.specs.Prelude.{◌≡◌, Option};
    ghost use Rattle.shadow_marks.specs.Standing.{ArePlanes};
    ghost use Rattle.loop_core_witness.specs.Surveys.{lacks, is_quiet};

    /// Whether none of its iterations does what is looked for at an element, as its planes show.
    pub(crate) fn lacks(&self, kind: Kind, e: u32) -> bool
        requires { ArePlanes self.now.planes }
        ensures { result ≡ lacks kind self.now.planes e }
    {
        let Tested::Lrpd(planes) = &self.planes.tested else {
            return false;
        };
        e < self.planes.elements
            && match kind {
                Kind::FirstWrite => !is_set(&planes.written, e),
                Kind::ExposedRead => !is_set(&planes.read_only, e)
                    && !is_set(&planes.read_and_written, e),
            }
    }

    /// Whether its iterations don't end a reduction of an element by an operator, as its planes show; if there was
    /// none yet, whether they don't access the element.
    pub(crate) fn is_quiet(&self, op: Option<Op>, element: u32) -> bool
        requires { ArePlanes self.now.planes }
        ensures { result ≡ is_quiet op self.now.planes element }
    {
        element < self.planes.elements && !does_more(&self.planes, op, element)
    }
}
