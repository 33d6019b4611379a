//! What the reduces of an element combined.

ghost use Rattle.std.specs.Prelude.{◌≡◌};
ghost use Rattle.private_copy.specs.Reductions.{reduced, combination};

use array_maps::{Op, combine};

/// What was done at an element, as far as its reduces go.
#[derive(Clone, Copy)]
pub enum Reduction {
    /// Nothing.
    Untouched,
    /// Reduces by one operator alone, whose operands combined are this, beginning with the first.
    By(Op, u64),
    /// A plain access, or reduces by different operators.
    Mixed,
}

impl Reduction {
    /// The same after one reduce more.
    #[inline]
    pub fn with(self, op: Op, operand: u64) -> Reduction
        ensures { result ≡ reduced self op operand }
    {
        match self {
            Reduction::Untouched => Reduction::By(op, operand),
            Reduction::By(first, so_far) => {
                if first == op {
                    Reduction::By(first, combine(first, so_far, operand))
                } else {
                    Reduction::Mixed
                }
            }
            Reduction::Mixed => Reduction::Mixed,
        }
    }

    /// The operator and its operands combined, where there were reduces by one operator alone.
    pub fn combination(self) -> Option<(Op, u64)>
        ensures { result ≡ combination self }
    {
        match self {
            Reduction::By(op, combined) => Some((op, combined)),
            Reduction::Untouched | Reduction::Mixed => None,
        }
    }
}
