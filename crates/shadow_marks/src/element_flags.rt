//! What the iteration under way did at one element.

ghost use Rattle.std.specs.Prelude.{◌≡◌, false, ◌^◌};
ghost use Rattle.array_maps.specs.declared.access.Op.{Op as Operator};
ghost use Rattle.loop_core_model.specs.Flags.{flagged};
ghost use Rattle.shadow_marks.specs.Kept.{bit_place, has_flag, flags_in, with_flag, with_read};

use array_maps::Op;
use loop_core_model::Access;

/// What an iteration may have done at an element.
#[derive(Clone, Copy)]
pub(crate) enum Flag {
    /// It writes or reduces the element.
    Wrote,
    /// It read or reduced it before it wrote or reduced it itself: an exposed read.
    Looked,
    /// It made an access that is no reduce.
    Plain,
    /// It reduced by this operator.
    By(Op),
}

/// The flags of an iteration at an element, a bit for each: what it did there so far. Each access sets
/// one at least.
#[derive(Clone, Copy)]
pub(crate) struct ElementFlags {
    pub(crate) bits: u8,
}

/// The bits of all operators.
const OPERATORS: u8 = 0b1111_1000;

impl ElementFlags {
    /// Whether a flag is set.
    #[inline]
    pub(crate) fn has(self, flag: Flag) -> bool
        ensures { result ≡ has_flag self flag }
    {
        self.bits & bit(flag) != 0
    }

    /// Whether it reduced by any operator.
    #[inline]
    pub(crate) fn reduces(self) -> bool
        ensures { result ≡ false → (op : Operator) → (flags_in self).by op ≡ false }
    {
        self.bits & OPERATORS != 0
    }

    /// The flags after one access more.
    #[inline]
    pub(crate) fn after(self, access: Access) -> ElementFlags
        ensures { flags_in result ≡ flagged (flags_in self) access }
    {
        match access {
            Access::Read => self.look().with(Flag::Plain),
            Access::Write => self.with(Flag::Wrote).with(Flag::Plain),
            Access::Both => self.look().with(Flag::Wrote).with(Flag::Plain),
            Access::Reduce(op) => self.look().with(Flag::Wrote).with(Flag::By(op)),
        }
    }

    /// The flags after a look at the element, which is exposed where the iteration hasn't written it.
    #[inline]
    fn look(self) -> ElementFlags
        ensures { flags_in result ≡ with_read (flags_in self) }
    {
        if self.has(Flag::Wrote) {
            return self;
        }
        self.with(Flag::Looked)
    }

    /// The same with a flag more.
    #[inline]
    fn with(self, flag: Flag) -> ElementFlags
        ensures { flags_in result ≡ with_flag flag (flags_in self) }
    {
        ElementFlags {
            bits: self.bits | bit(flag),
        }
    }
}

/// A flag's bit.
#[inline]
fn bit(flag: Flag) -> u8
    ensures { result ≡ 2 ^ bit_place flag }
{
    match flag {
        Flag::Wrote => 1,
        Flag::Looked => 2,
        Flag::Plain => 4,
        Flag::By(Op::Add) => 8,
        Flag::By(Op::Or) => 16,
        Flag::By(Op::And) => 32,
        Flag::By(Op::Xor) => 64,
        Flag::By(Op::AddH) => 128,
    }
}
