//! The conditions of the two ways of a conditional jump.

ghost use Rattle.std.specs.Prelude.{◌≡◌, ℕ, not};
ghost use Rattle.bpf_insn_types.specs.{declared.insn.Width.{Width}, Words.{holds}};
ghost use Rattle.value_range.specs.{declared.condition.Condition.TheVariants.{Holds}, RefineRows.{says, opposite}};

use bpf_insn_types::{Compare, Width, compare_words};

/// What is known on one way of a conditional jump.
#[derive(Clone, Copy)]
pub enum Condition {
    /// The comparison holds.
    Holds(Compare),
    /// The operands have no bit in common.
    NotSet,
}

impl Condition {
    /// On the way that is taken: the comparison itself.
    pub fn taken(compare: Compare) -> Condition
        ensures equal { result ≡ Holds compare }
        ensures meaning { (width : Width) (a b : ℕ) → says result width a b ≡ holds width compare a b }
    {
        Condition::Holds(compare)
    }

    /// On the way that isn't taken: the opposite comparison.
    pub fn not_taken(compare: Compare) -> Condition
        ensures equal { result ≡ opposite compare }
        ensures meaning { (width : Width) (a b : ℕ) → says result width a b ≡ not (holds width compare a b) }
    {
        opposite_of(compare)
    }

    /// Whether two words meet it, at 32 bits by their lower halves.
    pub fn says(self, width: Width, a: u64, b: u64) -> bool
        ensures { result ≡ says self width a b }
    {
        match self {
            Condition::Holds(test) => compare_words(width, test, a, b),
            Condition::NotSet => !compare_words(width, Compare::Set, a, b),
        }
    }
}

/// The condition where the comparison doesn't hold.
fn opposite_of(compare: Compare) -> Condition
    ensures { result ≡ opposite compare }
{
    match compare {
        Compare::Eq => Condition::Holds(Compare::Ne),
        Compare::Gt => Condition::Holds(Compare::Le),
        Compare::Ge => Condition::Holds(Compare::Lt),
        Compare::Set => Condition::NotSet,
        Compare::Ne => Condition::Holds(Compare::Eq),
        Compare::Sgt => Condition::Holds(Compare::Sle),
        Compare::Sge => Condition::Holds(Compare::Slt),
        Compare::Lt => Condition::Holds(Compare::Ge),
        Compare::Le => Condition::Holds(Compare::Gt),
        Compare::Slt => Condition::Holds(Compare::Sge),
        Compare::Sle => Condition::Holds(Compare::Sgt),
    }
}
