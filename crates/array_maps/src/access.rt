//! The operators and parts of accesses.

ghost use Rattle.array_maps.specs.Accesses.{EachElement};

/// An operator that changes an element without telling what was there.
#[derive(Clone, Copy, Debug, PartialEq)]
pub enum Op {
    Add,
    Or,
    And,
    Xor,
    /// Adds both halves apart, each modulo 2^32.
    AddH,
}

/// A change of an element that says what was there.
#[derive(Clone, Copy)]
pub enum Rmw {
    /// Applies an operator.
    Op(Op),
    /// Stores a value.
    Xchg,
    /// Stores a value where the element equals another.
    CmpXchg,
}

/// A half of an element: 4 of its 8 bytes.
#[derive(Clone, Copy)]
pub enum Half {
    Low,
    High,
}

/// What an access is of: a whole element, or a half of it.
#[derive(Clone, Copy)]
pub enum Part {
    Whole,
    Half(Half),
}

/// The law that a list of accesses acts on each element by itself. Nothing runs here: the contract is
/// the law.
pub fn each_element()
    ensures { EachElement }
{}
