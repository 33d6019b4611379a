//! Kinds of accesses.

ghost use Rattle.std.specs.Prelude.{◌≡◌};
ghost use Rattle.lane_stamps.specs.Sites.{leaves, loads, is_of_halves};

use array_maps::Op;

/// What is done at a place: at an element, or at a half of one.
#[derive(Clone, Copy)]
pub enum Kind {
    /// The word of an element is loaded.
    Load,
    /// A half of it is loaded.
    LoadHalf,
    /// Another word is stored.
    Store,
    /// The word is loaded, and another one stored.
    Fetch,
    /// A half is replaced.
    Replace,
    /// A half is loaded, and replaced.
    FetchHalf,
    /// A number is added to a half, modulo 2^32.
    AddHalf,
    /// An operator is applied to the word.
    Apply(Op),
}

impl Kind {
    /// Whether lanes go on with what they find.
    #[inline(always)]
    pub fn loads(self) -> bool
        ensures { result ≡ loads self }
    {
        matches!(
            self,
            Kind::Load | Kind::LoadHalf | Kind::Fetch | Kind::FetchHalf
        )
    }

    /// Whether they leave something.
    #[inline(always)]
    pub fn leaves(self) -> bool
        ensures { result ≡ leaves self }
    {
        !matches!(self, Kind::Load | Kind::LoadHalf)
    }

    /// Whether places are halves, and not elements.
    #[inline(always)]
    pub fn is_of_halves(self) -> bool
        ensures { result ≡ is_of_halves self }
    {
        matches!(
            self,
            Kind::LoadHalf | Kind::Replace | Kind::FetchHalf | Kind::AddHalf
        )
    }
}
