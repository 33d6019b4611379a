//! Least breaks: of the indices at which blocks broke, the least that is known.

ghost use Rattle.std.specs.Prelude.{◌≡◌};
ghost use Rattle.loop_core_model.specs.{LeastBreak.{lesser as lesser_break}, Gather.{starts_late}};

/// The lesser of two breaks, of which each may be there or not.
pub fn lesser(index: Option<u32>, other: Option<u32>) -> Option<u32>
    ensures { result ≡ lesser_break index other }
{
    match (index, other) {
        (None, other) => other,
        (Some(index), None) => Some(index),
        (Some(index), Some(other)) => Some(index.min(other)),
    }
}

/// Whether a block that starts at this index starts past the least break, where there is one.
pub fn is_late(least: Option<u32>, start: u32) -> bool
    ensures { result ≡ starts_late least start }
{
    match least {
        None => false,
        Some(index) => index < start,
    }
}
