//! Which of two numbers is kept.

/// Of two numbers, the one that is kept.
#[derive(Clone, Copy)]
pub(crate) enum Kept {
    Lesser,
    Greater,
}
