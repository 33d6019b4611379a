//! By which test a loop is judged.

/// Which pairs of iterations make an element conflict, where one of the two writes it and the other
/// has an exposed read of it.
#[derive(Clone, Copy, Debug, PartialEq)]
pub enum Test {
    /// Any two different iterations: this project's variant of the LRPD test.
    Lrpd,
    /// Those alone whose writer has the lesser index: in order, nothing else can harm a reader.
    Flow,
}
