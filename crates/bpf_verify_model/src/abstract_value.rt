//! The abstract value of a register.

use value_range::Range;

/// The abstract value of a register: the values that it may have. Frame and ctx addresses count bytes from
/// the lowest of a frame's 512, so that the frame pointer is 512.
#[derive(Clone, Copy)]
pub enum AbstractValue {
    /// Anything; it can't be read.
    Unwritten,
    /// A number of a range.
    Number(Range),
    /// The address of a byte of the own frame.
    Frame(u32),
    /// In a callback, the address of a byte of main's frame.
    Ctx(u32),
    /// A map by its number.
    Map(u32),
    /// The address of a byte of a map's values, at an offset of a range.
    Area(u32, Range),
    /// Such an address, or 0.
    AreaOrNull(u32, Range),
    /// The callback that starts at a slot.
    Code(u32),
}
