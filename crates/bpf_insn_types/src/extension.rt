//! How a loaded number fills its register.

/// By zeros or by its sign (RFC 9669, sections 5.1 and 5.2).
#[derive(Clone, Copy, PartialEq)]
pub enum Extension {
    Zeros,
    Signs,
}
