//! Pages of elements.

/// Elements in a page: as many as a word of a plane has bits. Marks, saved words and what a pass leaves are handled
/// page by page.
pub const PAGE: u32 = 64;
