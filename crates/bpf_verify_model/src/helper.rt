//! The helpers that a program may call.

/// A helper by its name (bpf-helpers(7)).
#[derive(Clone, Copy)]
pub enum Helper {
    /// Helper 1, bpf_map_lookup_elem.
    Lookup,
    /// Helper 181, bpf_loop.
    Loop,
}
