//! What a text or a hex input describes: the maps' sizes and the program.

use crate::insn::Insn;
use std::marker::Model;

/// A program with the maps that it declares. In contracts it is its sizes and instructions.
#[derive(Drop)]
pub struct Unit {
    /// The number of elements of each map, map 0 first.
    pub sizes: Vec<u32>,
    /// The instructions in order.
    pub insns: Vec<Insn>,
}

impl Model for Unit {
    ghost use Rattle.bpf_insn_types.specs.Program.{Program};

    ghost Value = { Program };

    ghost view = { λ u. record { sizes = u.sizes.items; insns = u.insns.items } };
}
