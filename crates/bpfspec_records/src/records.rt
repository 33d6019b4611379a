//! Records: the facts of an input.

use crate::loop_facts::{CellFact, GridFact, LoopFact, PairFact};
use bpf_insn_types::{Insn, Reg};
use bpf_verify_model::AbstractValue;
use bpf_verify_origin::Source;
use bpfspec_output::{Function, Refusal};
use loop_core_model::Test;

/// Whose frame a byte is in.
#[derive(Clone, Copy)]
pub enum FrameOf {
    /// The own one of main or of the callback.
    Own,
    /// In a callback, that of main.
    Main,
}

/// A fact of an input: one line of what is printed.
#[derive(Clone, Copy)]
pub enum Record {
    /// What was asked: the form of the unit, the argument of main, the test, and which facts.
    Header {
        hex: bool,
        argument: u64,
        test: Test,
        states: bool,
        all: bool,
        grid: bool,
    },
    /// Why the input has no result.
    Refusal(Refusal),
    /// A function of an accepted program, by its number.
    Function {
        number: u32,
        function: Function,
    },
    /// A map by its number, and how many elements it has.
    Map {
        map: usize,
        elements: u32,
    },
    /// An instruction, whether a path leads there, and the slots to which its edges lead.
    Insn {
        slot: u32,
        insn: Insn,
        reached: bool,
        ahead: Option<u32>,
        aside: Option<u32>,
    },
    /// What a register may have before a slot, or on the edges from there to another.
    Value {
        slot: u32,
        to: Option<u32>,
        register: Reg,
        value: AbstractValue,
    },
    /// Where a register's value comes from that the instruction at a slot reads.
    Read {
        slot: u32,
        register: Reg,
        source: Source,
    },
    /// A byte that an instruction reads and that isn't written, from -512 to -1 past the frame's end.
    Unwritten {
        slot: u32,
        frame: FrameOf,
        offset: i64,
    },
    /// A call of a loop.
    Loop(LoopFact),
    /// Two iterations of a loop that fail the test at an element.
    Pair(PairFact),
    /// The iterations of a loop that a picture shows.
    Grid(GridFact),
    /// What an iteration of a loop does at an element.
    Cell(CellFact),
    /// The last line: the exit status.
    End {
        status: u8,
    },
}
