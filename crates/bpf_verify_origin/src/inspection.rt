//! An inspected program.

ghost use Rattle.std.specs.{Prelude.{◌≡◌, ℕ, IfSome, None}, Option.{option_map}};
ghost use Rattle.bpf_insn_types.specs.Program.{insn_at};
ghost use Rattle.bpf_verify_model.specs.{Inflow.{received_all, state_before}, Accepted.{first_fault}};
ghost use Rattle.bpf_verify_origin.specs.{Edges.{flow_passed, inflow}, RunSources.{IsSourceBefore, SourcesHold}};
ghost use Rattle.bpf_verify_origin.specs.{Runs.{HoldsBefore, HoldsBetween, StatesHold}, Sources.{source_before}};
ghost use Rattle.bpf_verify_origin.specs.Inspected.{broken_rule, IsPassedTo, IsStateBefore};

use crate::fault::Fault;
use crate::finding::insn_in;
use crate::inflow::Inflow;
use crate::inflows::inflow_in;
use crate::laws::{law_of_sources, law_of_states};
use crate::outflow::{no_outflow, outflow, state_in};
use crate::source::Source;
use crate::writing::source_at;
use bpf_insn_types::{Insn, Reg, Unit};
use bpf_verify_model::{Outflow, State};
use std::marker::Model;

/// A unit with its first fault, and what is known of it up to there. In contracts it is the unit's program.
#[derive(Drop)]
pub struct Inspection {
    pub(crate) unit: Unit,
    pub(crate) fault: Option<Fault>,
    /// How many slots are before the first fault.
    pub(crate) passed: u32,
    pub(crate) by_slot: Vec<Option<Insn>>,
    pub(crate) states: Vec<Option<State>>,
    pub(crate) inflows: Vec<Inflow>,
}

impl Model for Inspection {
    ghost use Rattle.bpf_insn_types.specs.Program.{Program};
    ghost use Rattle.bpf_verify_origin.specs.Inspected.{IsInspection};

    ghost Value = { Program };

    ghost view = { λ i. i.unit };

    ghost invariant = { λ i. IsInspection i.unit i.fault i.passed i.by_slot.items i.states.items i.inflows.items };
}

impl Inspection {
    /// The unit.
    pub fn unit(&self) -> &Unit
        ensures { result.now ≡ self.now }
    {
        &self.unit
    }

    /// How many elements each map has.
    pub fn sizes(&self) -> &[u32]
        ensures { result.now ≡ self.now.sizes }
    {
        self.unit.sizes.as_slice()
    }

    /// The first fault, if the unit breaks a rule.
    pub fn fault(&self) -> Option<Fault>
        ensures { option_map broken_rule result ≡ first_fault self.now }
    {
        self.fault
    }

    /// The instruction that starts at a slot, if one does.
    pub fn insn(&self, slot: u32) -> Option<Insn>
        ensures { result ≡ insn_at self.now.insns slot }
    {
        insn_in(self.by_slot.as_slice(), slot)
    }

    /// The abstract states and the sources of values hold on the program's runs.
    fn holds(&self)
        ensures states { StatesHold self.now }
        ensures sources { SourcesHold self.now }
    {
        let _kept = self.fault;
        law_of_states();
        law_of_sources();
    }

    /// The abstract state before a slot, up to the first fault where an instruction starts; None where no edge
    /// leads there. A run that reaches the slot is within it.
    pub fn state(&self, slot: u32) -> Option<State>
        ensures passed { IfSome result (λ state. IsStateBefore self.now slot state) }
        ensures whole { IsPassedTo self.now slot → result ≡ state_before self.now slot }
        ensures runs { IsPassedTo self.now slot → HoldsBefore self.now slot result }
    {
        self.holds();
        let Some(_insn) = self.insn(slot) else {
            return None;
        };
        if slot > self.passed {
            return None;
        }
        state_in(self.states.as_slice(), slot)
    }

    /// The edges out of a slot before the first fault, with the abstract states on them; no edges where no instruction
    /// starts there, from the first fault on, and where the slot isn't reached. A run that goes from the slot
    /// to another is within the abstract state on the edges to that other.
    pub fn flow(&self, slot: u32) -> Outflow
        ensures is { result ≡ flow_passed self.now slot }
        ensures runs { (to : ℕ) → HoldsBetween self.now slot to (received_all to None result) }
    {
        self.holds();
        if slot >= self.passed {
            return no_outflow();
        }
        outflow(self.sizes(), slot, self.insn(slot), &self.state(slot))
    }

    /// Where the edges into a slot come from, of those out of the slots before the first fault.
    pub fn inflow(&self, slot: u32) -> Inflow
        ensures { result ≡ inflow self.now slot }
    {
        inflow_in(self.inflows.as_slice(), slot)
    }

    /// Where the value of a register before a slot comes from, also on each run that reaches the slot: it is followed
    /// back along the edges, slot by slot.
    pub fn source(&self, slot: u32, reg: Reg) -> Source
        ensures is { result ≡ source_before self.now slot reg }
        ensures runs { IsSourceBefore self.now slot reg result }
    {
        self.holds();
        let mut at = slot;
        while at > 0 {
            let from = match self.inflow(at) {
                Inflow::Nowhere => return Source::Start,
                Inflow::One(from) => from,
                Inflow::Several => return Source::Meeting(at),
            };
            let Some(insn) = self.insn(from) else {
                return Source::Start;
            };
            if let Some(source) = source_at(&insn, from, at, reg) {
                return source;
            }
            // Edges lead to later slots.
            if from >= at {
                return Source::Start;
            }
            at = from;
        }
        Source::Start
    }
}
