//! Where instructions stand, and in which functions.

ghost use Rattle.std.specs.Prelude.{◌≡◌, ◌<◌, ◌≤◌, ◌&&◌, false, if◌then◌else◌, ◌++◌, ◌∷◌, [], length, slice_index_or};
ghost use Rattle.std.specs.Prelude.{option_to_list, IfSome, IfNone, IfOk, IfErr, OnOk};
ghost use Rattle.bpf_insn_types.specs.Program.{slot_count};
ghost use Rattle.bpf_verify.specs.{SlotFlags.{slot_flagged, StartFlags, NamedFlags}, Layout.{IsLayout}};

use crate::error::VerifyError;
use bpf_insn_types::{Insn, slots};
use bpf_verify_values::named_by;
use std::alloc::Global;

/// The function of the instruction that starts at each slot, if one does, and where the callbacks
/// start.
#[derive(Drop)]
pub struct Layout {
    pub places: Vec<Option<u32>>,
    pub starts: Vec<u32>,
}

/// Marks a slot, if it is one of the marks'.
fn mark(marks: &mut Vec<bool>, slot: Option<u32>)
    ensures { marks.new.items ≡ slot_flagged marks.old.items slot }
{
    let Some(slot) = slot else {
        return;
    };
    let at = slot as usize;
    if at < marks.len() {
        marks[at] = true;
    }
}

/// Marks the slots where instructions start.
fn begins(alloc: Global, insns: &[Insn], count: u32) -> Result<Vec<bool>, VerifyError>
    requires slots { slot_count insns.now ≡ count }
    requires few { count ≤ 4096 }
    ensures ok { IfOk result (λ marks. StartFlags insns.now marks.items) }
    ensures err { IfErr result (λ e. e ≡ VerifyError.Memory) }
{
    let mut marks = vec![in alloc; false; count as usize]?;
    let mut slot = 0;
    for insn in insns {
        mark(&mut marks, Some(slot));
        slot += slots(insn);
    }
    Ok(marks)
}

/// Marks the slots that code addresses name.
fn named(alloc: Global, insns: &[Insn], count: u32) -> Result<Vec<bool>, VerifyError>
    requires slots { slot_count insns.now ≡ count }
    requires few { count ≤ 4096 }
    ensures ok { IfOk result (λ marks. NamedFlags insns.now marks.items) }
    ensures err { IfErr result (λ e. e ≡ VerifyError.Memory) }
{
    let mut marks = vec![in alloc; false; count as usize]?;
    let mut slot = 0;
    for insn in insns {
        mark(&mut marks, named_by(slot, *insn));
        slot += slots(insn);
    }
    Ok(marks)
}

/// The slot, if a callback starts there.
fn start_at(begins: &[bool], named: &[bool], slot: usize) -> Option<u32>
    requires begins { slot < length begins.now }
    requires named { slot < length named.now }
    requires few { slot < 4096 }
    ensures { result ≡ if slice_index_or named.now slot false && slice_index_or begins.now slot false then Some slot
        else None }
{
    if named[slot] && begins[slot] {
        Some(slot as u32)
    } else {
        None
    }
}

fn add_start(starts: &mut Vec<u32>, start: Option<u32>) -> Result<(), VerifyError>
    ensures ok { OnOk result (starts.new.items ≡ starts.old.items ++ option_to_list start) }
    ensures err { IfErr result (λ e. e ≡ VerifyError.Memory) }
{
    match start {
        None => Ok(()),
        Some(start) => Ok(starts.push(start)?),
    }
}

/// A function, if an instruction starts at the slot.
fn place_at(begins: &[bool], slot: usize, function: u32) -> Option<u32>
    requires { slot < length begins.now }
    ensures { result ≡ if slice_index_or begins.now slot false then Some function else None }
{
    if begins[slot] { Some(function) } else { None }
}

fn add_place(places: &mut Vec<Option<u32>>, place: Option<u32>) -> Result<(), VerifyError>
    ensures ok { OnOk result (places.new.items ≡ places.old.items ++ place ∷ []) }
    ensures err { IfErr result (λ e. e ≡ VerifyError.Memory) }
{
    Ok(places.push(place)?)
}

/// Numbers the functions from slot to slot.
fn numbered(
    alloc: Global,
    insns: &[Insn],
    begins: &[bool],
    named: &[bool],
) -> Result<Layout, VerifyError>
    requires begins { StartFlags insns.now begins.now }
    requires named { NamedFlags insns.now named.now }
    requires few { slot_count insns.now ≤ 4096 }
    ensures ok { IfOk result (λ layout. IsLayout insns.now layout) }
    ensures err { IfErr result (λ e. e ≡ VerifyError.Memory) }
{
    let mut places = Vec::new(alloc);
    let mut starts = Vec::new(alloc);
    for slot in 0..begins.len() {
        add_start(&mut starts, start_at(begins, named, slot))?;
        add_place(&mut places, place_at(begins, slot, starts.len() as u32))?;
    }
    Ok(Layout { places, starts })
}

/// The layout of instructions that take n slots.
pub(crate) fn layout_of(alloc: Global, insns: &[Insn], count: u32) -> Result<Layout, VerifyError>
    requires slots { slot_count insns.now ≡ count }
    requires few { count ≤ 4096 }
    ensures ok { IfOk result (λ layout. IsLayout insns.now layout) }
    ensures err { IfErr result (λ e. e ≡ VerifyError.Memory) }
{
    let begins = begins(alloc, insns, count)?;
    let named = named(alloc, insns, count)?;
    numbered(alloc, insns, &begins, &named)
}
