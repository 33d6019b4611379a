//! The bytes that an instruction reads and that aren't written.

ghost use Rattle.std.specs.Prelude.{◌≡◌, ◌≤◌, ◌+◌, ◌++◌, OnOk};
ghost use Rattle.bpfspec_records.specs.Units.{byte_records, memory_read, place_records, unread_records};

use crate::adding::add;
use crate::records::{FrameOf, Record};
use bpf_insn_types::{Insn, Reg};
use bpf_verify_model::{AbstractValue, Helper, State, WrittenBytes, reg};
use bpf_verify_values::{atomic_bytes, bytes_of, helper_of};
use std::alloc::AllocError;

/// A read of memory: n bytes at a base register and an offset.
#[derive(Clone, Copy)]
pub struct MemoryRead {
    pub base: Reg,
    pub offset: i16,
    pub size: u32,
}

/// The read of memory that an instruction makes, if it makes one: a lookup reads a key of 4 bytes at r2.
fn memory_read(insn: &Insn) -> Option<MemoryRead>
    ensures { result ≡ memory_read insn.now }
{
    let (base, offset, size) = match *insn {
        Insn::Load {
            size,
            src,
            offset,
            ..
        }
        | Insn::LoadSx {
            size,
            src,
            offset,
            ..
        } => (src, offset, bytes_of(size)),
        Insn::Atomic {
            width,
            dst,
            offset,
            ..
        } => (dst, offset, atomic_bytes(width)),
        Insn::Call { callee, imm } => match helper_of(callee, imm) {
            Some(Helper::Lookup) => (reg(2), 0, 4),
            _ => return None,
        },
        _ => return None,
    };
    Some(MemoryRead { base, offset, size })
}

/// Adds those of n bytes from a position in a frame on that aren't written.
fn add_bytes(
    records: &mut Vec<Record>,
    slot: u32,
    frame: FrameOf,
    written: &WrittenBytes,
    position: u32,
    size: u32,
) -> Result<(), AllocError>
    requires { position + size ≤ 512 }
    ensures { OnOk result (records.new.items
        ≡ records.old.items ++ byte_records slot frame written.now position size) }
{
    for at in 0..size {
        let offset = i64::from(position + at) - 512;
        if !written.all_written((position + at) as usize, 1) {
            add(
                records,
                Record::Unwritten {
                    slot,
                    frame,
                    offset,
                },
            )?;
        }
    }
    Ok(())
}

/// The same from a place on, if all n bytes are in the frame.
fn add_bytes_at(
    records: &mut Vec<Record>,
    slot: u32,
    frame: FrameOf,
    written: &WrittenBytes,
    place: i64,
    size: u32,
) -> Result<(), AllocError>
    ensures { OnOk result (records.new.items ≡ records.old.items ++ place_records slot frame written.now size place) }
{
    if place < 0 || place > 512 - i64::from(size) {
        return Ok(());
    }
    add_bytes(records, slot, frame, written, place as u32, size)
}

/// Adds the bytes that the instruction at a slot reads and that aren't written.
pub(crate) fn add_unwritten_bytes(
    records: &mut Vec<Record>,
    slot: u32,
    insn: &Insn,
    state: &State,
) -> Result<(), AllocError>
    ensures { OnOk result (records.new.items
        ≡ records.old.items ++ unread_records slot state.now (memory_read insn.now)) }
{
    let Some(read) = memory_read(insn) else {
        return Ok(());
    };
    let offset = i64::from(read.offset);
    match state.register(read.base) {
        AbstractValue::Frame(position) => {
            let place = i64::from(position) + offset;
            add_bytes_at(records, slot, FrameOf::Own, &state.own, place, read.size)
        }
        AbstractValue::Ctx(position) => {
            let place = i64::from(position) + offset;
            let written = state.caller.unwrap_or(WrittenBytes::none());
            add_bytes_at(records, slot, FrameOf::Main, &written, place, read.size)
        }
        _ => Ok(()),
    }
}
