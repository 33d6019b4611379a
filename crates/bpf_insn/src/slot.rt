//! A slot of 8 bytes as its fields (RFC 9669, section 3).

ghost use Rattle.std.specs.Prelude.{◌≡◌, ◌<◌, ◌≤◌, ◌++◌, length, OnOk};
ghost use Rattle.bpf_insn.specs.SlotBytes.{slot, slot_bytes, slot_at};

use crate::form::{Form, opcode_of};
use std::alloc::AllocError;

/// The fields of a slot as they are encoded. A register field is the half of a byte, 0 to 15.
#[derive(Clone, Copy)]
pub struct Slot {
    pub opcode: u8,
    pub dst: u8,
    pub src: u8,
    pub offset: i16,
    pub imm: i32,
}

impl Slot {
    /// The slot of a form with these fields.
    pub fn of_form(form: Form, dst: u8, src: u8, offset: i16, imm: i32) -> Slot
        ensures { result ≡ slot form dst src offset imm }
    {
        Slot {
            opcode: opcode_of(form),
            dst,
            src,
            offset,
            imm,
        }
    }

    /// The slot that the first 8 bytes are.
    pub fn from_bytes(bytes: &[u8]) -> Slot
        requires { 8 ≤ length bytes.now }
        ensures { result ≡ slot_at bytes.now }
    {
        Slot {
            opcode: bytes[0],
            dst: bytes[1] % 16,
            src: bytes[1] / 16,
            offset: i16::from_le_bytes([bytes[2], bytes[3]]),
            imm: i32::from_le_bytes([bytes[4], bytes[5], bytes[6], bytes[7]]),
        }
    }

    /// Writes its 8 bytes at the end.
    pub fn push_bytes(self, bytes: &mut Vec<u8>) -> Result<(), AllocError>
        requires dst { self.dst < 16 }
        requires src { self.src < 16 }
        ensures { OnOk result (bytes.new.items ≡ bytes.old.items ++ slot_bytes self) }
    {
        bytes.extend_from_slice(&[self.opcode, self.dst + 16 * self.src])?;
        bytes.extend_from_slice(&self.offset.to_le_bytes())?;
        bytes.extend_from_slice(&self.imm.to_le_bytes())
    }
}
