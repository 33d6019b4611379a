//! The kinds of operands that a mnemonic takes.

ghost use Rattle.std.specs.Prelude.{◌≡◌};
ghost use Rattle.bpf_text_operands.specs.Operands.{kinds_of};

use bpf_insn_types::ImmKind;
use bpf_text_lex::Mnemonic;

/// What an operand may be.
#[derive(Clone, Copy)]
pub enum Kind {
    /// A register.
    Reg,
    /// A register or a number of 32 bits.
    RegOrImm,
    /// A number of 32 bits.
    Imm,
    /// A number of 64 bits without a sign.
    Wide,
    /// A distance of 16 bits, or a label.
    Distance,
    /// A distance of 32 bits, or a label.
    FarDistance,
    /// The memory at a register and an offset.
    Address,
}

/// The kinds of a line's operands, in order.
#[derive(Clone, Copy)]
pub enum Kinds {
    Zero,
    One(Kind),
    Two(Kind, Kind),
    Three(Kind, Kind, Kind),
}

/// The kinds of operands that a mnemonic takes.
pub(crate) fn kinds_of(mnemonic: Mnemonic) -> Kinds
    ensures { result ≡ kinds_of mnemonic }
{
    match mnemonic {
        Mnemonic::Alu(..) => Kinds::Two(Kind::Reg, Kind::RegOrImm),
        Mnemonic::Neg(_) | Mnemonic::Endian(..) => Kinds::One(Kind::Reg),
        Mnemonic::Movsx(..) => Kinds::Two(Kind::Reg, Kind::Reg),
        Mnemonic::Ja => Kinds::One(Kind::Distance),
        Mnemonic::Ja32 => Kinds::One(Kind::FarDistance),
        Mnemonic::Jump(..) => Kinds::Three(Kind::Reg, Kind::RegOrImm, Kind::Distance),
        Mnemonic::Call(_) => Kinds::One(Kind::Imm),
        Mnemonic::Exit => Kinds::Zero,
        Mnemonic::Load(_) | Mnemonic::LoadSx(_) => Kinds::Two(Kind::Reg, Kind::Address),
        Mnemonic::StoreImm(_) => Kinds::Two(Kind::Address, Kind::Imm),
        Mnemonic::Store(_) | Mnemonic::Atomic(..) => Kinds::Two(Kind::Address, Kind::Reg),
        Mnemonic::LoadImm(ImmKind::Number) => Kinds::Two(Kind::Reg, Kind::Wide),
        Mnemonic::LoadImm(ImmKind::Code) => Kinds::Two(Kind::Reg, Kind::FarDistance),
        Mnemonic::LoadImm(ImmKind::MapFd | ImmKind::Variable | ImmKind::Map) => {
            Kinds::Two(Kind::Reg, Kind::Imm)
        }
        Mnemonic::LoadImm(ImmKind::MapFdValue | ImmKind::MapValue) => {
            Kinds::Three(Kind::Reg, Kind::Imm, Kind::Imm)
        }
    }
}
