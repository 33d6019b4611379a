//! The rules.

ghost use Rattle.std.specs.Prelude.{◌≡◌};
ghost use Rattle.bpf_verify_model.specs.RuleNumbers.{rule_number};

/// A rule that a program breaks at a slot. Where several are broken, the least counts.
#[derive(Clone, Copy, Debug, PartialEq)]
pub enum Rule {
    /// V1: there is no slot.
    NoSlot,
    /// V2: there are more than 4,096 slots, or the maps' sizes break the limits.
    OverLimits,
    /// V3: a jump's target isn't a later slot where an instruction of the same function starts.
    JumpTarget,
    /// V4: an instruction other than an exit or an unconditional jump isn't followed by one of the same
    /// function.
    FallThrough,
    /// V5: a code address's target isn't the first slot of an instruction past the load.
    CodeTarget,
    /// V6: the code addresses up to this slot have more than 15 targets.
    TooManyCallbacks,
    /// V7: the helper isn't 1 or 181.
    UnknownHelper,
    /// V8: a call of a function of the program, or of a helper by its BTF number.
    CallKind,
    /// V9: a load of a map by its file descriptor, or of a variable.
    LoadKind,
    /// V10: there is no such map, or no such byte of its values.
    MissingMap,
    /// V11: the instruction writes R10.
    FramePointerWrite,
    /// V12: it reads an unwritten register.
    UnwrittenRegister,
    /// V13: an operand of arithmetic isn't of a kind that it takes.
    ArithmeticOperand,
    /// V14: an operand of a comparison isn't of a kind that it takes.
    ComparisonOperand,
    /// V15: what is stored, or an atomic operation's operand, isn't a number.
    StoredOperand,
    /// V16: the base of an access isn't an address of memory.
    AccessBase,
    /// V17: an access of a map's values isn't of 8 or 4 bytes.
    AreaAccessSize,
    /// V18: an access isn't aligned.
    AccessAlignment,
    /// V19: an access isn't within its frame, or within its map's values.
    AccessBounds,
    /// V20: a byte that is read isn't written.
    UnwrittenByte,
    /// V21: a callback writes main's frame.
    CtxWrite,
    /// V22: a helper's argument isn't of the kind that it takes.
    HelperArgument,
    /// V23: a callback calls a loop or names a callback.
    NestedCallback,
    /// V24: a callback doesn't end with 0 or 1.
    CallbackResult,
    /// V25: main doesn't end with a number.
    MainResult,
}

impl Rule {
    /// The number that is printed with a V in front: 1 to 25.
    pub fn number(self) -> u32
        ensures { result ≡ rule_number self }
    {
        match self {
            Rule::NoSlot => 1,
            Rule::OverLimits => 2,
            Rule::JumpTarget => 3,
            Rule::FallThrough => 4,
            Rule::CodeTarget => 5,
            Rule::TooManyCallbacks => 6,
            Rule::UnknownHelper => 7,
            Rule::CallKind => 8,
            Rule::LoadKind => 9,
            Rule::MissingMap => 10,
            Rule::FramePointerWrite => 11,
            Rule::UnwrittenRegister => 12,
            Rule::ArithmeticOperand => 13,
            Rule::ComparisonOperand => 14,
            Rule::StoredOperand => 15,
            Rule::AccessBase => 16,
            Rule::AreaAccessSize => 17,
            Rule::AccessAlignment => 18,
            Rule::AccessBounds => 19,
            Rule::UnwrittenByte => 20,
            Rule::CtxWrite => 21,
            Rule::HelperArgument => 22,
            Rule::NestedCallback => 23,
            Rule::CallbackResult => 24,
            Rule::MainResult => 25,
        }
    }
}
