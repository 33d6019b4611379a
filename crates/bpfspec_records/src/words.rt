//! The names of faults.

ghost use Rattle.std.specs.Prelude.{◌≡◌};
ghost use Rattle.bpfspec_records.specs.Words.{codec_fault_name, rule_name, text_fault_name};

use bpf_insn::CodecFault;
use bpf_text_lex::TextFault;
use bpf_verify_model::Rule;

/// The name of a rule of the verifier.
pub(crate) fn rule_name(rule: Rule) -> &'static str
    ensures { result.now ≡ rule_name rule }
{
    match rule {
        Rule::NoSlot => "no_slot",
        Rule::OverLimits => "over_limits",
        Rule::JumpTarget => "jump_target",
        Rule::FallThrough => "fall_through",
        Rule::CodeTarget => "code_target",
        Rule::TooManyCallbacks => "too_many_callbacks",
        Rule::UnknownHelper => "unknown_helper",
        Rule::CallKind => "call_kind",
        Rule::LoadKind => "load_kind",
        Rule::MissingMap => "missing_map",
        Rule::FramePointerWrite => "frame_pointer_write",
        Rule::UnwrittenRegister => "unwritten_register",
        Rule::ArithmeticOperand => "arithmetic_operand",
        Rule::ComparisonOperand => "comparison_operand",
        Rule::StoredOperand => "stored_operand",
        Rule::AccessBase => "access_base",
        Rule::AreaAccessSize => "area_access_size",
        Rule::AccessAlignment => "access_alignment",
        Rule::AccessBounds => "access_bounds",
        Rule::UnwrittenByte => "unwritten_byte",
        Rule::CtxWrite => "ctx_write",
        Rule::HelperArgument => "helper_argument",
        Rule::NestedCallback => "nested_callback",
        Rule::CallbackResult => "callback_result",
        Rule::MainResult => "main_result",
    }
}

/// The name of a text's fault.
pub(crate) fn text_fault_name(fault: TextFault) -> &'static str
    ensures { result.now ≡ text_fault_name fault }
{
    match fault {
        TextFault::Form => "form",
        TextFault::Field => "field",
        TextFault::Register => "register",
        TextFault::UnknownLabel => "unknown_label",
        TextFault::RepeatedLabel => "repeated_label",
        TextFault::TooLong => "too_long",
        TextFault::Limits => "limits",
    }
}

/// The name of a fault of bytes.
pub(crate) fn codec_fault_name(fault: CodecFault) -> &'static str
    ensures { result.now ≡ codec_fault_name fault }
{
    match fault {
        CodecFault::Incomplete => "incomplete",
        CodecFault::UnknownOpcode => "unknown_opcode",
        CodecFault::RegisterNumber => "register_number",
        CodecFault::FieldNotZero => "field_not_zero",
        CodecFault::CallSource => "call_source",
        CodecFault::LoadKind => "load_kind",
        CodecFault::Immediate => "immediate",
        CodecFault::Offset => "offset",
        CodecFault::SecondSlot => "second_slot",
    }
}
