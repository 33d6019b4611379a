//! The helpers that a program may call.

ghost use Rattle.std.specs.Prelude.{◌≡◌};
ghost use Rattle.bpf_verify_model.specs.Helpers.{helper_called};

use bpf_insn_types::Callee;
use bpf_verify_model::Helper;

/// The helper that a call names, if it is one of the two.
pub fn helper_of(callee: Callee, imm: i32) -> Option<Helper>
    ensures { result ≡ helper_called callee imm }
{
    match (callee, imm) {
        (Callee::Helper, 1) => Some(Helper::Lookup),
        (Callee::Helper, 181) => Some(Helper::Loop),
        _ => None,
    }
}
