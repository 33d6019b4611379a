//! How many instructions each function takes at most.

ghost use Rattle.std.specs.Prelude.{◌≡◌, ℕ, ◌<◌, ◌≤◌, ◌∷◌, [], ◌++◌, map, length, replicate, slice_set, slice_index_or};
ghost use Rattle.std.specs.Prelude.{IfOk, IfErr, OnOk};
ghost use Rattle.bpf_insn_types.specs.Program.{slot_count};
ghost use Rattle.bpf_verify_model.specs.Count.{behind_jump, through, longest, JumpsForward};
ghost use Rattle.bpf_verify.specs.Counting.{most_at, AreLongest};

use crate::error::VerifyError;
use bpf_insn_types::{Insn, slots};
use bpf_verify_values::slot_beyond;
use std::alloc::Global;

/// The most instructions from a slot on.
fn longest_from(longest: &[u32], slot: Option<u32>) -> u32
    requires { (k : ℕ) → slice_index_or longest.now k 0 ≤ 4096 }
    ensures most { result ≡ behind_jump (most_at longest.now) slot }
    ensures small { result ≤ 4096 }
{
    match slot {
        None => 0,
        Some(slot) => match longest.get(slot as usize) {
            None => 0,
            Some(count) => *count,
        },
    }
}

/// The most instructions from an instruction on, by those after later slots.
fn through(longest: &[u32], slot: u32, insn: Insn) -> u32
    requires low { slot < 4096 }
    requires small { (k : ℕ) → slice_index_or longest.now k 0 ≤ 4096 }
    ensures { result ≡ through (most_at longest.now) slot (Some insn) }
{
    match insn {
        Insn::Ja { offset } => 1 + longest_from(longest, slot_beyond(slot, offset as i32)),
        Insn::Ja32 { imm } => 1 + longest_from(longest, slot_beyond(slot, imm)),
        Insn::Jump { offset, .. } => {
            let jumping = longest_from(longest, slot_beyond(slot, offset as i32));
            1 + longest_from(longest, Some(slot + 1)).max(jumping)
        }
        Insn::Exit => 1,
        other => 1 + longest_from(longest, Some(slot + slots(&other))),
    }
}

fn set(longest: &mut Vec<u32>, slot: u32, most: u32)
    requires { slot < length longest.old.items }
    ensures { longest.new.items ≡ slice_set longest.old.items slot most }
{
    longest[slot as usize] = most;
}

fn zeros(alloc: Global, count: u32) -> Result<Vec<u32>, VerifyError>
    ensures ok { IfOk result (λ zeros. zeros.items ≡ replicate count 0) }
    ensures err { IfErr result (λ e. e ≡ VerifyError.Memory) }
{
    Ok(vec![in alloc; 0u32; count as usize]?)
}

/// The most instructions from each slot on.
fn longest(alloc: Global, insns: &[Insn], count: u32) -> Result<Vec<u32>, VerifyError>
    requires slots { slot_count insns.now ≡ count }
    requires few { count ≤ 4096 }
    requires forward { JumpsForward insns.now }
    ensures ok { IfOk result (λ longest. AreLongest insns.now longest.items) }
    ensures err { IfErr result (λ e. e ≡ VerifyError.Memory) }
{
    let mut longest = zeros(alloc, count)?;
    let mut slot = count;
    let mut left = insns.len();
    while left > 0 {
        left -= 1;
        let insn = insns[left];
        slot -= slots(&insn);
        let most = through(longest.as_slice(), slot, insn);
        set(&mut longest, slot, most);
    }
    Ok(longest)
}

/// The most instructions of each function, main first.
pub(crate) fn counts_of(
    alloc: Global,
    insns: &[Insn],
    count: u32,
    starts: &[u32],
) -> Result<Vec<u32>, VerifyError>
    requires slots { slot_count insns.now ≡ count }
    requires few { count ≤ 4096 }
    requires forward { JumpsForward insns.now }
    ensures ok { IfOk result (λ counts. counts.items ≡ map (longest insns.now (slot_count insns.now)) (0 ∷ starts.now)) }
    ensures err { IfErr result (λ e. e ≡ VerifyError.Memory) }
{
    let longest = longest(alloc, insns, count)?;
    let mut counts = Vec::new(alloc);
    add(&mut counts, longest_from(longest.as_slice(), Some(0)))?;
    for start in starts {
        add(&mut counts, longest_from(longest.as_slice(), Some(*start)))?;
    }
    Ok(counts)
}

fn add(counts: &mut Vec<u32>, count: u32) -> Result<(), VerifyError>
    ensures ok { OnOk result (counts.new.items ≡ counts.old.items ++ count ∷ []) }
    ensures err { IfErr result (λ e. e ≡ VerifyError.Memory) }
{
    Ok(counts.push(count)?)
}
