//! Following an iteration.

ghost use Rattle.std.specs.Prelude.{◌≡◌, ◌<◌, List, [], OnOk, IfOk};
ghost use Rattle.bpf_verify_sound.specs.Soundness.{OverApproximatesCall};
ghost use Rattle.loop_core_trace.specs.{Traced.{IsTraceOf}, Journals.{Undoes}};

use crate::journal::{Note, note_access};
use crate::slots::Slots;
use crate::touch::touch_of;
use array_maps::{Maps, Store};
use bpf_step::{LoopCall, law_of_operations};
use bpf_step_plain::{Outcome, execute};
use bpf_verify::Verified;
use bpf_verify_sound::{law_of_accepted_runs, law_of_steps};
use std::alloc::{AllocError, Global};

/// The most instructions of an iteration.
const MOST_STEPS: u32 = 4096;

/// An iteration that was followed at one element.
#[derive(Clone, Copy, Debug, PartialEq)]
pub struct Trace {
    /// What it returned: 1 where it breaks the loop, else 0.
    pub ret: u64,
    /// The slot at which it returned.
    pub exit: u32,
    /// The slots at which it accessed the element.
    pub slots: Slots,
}

/// Runs an iteration on the maps, operation by operation, with a journal of the words that were there before each
/// access.
fn follow(
    program: &Verified,
    call: &LoopCall,
    maps: &mut Maps,
    journal: &mut Vec<Note>,
    index: u32,
    element: u32,
) -> Result<Trace, AllocError>
    requires known { OverApproximatesCall program.now call.now }
    requires below { index < call.now.n }
    requires sizes { maps.old.sizes ≡ program.now.sizes }
    requires fresh { journal.old.items ≡ [] }
    ensures traced { IfOk result (IsTraceOf program.now call.now index maps.old.words element) }
    ensures undoes { OnOk result (Undoes journal.new.items maps.new maps.old) }
{
    law_of_steps();
    law_of_operations();
    law_of_accepted_runs();
    // For the proof: the maps have as many words as their sizes add up to, each below 2^64.
    let _sizes = maps.sizes();
    Store::words_fit(maps);
    let (ops, _) = program.operations();
    let caller = call.frame();
    let mut registers = [0, u64::from(index), 0, 0, 0, 0, 0, 0, 0, 0, 0];
    let mut frame = [0; 512];
    let mut slot = call.callback();
    let mut slots = Slots::none();
    for _ in 0..MOST_STEPS {
        let op = &ops[slot as usize];
        let touched = touch_of(op, &registers);
        slots = note_access(journal, touched, maps.words(), slots, slot, element)?;
        match execute(op, slot, &mut registers, &mut frame, caller, maps) {
            Outcome::On(next) => slot = next,
            Outcome::End(ret) => {
                return Ok(Trace {
                    ret,
                    exit: slot,
                    slots,
                });
            }
            Outcome::Call(..) => unreachable!(),
            Outcome::Refusal(_) => unreachable!(),
        }
    }
    unreachable!()
}

/// Follows the iteration of an index below n, of a loop call that main of this program made, on these maps, and returns
/// its slots at an element. The maps are of the program's sizes, and are left as they were; if there was no memory,
/// they may be any of those sizes.
pub fn trace_iteration(
    alloc: Global,
    program: &Verified,
    call: &LoopCall,
    maps: &mut Maps,
    index: u32,
    element: u32,
) -> Result<Trace, AllocError>
    requires known { OverApproximatesCall program.now call.now }
    requires below { index < call.now.n }
    requires sizes { maps.old.sizes ≡ program.now.sizes }
    ensures traced { IfOk result (IsTraceOf program.now call.now index maps.old.words element) }
    ensures same { OnOk result (maps.new ≡ maps.old) }
{
    let mut journal = Vec::new(alloc);
    let trace = follow(program, call, maps, &mut journal, index, element)?;
    while let Some(note) = journal.pop() {
        maps.store(note.element, note.word);
    }
    Ok(trace)
}
