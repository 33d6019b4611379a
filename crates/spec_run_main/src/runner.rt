//! What is done of the loop calls that main of a program makes.

ghost use Rattle.std.specs.Prelude.{◌≡◌, ℕ, ◌+◌, ◌<◌, ◌≤◌, List, IfOk};
ghost use Rattle.array_maps.specs.MapList.{MapList};
ghost use Rattle.bpf_insn_types.specs.Program.{Program};
ghost use Rattle.bpf_step_model.specs.ProgramInOrder.{LoopMade};
ghost use Rattle.bpf_verify_sound.specs.Soundness.{OverApproximatesCall};
ghost use Rattle.loop_core_sequential.specs.Loops.{RanLoopInOrder};
ghost use Rattle.spec_run_main.specs.Calls.{HasRecorded, RecordsValid, RecordsRefused};

use array_maps::Maps;
use bpf_step::LoopCall;
use bpf_step_model::RefusedCall;
use bpf_verify::Verified;

/// Runs the loop calls that main of a program makes, and records them. It has room for a number of
/// calls, and each uses up at most one.
pub trait LoopRunner {
    /// Why it stops main before its end.
    type Stop;

    /// That it recorded these loop calls of a program since its first state.
    ghost records: { Program → Self → List LoopMade → Self → Type 0 };

    /// How many loop calls it still has room for.
    ghost room: { Self → ℕ };

    /// Runs a valid loop call on the maps, which are of the program's sizes: it leaves them as the loop in order does.
    /// Gives the loop's answer.
    fn run_call(
        &mut self,
        program: &Verified,
        call: &LoopCall,
        maps: &mut Maps,
    ) -> Result<u32, Self::Stop>
        requires known { OverApproximatesCall program.now call.now }
        requires sizes { maps.old.sizes ≡ program.now.sizes }
        requires recorded { HasRecorded (records program.now) self.old }
        requires room { 0 < room self.old }
        ensures ran { IfOk result (λ answer. RanLoopInOrder program.now call.now maps.old maps.new answer) }
        ensures recorded { IfOk result (λ answer.
            RecordsValid (records program.now) program.now call.now maps.old.words answer self.old self.new) }
        ensures used { IfOk result (λ _. room self.old ≤ room self.new + 1) };

    /// Notes a loop call at a slot that was refused.
    fn note_refusal(&mut self, slot: u32, call: RefusedCall) -> Result<(), Self::Stop>
        requires { 0 < room self.old }
        ensures recorded { IfOk result (λ _. (program : Program) → RecordsRefused (records program) slot call self.old
            self.new) }
        ensures used { IfOk result (λ _. room self.old ≤ room self.new + 1) };
}
