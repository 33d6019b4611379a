//! Running main between its loop calls.

ghost use Rattle.std.specs.Prelude.{◌≡◌, ◌≤◌, min, [], IfOk};
ghost use Rattle.bpf_verify_sound.specs.Soundness.{most_from};
ghost use Rattle.spec_run_main.specs.Programs.{RanProgram};

use crate::runner::LoopRunner;
use array_maps::{Maps, Store};
use bpf_step::{Main, Turned};
use bpf_verify::Verified;
use bpf_verify_sound::{law_of_accepted_programs, law_of_accepted_runs};

/// Runs main of the program, its argument in R1, on these maps, which are of its sizes, and changes them as it goes.
/// Each loop call goes to the runner, in order, which has room for as many as main takes instructions at most, and
/// never needs room for more than 4,096. Gives main's return value. Where the runner stops it, the maps stay as they
/// are then.
pub fn run_main<L: LoopRunner>(
    program: &Verified,
    maps: &mut Maps,
    argument: u64,
    runner: &mut L,
) -> Result<u64, L::Stop>
    requires sizes { maps.old.sizes ≡ program.now.sizes }
    requires room { min (most_from program.now 0) 4096 ≤ L.room runner.old }
    requires begins { L.records program.now runner.old [] runner.old }
    ensures { IfOk result (λ ret. RanProgram (λ calls. L.records program.now runner.old calls runner.new) program.now
        argument maps.old maps.new ret) }
{
    law_of_accepted_runs();
    law_of_accepted_programs();
    // For the proof: the program is accepted; the maps have as many words as their sizes add up to, each below 2^64.
    let _unit = program.unit();
    let _sizes = maps.sizes();
    Store::words_fit(maps);
    let mut main = Main::new(program, argument);
    loop {
        match main.next(maps) {
            Turned::Loop(call) => {
                let answer = runner.run_call(program, &call, maps)?;
                main.resume(answer);
            }
            Turned::Refused { slot, call } => runner.note_refusal(slot, call)?,
            Turned::Exit(ret) => return Ok(ret),
        }
    }
}
