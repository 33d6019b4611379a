//! Main up to its first valid loop call.

ghost use Rattle.std.specs.Prelude.{◌≡◌};
ghost use Rattle.spec_run_replay.specs.FoundLoop.{CameToLoop};

use array_maps::{Maps, Store};
use bpf_step::{LoopCall, Main, Turned};
use bpf_verify::Verified;
use bpf_verify_sound::{law_of_accepted_programs, law_of_accepted_runs};

/// A valid loop call, and its number among the loop calls that main made, refused ones included.
#[derive(Drop)]
pub struct NumberedCall {
    pub number: usize,
    pub call: LoopCall,
}

/// Runs main on these maps, which are of its sizes, up to its first valid loop call, and leaves the maps as
/// they are there. It is None where main makes no valid loop call.
pub(crate) fn first_loop(program: &Verified, maps: &mut Maps, argument: u64) -> Option<NumberedCall>
    requires { maps.old.sizes ≡ program.now.sizes }
    ensures { CameToLoop program.now argument maps.old maps.new result }
{
    law_of_accepted_runs();
    law_of_accepted_programs();
    // For the proof: the program is accepted; the maps have as many words as their sizes add up to, each below 2^64.
    let _unit = program.unit();
    let _sizes = maps.sizes();
    Store::words_fit(maps);
    let mut main = Main::new(program, argument);
    let mut number = 0;
    loop {
        match main.next(maps) {
            Turned::Loop(call) => return Some(NumberedCall { number, call }),
            Turned::Refused { .. } => number += 1,
            Turned::Exit(_ret) => return None,
        }
    }
}
