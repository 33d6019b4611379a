//! How many iterations of a loop call count.

ghost use Rattle.std.specs.Prelude.{◌≡◌};
ghost use Rattle.bpf_verify_sound.specs.Soundness.{OverApproximatesCall};
ghost use Rattle.loop_core_witness.specs.Breaks.{AreCounted, IsBreak};

use crate::place::Place;
use array_maps::{Maps, Store};
use bpf_step::LoopCall;
use bpf_verify::Verified;
use bpf_verify_sound::{law_of_accepted_programs, law_of_accepted_runs};

/// How many iterations count of a loop call that main of this program made on the start maps, which are of the
/// program's sizes: up to the break, or all. `broke` is what `find_break` returned for them.
pub fn counted_by(program: &Verified, call: &LoopCall, start: &Maps, broke: Option<Place>) -> u32
    requires known { OverApproximatesCall program.now call.now }
    requires sizes { start.now.sizes ≡ program.now.sizes }
    requires broke { IsBreak program.now call.now start.now.words broke }
    ensures { AreCounted program.now call.now start.now.words result }
{
    law_of_accepted_programs();
    law_of_accepted_runs();
    // For the proof: the program is accepted; the maps have as many words as their sizes add up to, each below 2^64.
    let _unit = program.unit();
    let _sizes = start.sizes();
    Store::words_fit(start);
    let n = call.n();
    match broke {
        Some(place) => place.index + 1,
        None => n,
    }
}
