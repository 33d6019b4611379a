//! Words that an operator leaves any word as it was with.

ghost use Rattle.std.specs.Prelude.{◌≡◌};
ghost use Rattle.spec_run_loop.specs.Sums.{identity_maps, identity_of};

use array_maps::{Maps, Op, Store};

/// The operand with which an operator leaves each word as it was.
#[tactic(auto, unfolding(crate::specs::Sums::identity_of))]
fn identity_of(op: Op) -> u64
    ensures { result ≡ identity_of op }
{
    match op {
        Op::And => u64::MAX,
        Op::Add | Op::Or | Op::Xor | Op::AddH => 0,
    }
}

/// Makes each word of maps such an operand.
pub(crate) fn clear(maps: &mut Maps, op: Op)
    ensures { maps.new ≡ identity_maps op maps.old.sizes }
{
    let identity = identity_of(op);
    // For the proof: the maps have as many words as their sizes add up to.
    let _sizes = maps.sizes();
    let elements = maps.words().len() as u32;
    for e in 0..elements {
        maps.store(e, identity);
    }
}
