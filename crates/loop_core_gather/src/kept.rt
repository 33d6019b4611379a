//! What blocks kept at an element, put together.

ghost use Rattle.std.specs.{Prelude.{◌≡◌, ◌==◌, ◌<◌, ◌≤◌, [], ◌∷◌, map, length}, List.{All}, Int.{bit_at}};
ghost use Rattle.loop_core_model.specs.Kept.{committed_of_kept};
ghost use Rattle.loop_core_block.specs.Shown.{shown};
ghost use Rattle.loop_core_gather.specs.Held.{chosen, kept_at, MarksTouched};

use array_maps::combine;
use loop_core_block::Block;

/// Whether a bit of a word, 0 to 63, is set.
pub(crate) fn has_bit(word: u64, bit: usize) -> bool
    requires { bit < 64 }
    ensures { result ≡ (bit_at word bit == 1) }
{
    word >> bit & 1 == 1
}

/// What one block leaves of a word at an element: where that is reduction-only, the block's partial is applied to the
/// word; else its last value takes the word's place. The word stays where there is none.
fn committed_by(block: &Block, e: u32, reduced: bool, word: u64) -> u64
    requires { e < length (shown block.now).copy.start }
    ensures { result ≡ committed_of_kept reduced (kept_at e (shown block.now) ∷ []) word }
{
    if !reduced {
        return block.last_value(e).unwrap_or(word);
    }
    match block.partial(e) {
        Some((op, operand)) => combine(op, word, operand),
        None => word,
    }
}

/// What the blocks at these places leave of a word, one after another. A bit of `touched` says of each whether it
/// touched the element's page.
pub(crate) fn committed(
    blocks: &[Block],
    places: &[usize],
    touched: u64,
    e: u32,
    reduced: bool,
    word: u64,
) -> u64
    requires places { All (λ place. place < length blocks.now) places.now }
    requires few { length places.now ≤ 64 }
    requires within { All (λ b. e < length (shown b).copy.start) blocks.now }
    requires touched { MarksTouched touched e (map shown blocks.now) places.now }
    ensures { result ≡ committed_of_kept reduced (map (kept_at e) (chosen places.now (map shown blocks.now))) word }
{
    let mut value = word;
    for (i, place) in places.iter().enumerate() {
        if has_bit(touched, i) {
            value = committed_by(&blocks[*place], e, reduced, value);
        }
    }
    value
}
