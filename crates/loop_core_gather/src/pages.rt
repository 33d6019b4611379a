//! Pages of what a pass leaves.

ghost use Rattle.std.specs.Prelude.{◌≡◌, ℕ, ◌+◌, ◌*◌, ◌<◌, ◌≤◌, false, map, length, slice_index};
ghost use Rattle.std.specs.List.{All};
ghost use Rattle.loop_core_model.specs.Kept.{committed_of_kept};
ghost use Rattle.loop_core_block.specs.Shown.{shown};
ghost use Rattle.loop_core_gather.specs.{Held.{chosen, kept_at, MarksTouched}, Pages.{IsPageOf}};

use crate::gathered::Gathered;
use crate::kept::has_bit;
use loop_core_block::Block;
use loop_core_model::PAGE;

/// Words of a page.
pub(crate) const PAGE_WORDS: usize = PAGE as usize;

/// The words of a page, and 0 past the last.
pub(crate) fn page_of(words: &[u64], page: u32) -> [u64; PAGE_WORDS]
    ensures { IsPageOf words.now page result }
{
    let first = page as usize * PAGE_WORDS;
    let mut own = [0; PAGE_WORDS];
    if first + PAGE_WORDS <= words.len() {
        for k in 0..PAGE_WORDS {
            own[k] = words[first + k];
        }
    } else {
        for k in 0..PAGE_WORDS {
            own[k] = words.get(first + k).copied().unwrap_or(0);
        }
    }
    own
}

/// What a pass leaves at an element, and 0 past the last.
#[tactic(auto, using(std::proofs::lemmas::List::get_or_past))]
fn left_at(gathered: &Gathered, e: usize) -> u64
    ensures { result ≡ slice_index gathered.now.words e }
{
    if e < gathered.elements() as usize {
        gathered.element(e as u32)
    } else {
        0
    }
}

/// What a pass leaves at the elements of a page, asked one by one.
pub(crate) fn page_by_elements(gathered: &Gathered, page: u32) -> [u64; PAGE_WORDS]
    ensures { IsPageOf gathered.now.words page result }
{
    let mut own = [0; PAGE_WORDS];
    for k in 0..PAGE_WORDS {
        own[k] = left_at(gathered, page as usize * PAGE_WORDS + k);
    }
    own
}

/// Sets each element of a page, which has one, of n elements in all, to the last value of the last of the blocks at
/// these places that has one. A bit of `touched` says of each whether it touched the page.
pub(crate) fn overwrite_in_turn(
    own: &mut [u64; PAGE_WORDS],
    page: u32,
    elements: u32,
    touched: u64,
    blocks: &[Block],
    places: &[usize],
)
    requires places { All (λ place. place < length blocks.now) places.now }
    requires few { length places.now ≤ 64 }
    requires starts { All (λ b. length (shown b).copy.start ≡ elements) blocks.now }
    requires there { page * 64 < elements }
    requires touched { (k : ℕ) → k < 64 → page * 64 + k < elements → MarksTouched touched (page * 64 + k)
        (map shown blocks.now) places.now }
    ensures each { (k : ℕ) → k < 64 → page * 64 + k < elements → slice_index own.new k ≡ committed_of_kept false
        (map (kept_at (page * 64 + k)) (chosen places.now (map shown blocks.now))) (slice_index own.old k) }
    ensures past { (k : ℕ) → elements ≤ page * 64 + k → slice_index own.new k ≡ slice_index own.old k }
{
    let count = (elements - page * PAGE).min(PAGE);
    for (i, place) in places.iter().enumerate() {
        if has_bit(touched, i) {
            blocks[*place].overwrite(page, count, own);
        }
    }
}
