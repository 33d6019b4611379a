//! The blocks that count, in order.

ghost use Rattle.std.specs.Prelude.{◌≡◌, not, length, map, Some, None, IfOk, IfErr, IfSome, IfNone};
ghost use Rattle.std.specs.List.{list_any};
ghost use Rattle.loop_core_block.specs.Shown.{shown};
ghost use Rattle.loop_core_gather.specs.Counting.{least_broke, place_of, has_twins, is_in_split, order_of};
ghost use Rattle.loop_core_gather.specs.Counting.{blocks_fault, Counts};

use arrayvec::ArrayVec;
use loop_core_block::Block;
use loop_core_model::{GatherFault, MAX_BLOCKS};
use loop_core_split::{Split, is_late, lesser};

/// This many places of blocks at most.
pub(crate) const PLACES: usize = MAX_BLOCKS as usize;

/// The blocks that count.
#[derive(Drop)]
pub(crate) struct Counting {
    /// The least break of all blocks, which is the loop's.
    pub(crate) least: Option<u32>,
    /// The places, in the list of blocks, of those that don't start past it, in the order of the split.
    pub(crate) places: ArrayVec<usize, PLACES>,
}

#[tactic(auto, using(loop_core_model::proofs::Least::lesser_assoc))]
fn least_break(blocks: &[Block]) -> Option<u32>
    ensures { result ≡ least_broke (map shown blocks.now) }
{
    let mut least = None;
    for block in blocks {
        least = lesser(least, block.broke());
    }
    least
}

fn place_of(blocks: &[Block], number: u32) -> Option<usize>
    ensures { result ≡ place_of (map shown blocks.now) number }
{
    for (place, block) in blocks.iter().enumerate() {
        if block.number() == number {
            return Some(place);
        }
    }
    None
}

/// The places of the blocks that count, or `None` where one of them isn't there.
fn places_of(split: &Split, blocks: &[Block], least: Option<u32>) -> Option<ArrayVec<usize, PLACES>>
    ensures some { IfSome result (λ places. order_of least (map shown blocks.now) split.now ≡ Some places.items) }
    ensures none { IfNone result (order_of least (map shown blocks.now) split.now ≡ None) }
{
    let mut places = ArrayVec::new();
    for number in 0..split.blocks() {
        if !is_late(least, split.start(number)) {
            match place_of(blocks, number) {
                Some(place) => places.push(place),
                None => return None,
            }
        }
    }
    Some(places)
}

/// Whether a number appears twice.
fn has_twins(blocks: &[Block]) -> bool
    ensures { result ≡ has_twins (map shown blocks.now) }
{
    for (place, block) in blocks.iter().enumerate() {
        if place_of(&blocks[place + 1..], block.number()).is_some() {
            return true;
        }
    }
    false
}

/// Whether an interval is the split's.
fn is_in_split(split: &Split, block: &Block) -> bool
    ensures { result ≡ is_in_split split.now (shown block.now) }
{
    block.number() < split.blocks()
        && split.start(block.number()) == block.first()
        && split.end(block.number()) == block.past()
}

/// Whether an interval isn't the split's.
fn has_foreign(split: &Split, blocks: &[Block]) -> bool
    ensures { result ≡ list_any (λ b. not (is_in_split split.now (shown b))) blocks.now }
{
    blocks.iter().any(|block| !is_in_split(split, block))
}

/// The blocks that count, of blocks of this split. It takes no memory.
///
/// G1 (`Missing`) a block of the split isn't there that starts at or before the least break of those that are, G2
/// (`Twice`) a number appears twice, G3 (`Foreign`) an interval isn't the split's: the least of them.
pub(crate) fn counting_blocks(split: &Split, blocks: &[Block]) -> Result<Counting, GatherFault>
    ensures fault { IfErr result (λ fault. blocks_fault split.now (map shown blocks.now) ≡ Some fault) }
    ensures counts { IfOk result (λ counting. Counts split.now (map shown blocks.now) counting.least
        counting.places.items) }
{
    let least = least_break(blocks);
    let Some(places) = places_of(split, blocks, least) else {
        return Err(GatherFault::Missing);
    };
    if has_twins(blocks) {
        Err(GatherFault::Twice)
    } else if has_foreign(split, blocks) {
        Err(GatherFault::Foreign)
    } else {
        Ok(Counting { least, places })
    }
}
