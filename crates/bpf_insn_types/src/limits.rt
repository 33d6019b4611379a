//! How large a program and its maps may be.

ghost use Rattle.std.specs.Prelude.{◌≡◌, ◌<◌, ◌≤◌, false, IfSome, IfNone, sum};
ghost use Rattle.bpf_insn_types.specs.{Limits.{AreSizes, sizes_fit}, Program.{slot_count}};

use crate::insn::{Insn, slots};

/// The most maps.
pub const MAX_MAPS: usize = 16;

/// The most elements over all maps.
pub const MAX_ELEMENTS: u32 = 65_536;

/// The most slots of a program.
pub const MAX_SLOTS: u32 = 4_096;

/// The bytes of a frame.
pub const FRAME_BYTES: usize = 512;

/// The most iterations of a loop (bpf-helpers(7), bpf_loop).
pub const MAX_ITERATIONS: u32 = 8_388_608;

/// The offset of an area address is at most this: the bytes of all maps together.
pub const MAX_OFFSET: u32 = 524_288;

/// How many elements maps of these sizes have, where they are within the limits: 1 to 16 maps, each
/// of at least 1 element, and at most 65,536 elements over all.
pub fn elements_of(sizes: &[u32]) -> Option<u32>
    ensures some { IfSome result (λ n. AreSizes sizes.now × (n ≡ sum sizes.now)) }
    ensures none { IfNone result (sizes_fit sizes.now ≡ false) }
{
    if sizes.is_empty() || sizes.len() > MAX_MAPS {
        return None;
    }
    let mut total: u32 = 0;
    for size in sizes {
        if *size == 0 || *size > MAX_ELEMENTS - total {
            return None;
        }
        total += *size;
    }
    Some(total)
}

/// How many slots instructions take, if they are at most 4,096.
pub fn slot_count(insns: &[Insn]) -> Option<u32>
    ensures some { IfSome result (λ n. (n ≡ slot_count insns.now) × (n ≤ 4096)) }
    ensures none { IfNone result (4096 < slot_count insns.now) }
{
    let mut total = 0;
    for insn in insns {
        total += slots(insn);
        if total > MAX_SLOTS {
            return None;
        }
    }
    Some(total)
}
