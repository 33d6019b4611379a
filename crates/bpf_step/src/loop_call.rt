//! Loop calls.

ghost use Rattle.std.specs.Prelude.{◌≡◌, Some, map};

use std::marker::Model;

/// A valid call of `bpf_loop` that main made. In contracts it is the call with main's frame at it; bytes
/// of the frame that main hasn't written may be any.
#[derive(Drop)]
pub struct LoopCall {
    slot: u32,
    callback: u32,
    n: u32,
    ctx: Option<u32>,
    frame: [u8; 512],
}

impl Model for LoopCall {
    ghost use Rattle.std.specs.Prelude.{map, Some};
    ghost use Rattle.bpf_step_model.specs.State.{LoopCall as Call};

    ghost Value = { Call };

    ghost view = { λ c. record {
      slot = c.slot;
      callback = c.callback;
      n = c.n;
      ctx = c.ctx;
      frame = map Some c.frame;
    } };
}

impl LoopCall {
    /// The call that main made at a slot, with its frame.
    pub(crate) fn new(slot: u32, callback: u32, n: u32, ctx: Option<u32>, frame: &[u8; 512]) -> Self
        ensures { result ≡ record { slot = slot; callback = callback; n = n; ctx = ctx; frame = map Some frame.now } }
    {
        LoopCall {
            slot,
            callback,
            n,
            ctx,
            frame: *frame,
        }
    }

    /// The slot of the call.
    pub fn slot(&self) -> u32
        ensures { result ≡ self.now.slot }
    {
        self.slot
    }

    /// The slot at which the callback starts.
    pub fn callback(&self) -> u32
        ensures { result ≡ self.now.callback }
    {
        self.callback
    }

    /// How many iterations it asks for, at most 8,388,608.
    pub fn n(&self) -> u32
        ensures { result ≡ self.now.n }
    {
        self.n
    }

    /// Where its ctx is: the position in main's frame that R3 named, in bytes from the frame's lowest, 0 to 512. None
    /// where R3 was 0.
    pub fn ctx(&self) -> Option<u32>
        ensures { result ≡ self.now.ctx }
    {
        self.ctx
    }

    /// Main's 512 bytes at the call, the lowest first. Those that main hasn't written may be any.
    pub fn frame(&self) -> &[u8; 512]
        ensures { map Some result.now ≡ self.now.frame }
    {
        &self.frame
    }
}
