//! Iterations of a loop that are added up at once.

ghost use Rattle.std.specs.Prelude.{◌≡◌, ◌<◌, ◌≤◌};

/// The iterations of a loop from an index up to, and not with, another, in this many shares: of as many iterations
/// each, but that the last ones may have fewer, or none.
#[derive(Clone, Copy)]
pub struct Round {
    pub from: u32,
    pub to: u32,
    pub shares: u32,
    pub ghost in_order: { from ≤ to },
    pub ghost some: { 0 < shares },
}

impl Round {
    ghost use Rattle.spec_run_loop.specs.Rounds.{share_start};

    /// The first index of a share, or, of a number past the last share's, the index after the round.
    pub(crate) fn start(&self, share: u32) -> u32
        requires { share ≤ self.now.shares }
        ensures start { result ≡ share_start self.now share }
        ensures within { result ≤ self.now.to }
    {
        let size = (self.to - self.from).div_ceil(self.shares);
        let start = self.from.saturating_add(share.saturating_mul(size));
        start.min(self.to)
    }
}
