//! What a gathered block was run in.

use crate::gathered::Gathered;
use loop_core_block::BlockWorkspace;

impl<'a> Gathered<'a> {
    ghost use Rattle.std.specs.Prelude.{◌≡◌, length, IfSome};

    /// Where one block was gathered, its workspace, for another. What it did is forgotten.
    pub fn into_workspace(self) -> Option<BlockWorkspace>
        ensures { IfSome result (λ workspace. workspace.planes.elements ≡ length self.entry.start) }
    {
        let Gathered {
            mut blocks,
            planes,
            ..
        } = self;
        if blocks.len() > 1 {
            return None;
        }
        let block = blocks.pop()?;
        Some(block.into_workspace(planes))
    }
}
