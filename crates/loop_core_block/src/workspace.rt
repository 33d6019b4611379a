//! What a block is run in.

ghost use Rattle.std.specs.Prelude.{◌≡◌};
ghost use Rattle.shadow_marks.specs.Standing.{StandFor, no_visits};
ghost use Rattle.private_copy.specs.Workspaces.{copy_elements};
ghost use Rattle.loop_core_block.specs.Unmarked.{unmarked-prop};

use crate::block::Block;
use loop_core_model::Test;
use private_copy::CopyWorkspace;
use shadow_marks::Planes;
use std::alloc::{AllocError, Global};

/// What a block of a loop over n elements, judged by a test, is run in. While it is no block's, nothing is marked in
/// it. It serves one block after another, and the pages that one took are there for the next.
#[derive(Drop)]
pub struct BlockWorkspace {
    pub(crate) copy: CopyWorkspace,
    pub(crate) planes: Planes,
    ghost count: { copy_elements copy ≡ planes.elements },
    ghost unmarked: { StandFor planes no_visits } by { unmarked-prop planes },
}

impl BlockWorkspace {
    ghost use Rattle.std.specs.Prelude.{◌≤◌, ◌↔◌, IfOk, IsTrue};
    ghost use Rattle.loop_core_block.specs.Workspaces.{IsWorkspaceFor};

    /// A workspace for blocks over n elements, at most 65,536, judged by a test.
    pub fn try_new(alloc: Global, elements: u32, test: Test) -> Result<BlockWorkspace, AllocError>
        requires { elements ≤ 65536 }
        ensures { IfOk result (IsWorkspaceFor elements test) }
    {
        Ok(BlockWorkspace {
            copy: CopyWorkspace::try_new(alloc, elements)?,
            planes: Planes::try_new(alloc, elements, test)?,
        })
    }

    /// Whether it is for blocks over n elements, judged by this test.
    pub fn is_for(&self, elements: u32, test: Test) -> bool
        ensures { IsTrue result ↔ IsWorkspaceFor elements test self.now }
    {
        self.planes.elements == elements && self.planes.test() == test
    }
}

impl<'a> Block<'a> {
    ghost use Rattle.std.specs.Prelude.{ℕ, List, length};
    ghost use Rattle.loop_core_model.specs.Marks.{Visit};
    ghost use Rattle.shadow_marks.specs.Standing.{test_of};
    ghost use Rattle.loop_core_block.specs.{Shown.{shown}, Workspaces.{IsWorkspaceFor}};

    /// The workspace of a block, for another. These planes, which iterations over as many elements have marked, take
    /// the place of its own. What the block did is forgotten.
    pub fn into_workspace(self, planes: Planes) -> BlockWorkspace
        requires stand { (visits : ℕ → List Visit) × StandFor planes visits }
        requires elements { planes.elements ≡ length (shown self).copy.start }
        ensures { IsWorkspaceFor planes.elements (test_of planes.tested) result }
    {
        let Block { copy, .. } = self;
        let mut planes = planes;
        planes.clear();
        BlockWorkspace {
            copy: copy.into_workspace(),
            planes,
        }
    }
}
