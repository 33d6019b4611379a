//! What loop calls are run in, one after another.

use loop_core_block::BlockWorkspace;
use loop_core_model::Test;
use loop_core_undo::UndoLog;
use std::alloc::{AllocError, Global};

/// What the calling thread runs loop calls in, kept from one to the next, so that it isn't made anew for each. Nothing
/// that a loop call gives depends on what is kept.
#[derive(Drop)]
pub struct Workspace {
    block: Option<BlockWorkspace>,
    log: Option<UndoLog>,
}

impl Workspace {
    ghost use Rattle.std.specs.Prelude.{◌≡◌, ◌≤◌, IfOk};
    ghost use Rattle.loop_core_block.specs.Workspaces.{IsWorkspaceFor};
    ghost use Rattle.loop_core_undo.specs.Undo.{log_elements};

    /// One in which nothing is kept yet.
    pub fn new() -> Workspace {
        Workspace {
            block: None,
            log: None,
        }
    }

    /// Takes what is kept for a block out of it, where it is for n elements, at most 65,536, judged by a test; else
    /// makes what is.
    pub(crate) fn take(
        &mut self,
        alloc: Global,
        elements: u32,
        test: Test,
    ) -> Result<BlockWorkspace, AllocError>
        requires { elements ≤ 65536 }
        ensures { IfOk result (IsWorkspaceFor elements test) }
    {
        if let Some(kept) = self.block.take() {
            if kept.is_for(elements, test) {
                return Ok(kept);
            }
        }
        BlockWorkspace::try_new(alloc, elements, test)
    }

    /// Keeps what the block of a loop was run in.
    pub fn keep(&mut self, workspace: BlockWorkspace) {
        self.block = Some(workspace);
    }

    /// Takes the undo log that is kept out of it, where it is for n elements, at most 65,536; else makes one that is.
    pub fn take_log(&mut self, alloc: Global, elements: u32) -> Result<UndoLog, AllocError>
        requires { elements ≤ 65536 }
        ensures { IfOk result (λ log. log_elements log ≡ elements) }
    {
        if let Some(kept) = self.log.take() {
            if kept.elements() == elements {
                return Ok(kept);
            }
        }
        UndoLog::try_new(alloc, elements)
    }

    /// Keeps the undo log that a loop was run with.
    pub fn keep_log(&mut self, log: UndoLog) {
        self.log = Some(log);
    }
}
