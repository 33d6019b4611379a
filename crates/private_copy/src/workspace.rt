//! What a copy keeps its pages and flags in.

ghost use Rattle.std.specs.Prelude.{◌≡◌, ℕ, ◌+◌, ◌/◌, ◌≤◌, [], length, IfOk};
ghost use Rattle.shadow_marks.specs.Iteration.{element_count, IsEmptied};
ghost use Rattle.private_copy.specs.Cells.{total_of, cell_at, blank};

use crate::pages::Pages;
use crate::private::{Private, words_of};
use array_maps::Maps;
use shadow_marks::IterFlags;
use std::alloc::{AllocError, Global};

/// What a copy of maps of n elements keeps its pages and flags in. While it is no copy's, no page is placed, and no
/// element flagged. It serves one copy after another, and the pages that one took are there for the next.
#[derive(Drop)]
pub struct CopyWorkspace {
    pub(crate) pages: Pages,
    pub(crate) flags: IterFlags,
    ghost small: { element_count flags ≤ 65536 },
    ghost paged: { total_of pages ≡ (element_count flags + 63) / 64 },
    ghost unplaced: { pages.order ≡ [] },
    ghost cells: { (e : ℕ) → cell_at pages e ≡ blank },
    ghost emptied: { IsEmptied flags },
}

impl CopyWorkspace {
    ghost use Rattle.private_copy.specs.Workspaces.{copy_elements};

    /// A workspace for a copy of maps of n elements, at most 65,536. All page numbers are noted here.
    pub fn try_new(alloc: Global, elements: u32) -> Result<CopyWorkspace, AllocError>
        requires { elements ≤ 65536 }
        ensures { IfOk result (λ workspace. copy_elements workspace ≡ elements) }
    {
        Ok(CopyWorkspace {
            pages: Pages::try_new(alloc, elements)?,
            flags: IterFlags::try_new(alloc, elements)?,
        })
    }
}

impl<'a> Private<'a> {
    ghost use Rattle.private_copy.specs.{Copies.{CopyRecords}, Shown.{copy_of}, Workspaces.{copy_elements}};

    /// A copy of these maps, which no iteration used, in a workspace for as many elements.
    pub fn in_workspace(workspace: CopyWorkspace, start: &'a Maps) -> Private<'a>
        requires { copy_elements workspace ≡ length start.now.words }
        ensures start { (copy_of result).start ≡ start.now.words }
        ensures begun { (copy_of result).begun ≡ 0 }
        ensures records { CopyRecords (copy_of result) [] }
    {
        let CopyWorkspace { pages, flags } = workspace;
        Private {
            start: words_of(start),
            pages,
            flags,
            begun: 0,
            serves: 0,
            under_way: false,
        }
    }

    /// The workspace of a copy, for another of as many elements. What its iterations did is forgotten.
    pub fn into_workspace(self) -> CopyWorkspace
        ensures { copy_elements result ≡ length (copy_of self.entry).start }
    {
        let Private {
            mut pages,
            mut flags,
            ..
        } = self;
        pages.clear();
        flags.clear();
        CopyWorkspace { pages, flags }
    }
}
