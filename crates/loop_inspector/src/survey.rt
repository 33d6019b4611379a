//! What is known of the iterations of a list before they run.

ghost use Rattle.std.specs.Prelude.{IfOk, IfSome};
ghost use Rattle.loop_inspector.specs.Inspections.{IsSurvey};

use crate::open::open_spans;
use crate::reach::Span;
use row_facts::{Site, facts, is_ordered, sites};
use row_list::RowOp;
use std::alloc::{AllocError, Global};

/// The sites of a list, and the elements at which its iterations may conflict.
#[derive(Drop)]
pub(crate) struct Survey {
    pub sites: Vec<Site>,
    pub spans: Vec<Span>,
}

/// What is known of the iterations of a list, of indexes below n. `None` where an operation takes what doesn't come
/// before it. It fails where memory runs out.
pub(crate) fn survey_of(alloc: Global, ops: &[RowOp], n: u32) -> Result<Option<Survey>, AllocError>
    ensures { IfOk result (λ found. IfSome found (IsSurvey ops.now n)) }
{
    if !is_ordered(ops) {
        return Ok(None);
    }
    let facts = facts(alloc, ops)?;
    let sites = sites(alloc, ops, &facts)?;
    let spans = open_spans(alloc, sites.as_slice(), n)?;
    Ok(Some(Survey { sites, spans }))
}
