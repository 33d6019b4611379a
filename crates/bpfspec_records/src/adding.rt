//! Records at the end of a list.

ghost use Rattle.std.specs.Prelude.{◌≡◌, ◌++◌, ◌∷◌, [], OnOk};

use crate::records::Record;
use std::alloc::AllocError;

/// Adds a record: by a slice of one, since the borrow checker has no plan for a push of an enum within an enum.
pub(crate) fn add(records: &mut Vec<Record>, fact: Record) -> Result<(), AllocError>
    ensures { OnOk result (records.new.items ≡ records.old.items ++ fact ∷ []) }
{
    records.extend_from_slice(&[fact])
}
