//! The records of a program's loop calls.

ghost use Rattle.std.specs.Prelude.{◌≡◌, ◌++◌, map, IfOk, OnOk};
ghost use Rattle.bpfspec_records.specs.Loops.{loop_records, pair_record};

use crate::adding::add;
use crate::elements::map_of;
use crate::grids::add_shown;
use crate::loop_facts::{LoopFact, PairFact};
use crate::records::Record;
use loop_core_witness::{Cause, Explained};
use std::alloc::{AllocError, Global};

/// Adds the records of why elements of a loop call conflict.
fn add_pairs(
    records: &mut Vec<Record>,
    sizes: &[u32],
    number: usize,
    causes: &[Cause],
) -> Result<(), AllocError>
    ensures { OnOk result (records.new.items ≡ records.old.items
        ++ map (pair_record sizes.now number) causes.now) }
{
    for cause in causes {
        let (map, element) = map_of(sizes, cause.element);
        let fact = PairFact {
            number,
            map,
            element,
            pair: cause.witness,
            end: cause.end,
        };
        add(records, Record::Pair(fact))?;
    }
    Ok(())
}

/// The records of the loop calls of a program whose maps have these sizes: of each the call, then its pairs, and then
/// its grid with its cells, if it has one. It fails where there is no memory.
pub fn loop_records(
    alloc: Global,
    sizes: &[u32],
    explained: &Explained,
) -> Result<Vec<Record>, AllocError>
    ensures { IfOk result (λ records. records.items ≡ loop_records sizes.now explained.now) }
{
    let mut records = Vec::new(alloc);
    let loops = explained.loops.as_slice();
    for (number, call) in loops.iter().enumerate() {
        let fact = LoopFact {
            number,
            line: call.line,
            iterations: call.iterations,
            flags: call.flags,
            strategy: call.strategy,
            broke: call.broke,
        };
        add(&mut records, Record::Loop(fact))?;
        add_pairs(&mut records, sizes, number, call.causes.as_slice())?;
        add_shown(&mut records, sizes, number, &call.grid)?;
    }
    Ok(records)
}
