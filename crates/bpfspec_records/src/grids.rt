//! The records of a grid: the iterations that it shows, and what each does at each element.

ghost use Rattle.std.specs.{Prelude.{◌≡◌, ◌++◌, OnOk}, List.{flat_map}};
ghost use Rattle.bpfspec_records.specs.Grids.{cell_records, shown_records};

use crate::adding::add;
use crate::elements::map_of;
use crate::loop_facts::{CellFact, GridFact};
use crate::records::Record;
use loop_core_witness::{Cell, Grid};
use std::alloc::AllocError;

/// Adds the records of those cells of an iteration whose element it accesses: its first access writes the element or is
/// an exposed read.
fn add_cells(
    records: &mut Vec<Record>,
    sizes: &[u32],
    number: usize,
    iteration: u32,
    cells: &[Cell],
) -> Result<(), AllocError>
    ensures { OnOk result (records.new.items ≡ records.old.items
        ++ flat_map (cell_records sizes.now number iteration) cells.now) }
{
    for cell in cells {
        let slots = cell.slots;
        if slots.write.is_some() || slots.read.is_some() {
            let (map, element) = map_of(sizes, cell.element);
            let fact = CellFact {
                number,
                iteration,
                map,
                element,
                slots,
            };
            add(records, Record::Cell(fact))?;
        }
    }
    Ok(())
}

/// Adds the records of the grid of a loop call with this number, if one is shown. The maps have these sizes.
pub(crate) fn add_shown(
    records: &mut Vec<Record>,
    sizes: &[u32],
    number: usize,
    shown: &Option<Grid>,
) -> Result<(), AllocError>
    ensures { OnOk result (records.new.items ≡ records.old.items ++ shown_records sizes.now number shown.now) }
{
    let Some(grid) = shown else {
        return Ok(());
    };
    let fact = GridFact {
        number,
        lower: grid.lower,
        upper: grid.upper,
    };
    add(records, Record::Grid(fact))?;
    let rows = grid.rows.as_slice();
    for row in rows {
        add_cells(records, sizes, number, row.index, row.cells.as_slice())?;
    }
    Ok(())
}
