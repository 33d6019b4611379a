//! Following the iterations of a picture, element by element.

ghost use Rattle.std.specs.Prelude.{◌≡◌, ◌<◌, ◌≤◌, ◌++◌, IfOk, OnOk};
ghost use Rattle.bpf_verify_sound.specs.Soundness.{OverApproximatesCall};
ghost use Rattle.loop_core_witness.specs.Choosing.{indices_of};
ghost use Rattle.loop_core_witness.specs.Grids.{IsGridRow, AreRows, IsGrid, indices};

use crate::choosing::{Span, shown_elements, spans_of};
use crate::focus::Focus;
use crate::grid::{Cell, Grid, Row};
use crate::touching::touched_elements;
use array_maps::Maps;
use bpf_step::LoopCall;
use bpf_verify::Verified;
use loop_core_trace::trace_iteration;
use std::alloc::{AllocError, Global};

/// What an iteration does at elements.
fn row_of(
    alloc: Global,
    program: &Verified,
    call: &LoopCall,
    start: &Maps,
    index: u32,
    elements: &[u32],
) -> Result<Row, AllocError>
    requires known { OverApproximatesCall program.now call.now }
    requires sizes { start.now.sizes ≡ program.now.sizes }
    requires below { index < call.now.n }
    ensures index { IfOk result (λ row. row.index ≡ index) }
    ensures cells { IfOk result (IsGridRow program.now call.now start.now.words elements.now) }
{
    let mut maps = start.try_copy(alloc)?;
    let mut cells = Vec::new(alloc);
    for at in 0..elements.len() {
        let element = elements[at];
        let trace = trace_iteration(alloc, program, call, &mut maps, index, element)?;
        cells.push(Cell {
            element,
            slots: trace.slots,
        })?;
    }
    Ok(Row { index, cells })
}

/// Adds the rows of a span's iterations.
fn add_rows(
    rows: &mut Vec<Row>,
    alloc: Global,
    program: &Verified,
    call: &LoopCall,
    start: &Maps,
    span: Span,
    elements: &[u32],
) -> Result<(), AllocError>
    requires known { OverApproximatesCall program.now call.now }
    requires sizes { start.now.sizes ≡ program.now.sizes }
    requires rising { span.from ≤ span.past }
    requires within { span.past ≤ call.now.n }
    requires rows { AreRows program.now call.now start.now.words elements.now rows.old.items }
    ensures rows { OnOk result (AreRows program.now call.now start.now.words elements.now rows.new.items) }
    ensures iterations { OnOk result (indices rows.new.items ≡ indices rows.old.items ++ indices_of span) }
{
    for index in span.from..span.past {
        let row = row_of(alloc, program, call, start, index, elements)?;
        rows.push(row)?;
    }
    Ok(())
}

/// What the first `count` iterations of a loop call that main of this program made do, each run on the start maps:
/// at most 64 of them, and at most 64 of the elements that these access, with both iterations and the element of a
/// focus in their middle where that can be. Iterations of a focus that are further apart have 32 rows each around them.
/// Of an iteration after the first of those that breaks, the elements are shown that others access too. The start maps
/// are of the program's sizes.
pub fn grid_of_loop(
    alloc: Global,
    program: &Verified,
    call: &LoopCall,
    start: &Maps,
    count: u32,
    focus: Option<Focus>,
) -> Result<Grid, AllocError>
    requires known { OverApproximatesCall program.now call.now }
    requires sizes { start.now.sizes ≡ program.now.sizes }
    ensures { IfOk result (IsGrid program.now call.now start.now.words count focus) }
{
    let (lower, upper) = spans_of(count.min(call.n()), focus);
    let touched = touched_elements(alloc, program, call, start, lower, upper)?;
    let elements = shown_elements(alloc, touched.as_slice(), focus)?;
    let columns = elements.as_slice();
    let mut rows = Vec::new(alloc);
    add_rows(&mut rows, alloc, program, call, start, lower, columns)?;
    add_rows(&mut rows, alloc, program, call, start, upper, columns)?;
    Ok(Grid {
        elements,
        rows,
        lower,
        upper,
    })
}
