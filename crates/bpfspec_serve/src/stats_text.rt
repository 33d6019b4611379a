//! What is printed of a run besides its answer: the strategy and time of each loop, and the time of the program.

use crate::way_text::{reason_of, write_count, write_way};
use spec_run::{LoopStats, Stats};
use std::alloc::{AllocError, Global};
use std::time::{Clock, Duration};

/// Adds a time, in milliseconds.
fn print_time(out: &mut String, time: Option<Duration>) -> Result<(), AllocError> {
    let Some(time) = time else {
        return out.push_str("? ms");
    };
    let millis = time.as_millis();
    let micros = time.subsec_micros() % 1_000;
    write!(out, "{millis}.{micros:03} ms")
}

/// Adds how many iterations a loop was called for, and before that how many there were if one broke it.
fn print_iterations(out: &mut String, call: &LoopStats) -> Result<(), AllocError> {
    if call.answer < call.called_for {
        write!(out, "{} of ", call.answer)?;
    }
    write_count(out, call.called_for as usize, "iteration")
}

/// Adds the line of a loop.
fn print_loop(out: &mut String, call: &LoopStats) -> Result<(), AllocError> {
    write!(out, "loop {} at {}: ", call.number, call.slot)?;
    print_iterations(out, call)?;
    out.push_str(", ")?;
    write_way(out, call.strategy, call.verdict)?;
    out.push_str(if call.has_list { ", list, " } else { ", " })?;
    print_time(out, call.time)?;
    out.push_str(": ")?;
    out.push_str(reason_of(call.strategy))?;
    out.push_str("\n")
}

/// A line for each loop of a run that wasn't refused, and one for the program.
pub(crate) fn print_stats<C: Clock>(
    alloc: Global,
    stats: &Stats<'_, C>,
) -> Result<String, AllocError> {
    let mut out = String::new(alloc);
    for call in stats.loops() {
        print_loop(&mut out, call)?;
    }
    out.push_str("program: ")?;
    write_count(&mut out, stats.loops().len(), "loop")?;
    out.push_str(", ")?;
    print_time(&mut out, stats.time())?;
    out.push_str("\n")?;
    Ok(out)
}
