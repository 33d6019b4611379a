//! What is printed of a program that ran, and of a loop that was replayed.

ghost use Rattle.std.specs.{Prelude.{◌≡◌, ◌++◌, IfOk, OnOk, length}, List.{sum}, String.{string_bytes}};
ghost use Rattle.loop_core_model.specs.declared.verdict.Verdict.TheVariants.{Conflict};
ghost use Rattle.bpf_text.specs.MapsText.{maps_spelling};
ghost use Rattle.bpfspec_output.specs.ReportText.{loop_line, replay_text, report_text, values_of, verdict_text};

use array_maps::Maps;
use bpf_text::print_maps;
use loop_core_model::{LoopReport, Verdict};
use std::alloc::{AllocError, Global};

/// Adds how a loop was carried out.
fn print_verdict(out: &mut String, verdict: Verdict) -> Result<(), AllocError>
    ensures { OnOk result (string_bytes out.new ≡ string_bytes out.old ++ verdict_text verdict) }
{
    match verdict {
        Verdict::Parallel => out.push_str("parallel"),
        Verdict::Conflict { count, least } => write!(out, "conflict {count} least {least}"),
        Verdict::Refused => out.push_str("refused"),
        Verdict::InOrder => out.push_str("in order"),
    }
}

/// Adds the line of a loop call, which has this number.
fn print_loop(out: &mut String, number: usize, line: &LoopReport) -> Result<(), AllocError>
    ensures { OnOk result (string_bytes out.new ≡ string_bytes out.old ++ loop_line number line.now) }
{
    let slot = line.slot;
    let answer = line.answer;
    write!(out, "loop {number} at {slot}: answer {answer}, ")?;
    print_verdict(out, line.verdict)?;
    out.push_str("\n")
}

/// Adds the maps.
fn print_values(alloc: Global, out: &mut String, maps: &Maps) -> Result<(), AllocError>
    ensures { OnOk result (string_bytes out.new ≡ string_bytes out.old
        ++ maps_spelling (values_of maps.now.sizes maps.now.words)) }
{
    let mut values = Vec::new(alloc);
    for map in 0..maps.sizes().len() {
        values.push(maps.values(map).to_vec(alloc)?)?;
    }
    out.push_str(&print_maps(alloc, &values)?)
}

/// What is printed of a loop that was replayed: its line, with its number among the program's loop calls,
/// and the maps after it.
pub fn print_replay(
    alloc: Global,
    number: usize,
    line: &LoopReport,
    maps: &Maps,
) -> Result<String, AllocError>
    ensures { IfOk result (λ text. string_bytes text ≡ replay_text maps.now.sizes number line.now maps.now.words) }
{
    let mut out = String::new(alloc);
    print_loop(&mut out, number, line)?;
    print_values(alloc, &mut out, maps)?;
    Ok(out)
}

/// What is printed of a program that ran: its return value, its loop calls and the maps after it.
pub fn print_report(
    alloc: Global,
    ret: u64,
    loops: &[LoopReport],
    maps: &Maps,
) -> Result<String, AllocError>
    ensures { IfOk result (λ text. string_bytes text ≡ report_text maps.now.sizes (record {
      ret = ret;
      loops = loops.now;
      words = maps.now.words;
    })) }
{
    let mut out = String::new(alloc);
    writeln!(out, "return {ret}")?;
    for (number, line) in loops.iter().enumerate() {
        print_loop(&mut out, number, line)?;
    }
    print_values(alloc, &mut out, maps)?;
    Ok(out)
}
