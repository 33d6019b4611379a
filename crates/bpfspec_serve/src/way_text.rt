//! Which way a loop call went, in words.

ghost use Rattle.std.specs.{Prelude.{◌≡◌, ◌++◌, OnOk, codes}, String.{string_bytes}};
ghost use Rattle.bpfspec_serve.specs.WayText.{plural, count_text, before_blocks, after_blocks, sums_text, steps_text};
ghost use Rattle.bpfspec_serve.specs.WayText.{workers_of, way_text, sums_reason, blocks_reason, reason_text};

use loop_core_model::Verdict;
use loop_core_split::{BlocksReason, Strategy};
use std::alloc::AllocError;

/// The ending of the name of this many things.
fn plural(count: usize) -> &'static str
    ensures { result.now ≡ plural count }
{
    if count == 1 { "" } else { "s" }
}

/// Adds a number of things, whose name takes an `s` where there isn't one.
pub(crate) fn write_count(out: &mut String, count: usize, thing: &str) -> Result<(), AllocError>
    ensures { OnOk result (string_bytes out.new ≡ string_bytes out.old ++ count_text count thing.now) }
{
    write!(out, "{count} ")?;
    out.push_str(thing)?;
    out.push_str(plural(count))
}

/// What a loop by blocks did before them.
fn before_blocks(why: BlocksReason) -> &'static str
    ensures { result.now ≡ before_blocks why }
{
    match why {
        BlocksReason::ReadsWritten => "watched then ",
        BlocksReason::Asked | BlocksReason::Lrpd | BlocksReason::Work => "",
    }
}

/// What it did after them.
fn after_blocks(verdict: Verdict) -> &'static str
    ensures { result.now ≡ after_blocks verdict }
{
    match verdict {
        Verdict::Parallel => "",
        Verdict::Conflict { .. } | Verdict::Refused | Verdict::InOrder => " then in order",
    }
}

/// Adds the steps of the way by blocks.
fn write_blocks(
    out: &mut String,
    blocks: u32,
    why: BlocksReason,
    verdict: Verdict,
) -> Result<(), AllocError>
    ensures { OnOk result (string_bytes out.new ≡ string_bytes out.old ++ (before_blocks why
        ++ count_text blocks (codes "block") ++ after_blocks verdict)) }
{
    out.push_str(before_blocks(why))?;
    write_count(out, blocks as usize, "block")?;
    out.push_str(after_blocks(verdict))
}

/// The step of a loop whose iterations only reduce elements.
fn sums_words(workers: u32) -> &'static str
    ensures { result.now ≡ sums_text workers }
{
    if workers == 1 { "in order" } else { "sums" }
}

/// Adds the steps of a way.
fn write_steps(out: &mut String, strategy: Strategy, verdict: Verdict) -> Result<(), AllocError>
    ensures { OnOk result (string_bytes out.new ≡ string_bytes out.old ++ steps_text strategy verdict) }
{
    match strategy {
        Strategy::InOrder => out.push_str("in order"),
        Strategy::Sums { workers } => out.push_str(sums_words(workers)),
        Strategy::Watched => out.push_str("watched"),
        Strategy::Blocks { blocks, why, .. } => write_blocks(out, blocks, why, verdict),
    }
}

/// How many workers a loop had.
fn workers_of(strategy: Strategy) -> u32
    ensures { result ≡ workers_of strategy }
{
    match strategy {
        Strategy::InOrder | Strategy::Watched => 1,
        Strategy::Sums { workers } => workers,
        Strategy::Blocks { workers, .. } => workers,
    }
}

/// Adds which way a loop went that came out so, and how many workers it had.
pub(crate) fn write_way(
    out: &mut String,
    strategy: Strategy,
    verdict: Verdict,
) -> Result<(), AllocError>
    ensures { OnOk result (string_bytes out.new ≡ string_bytes out.old ++ way_text strategy verdict) }
{
    write_steps(out, strategy, verdict)?;
    out.push_str(", ")?;
    write_count(out, workers_of(strategy) as usize, "worker")
}

/// Why a loop went that way whose iterations only reduce elements.
fn sums_reason(workers: u32) -> &'static str
    ensures { result.now ≡ sums_reason workers }
{
    if workers == 1 {
        "iterations only reduce elements, several workers don't pay"
    } else {
        "iterations only reduce elements"
    }
}

/// Why a loop went by blocks.
fn blocks_reason(why: BlocksReason) -> &'static str
    ensures { result.now ≡ blocks_reason why }
{
    match why {
        BlocksReason::Asked => "asked for by --way blocks",
        BlocksReason::Lrpd => "judged by the lrpd test",
        BlocksReason::Work => "private copies pay",
        BlocksReason::ReadsWritten => "an iteration read what was written",
    }
}

/// Why a loop went that way.
pub(crate) fn reason_of(strategy: Strategy) -> &'static str
    ensures { result.now ≡ reason_text strategy }
{
    match strategy {
        Strategy::InOrder => "asked for",
        Strategy::Sums { workers } => sums_reason(workers),
        Strategy::Watched => "no iteration read what an earlier one wrote",
        Strategy::Blocks { why, .. } => blocks_reason(why),
    }
}
