//! Why an input has no result, and the line that says so.

ghost use Rattle.std.specs.{Prelude.{◌≡◌, ◌++◌, IfOk, OnOk}, String.{string_bytes}};
ghost use Rattle.bpfspec_output.specs.{declared.refusal.Refusal.TheVariants.{Text, Codec}, Refusals.{refusal_line}};
ghost use Rattle.bpfspec_output.specs.Refusals.{section_name, what_is_refused};

use bpf_insn::CodecFault;
use bpf_text_lex::TextFault;
use bpf_verify_model::Rule;
use loop_core_model::{ReplayFault, SplitFault};
use std::alloc::{AllocError, Global};

/// The line printed if memory ran out.
pub const MEMORY_LINE: &[u8] = b"refused memory\n";

/// A section of an input.
#[derive(Clone, Copy)]
pub enum Section {
    /// The program and the sizes of its maps.
    Unit,
    /// The values of the maps.
    Maps,
    /// The bounds of blocks, and events.
    Events,
}

/// Why an input has no result.
#[derive(Clone, Copy)]
pub enum Refusal {
    /// A section is no text of its form.
    Text {
        fault: TextFault,
        section: Section,
        line: u32,
    },
    /// The bytes of the instructions spell no program.
    Codec {
        fault: CodecFault,
        slot: usize,
    },
    /// The program breaks a rule of the verifier.
    Rule {
        rule: Rule,
        slot: u32,
    },
    /// P1: the sizes of the maps differ from the program's.
    Sizes,
    /// P2: the plan by which the program is to run breaks a limit.
    Plan,
    /// None of the program's loop calls is valid.
    NoLoop,
    /// S1 to S3: the bounds don't split the loop's iterations.
    Split(SplitFault),
    /// E1 to E3: the events are no schedule of the loop.
    Schedule(ReplayFault),
}

/// A section's name.
pub fn section_name(section: Section) -> &'static str
    ensures { result.now ≡ section_name section }
{
    match section {
        Section::Unit => "unit",
        Section::Maps => "maps",
        Section::Events => "events",
    }
}

/// Adds what is refused, and where it is.
fn print_what(out: &mut String, refusal: Refusal) -> Result<(), AllocError>
    ensures { OnOk result (string_bytes out.new ≡ string_bytes out.old ++ what_is_refused refusal) }
{
    match refusal {
        Refusal::Text {
            fault,
            section,
            line,
        } => {
            let number = fault.number();
            let section = section_name(section);
            write!(out, "A{number} at {section} line {line}")
        }
        Refusal::Codec { fault, slot } => write!(out, "I{} at slot {slot}", fault.number()),
        Refusal::Rule { rule, slot } => write!(out, "V{} at slot {slot}", rule.number()),
        Refusal::Sizes => out.push_str("P1"),
        Refusal::Plan => out.push_str("P2"),
        Refusal::NoLoop => out.push_str("no loop"),
        Refusal::Split(SplitFault::Falling) => out.push_str("S1"),
        Refusal::Split(SplitFault::Number) => out.push_str("S2"),
        Refusal::Split(SplitFault::Ends) => out.push_str("S3"),
        Refusal::Schedule(ReplayFault::NoSuchWorker { event }) => write!(
            out,
            "E1 at event {event}"
        ),
        Refusal::Schedule(ReplayFault::NotEnabled { event }) => write!(out, "E2 at event {event}"),
        Refusal::Schedule(ReplayFault::NotEnded { events }) => write!(out, "E3 at event {events}"),
    }
}

/// The line of a refusal.
pub fn print_refusal(alloc: Global, refusal: Refusal) -> Result<String, AllocError>
    ensures { IfOk result (λ line. string_bytes line ≡ refusal_line refusal) }
{
    let mut out = String::from_str(alloc, "refused ")?;
    print_what(&mut out, refusal)?;
    out.push_str("\n")?;
    Ok(out)
}
