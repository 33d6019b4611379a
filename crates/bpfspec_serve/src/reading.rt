//! What the sections of an input are.

ghost use Rattle.std.specs.Prelude.{◌≡◌, IfOk, Ok};
ghost use Rattle.array_maps.specs.MapList.{lists, zero_maps};
ghost use Rattle.bpf_text.specs.EventsText.{events_text};
ghost use Rattle.bpfspec_output.specs.declared.refusal.Refusal.TheVariants.{Text};
ghost use Rattle.bpfspec_serve.specs.declared.answer_error.AnswerError.TheVariants.{Refused};
ghost use Rattle.bpfspec_serve.specs.Output.{text_error, codec_error, readable, unit_program, fitting};
ghost use Rattle.bpfspec_serve.specs.Output.{maps_start_words, in_section, SatisfiesUnlessMemory, accepted, judged};

use crate::answer_error::AnswerError;
use array_maps::{Maps, MapsError};
use bpf_insn::{CodecError, decode};
use bpf_insn_types::Unit;
use bpf_text::{TextError, TextFault, parse_events, parse_maps, parse_unit, read_hex};
use bpf_verify::{Verified, VerifyError, verify};
use bpfspec_command_line::UnitForm;
use bpfspec_output::{Refusal, Section};
use loop_core_model::Event;
use std::alloc::Global;
use std::str;

/// The most bytes of an input.
const MAX_INPUT: usize = 3_145_728;

/// The most bytes that are read of one: a byte past the limit shows that it is too long.
pub const MAX_READ: usize = MAX_INPUT + 1;

/// A fault of the unit's text as a whole.
fn unit_refusal(fault: TextFault) -> AnswerError
    ensures { result ≡ Refused (Text fault Section.Unit 0) }
{
    AnswerError::Refused(Refusal::Text {
        fault,
        section: Section::Unit,
        line: 0,
    })
}

/// An input as a text.
pub(crate) fn readable(input: &[u8]) -> Result<&str, AnswerError>
    ensures { SatisfiesUnlessMemory (λ s. s.now) (λ outcome. outcome ≡ readable input.now) result }
{
    if input.len() > MAX_INPUT {
        return Err(unit_refusal(TextFault::TooLong));
    }
    match str::from_utf8(input) {
        Ok(text) => Ok(text),
        Err(_) => Err(unit_refusal(TextFault::Form)),
    }
}

/// The error of a section's text.
fn text_error(error: TextError, section: Section) -> AnswerError
    ensures { result ≡ text_error section error }
{
    match error {
        TextError::Refused { fault, line } => AnswerError::Refused(Refusal::Text {
            fault,
            section,
            line,
        }),
        TextError::Memory => AnswerError::Memory,
    }
}

/// The error of a program's bytes.
pub(crate) fn codec_error(error: CodecError) -> AnswerError
    ensures { result ≡ codec_error error }
{
    match error {
        CodecError::Refused { fault, slot } => AnswerError::Refused(Refusal::Codec { fault, slot }),
        CodecError::Memory => AnswerError::Memory,
    }
}

/// The unit of a section in hex form.
fn read_hex_unit(alloc: Global, section: &str) -> Result<Unit, AnswerError>
    ensures { SatisfiesUnlessMemory (λ unit. unit) (λ program. program ≡ unit_program UnitForm.Hex section.now) result }
{
    let parts = match read_hex(alloc, section) {
        Ok(parts) => parts,
        Err(error) => return Err(text_error(error, Section::Unit)),
    };
    let insns = match decode(alloc, &parts.bytes) {
        Ok(insns) => insns,
        Err(error) => return Err(codec_error(error)),
    };
    Ok(Unit {
        sizes: parts.sizes,
        insns,
    })
}

/// The unit of a section.
pub(crate) fn read_unit(alloc: Global, form: UnitForm, section: &str) -> Result<Unit, AnswerError>
    ensures { SatisfiesUnlessMemory (λ unit. unit) (λ program. program ≡ unit_program form section.now) result }
{
    match form {
        UnitForm::Assembler => match parse_unit(alloc, section) {
            Ok(unit) => Ok(unit),
            Err(error) => Err(text_error(error, Section::Unit)),
        },
        UnitForm::Hex => read_hex_unit(alloc, section),
    }
}

/// The accepted program of a unit.
#[tactic(auto, unfolding(crate::specs::Output::judged))]
pub(crate) fn accept_unit(alloc: Global, unit: Unit) -> Result<Verified, AnswerError>
    ensures { SatisfiesUnlessMemory (λ program. program) (λ outcome. outcome ≡ judged unit) result }
{
    match verify(alloc, unit) {
        Ok(program) => Ok(program),
        Err(VerifyError::Refused { rule, slot }) => {
            Err(AnswerError::Refused(Refusal::Rule { rule, slot }))
        }
        Err(VerifyError::Memory) => Err(AnswerError::Memory),
    }
}

/// The accepted program of a section.
pub(crate) fn accept(alloc: Global, form: UnitForm, section: &str) -> Result<Verified, AnswerError>
    ensures { SatisfiesUnlessMemory (λ program. program) (λ outcome. outcome ≡ accepted (unit_program form section.now))
        result }
{
    accept_unit(alloc, read_unit(alloc, form, section)?)
}

/// Maps of a program that are all zero.
fn zero_maps(alloc: Global, program: &Verified) -> Result<Maps, AnswerError>
    ensures { SatisfiesUnlessMemory (λ maps. maps) (λ outcome. outcome ≡ Ok (zero_maps program.now.sizes)) result }
{
    match Maps::new(alloc, program.sizes()) {
        Ok(maps) => Ok(maps),
        Err(MapsError::Limits) => unreachable!(),
        Err(MapsError::Memory) => Err(AnswerError::Memory),
    }
}

/// Maps of a program that have these values.
fn maps_of(alloc: Global, program: &Verified, values: &[Vec<u64>]) -> Result<Maps, AnswerError>
    ensures words { SatisfiesUnlessMemory (λ maps. maps.words) (λ outcome. outcome ≡ fitting program.now.sizes
        (Ok (lists values.now))) result }
    ensures sizes { IfOk result (λ maps. maps.sizes ≡ program.now.sizes) }
{
    let sizes = program.sizes();
    let maps = match Maps::of(alloc, values) {
        Ok(maps) => maps,
        Err(MapsError::Limits) => return Err(AnswerError::Refused(Refusal::Sizes)),
        Err(MapsError::Memory) => return Err(AnswerError::Memory),
    };
    if maps.sizes() != sizes {
        return Err(AnswerError::Refused(Refusal::Sizes));
    }
    Ok(maps)
}

/// The maps that a program starts with.
pub(crate) fn start_maps(
    alloc: Global,
    program: &Verified,
    section: &str,
) -> Result<Maps, AnswerError>
    ensures words { SatisfiesUnlessMemory (λ maps. maps.words) (λ outcome. outcome ≡ maps_start_words program.now.sizes
        section.now) result }
    ensures sizes { IfOk result (λ maps. maps.sizes ≡ program.now.sizes) }
{
    if section.is_empty() {
        return zero_maps(alloc, program);
    }
    match parse_maps(alloc, section) {
        Ok(values) => maps_of(alloc, program, &values),
        Err(error) => Err(text_error(error, Section::Maps)),
    }
}

/// The bounds and events of a section.
pub(crate) fn read_events(
    alloc: Global,
    section: &str,
) -> Result<(Vec<u32>, Vec<Event>), AnswerError>
    ensures { SatisfiesUnlessMemory (λ x. (x.0.items, x.1.items)) (λ outcome. outcome ≡ in_section Section.Events
        (events_text section.now)) result }
{
    match parse_events(alloc, section) {
        Ok(schedule) => Ok(schedule),
        Err(error) => Err(text_error(error, Section::Events)),
    }
}
