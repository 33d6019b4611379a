//! Abstract values in records.

ghost use Rattle.std.specs.{Prelude.{◌≡◌, ◌++◌, OnOk}, String.{string_bytes}};
ghost use Rattle.bpfspec_records.specs.Values.{kind_word, range_fields, value_fields};

use crate::fields::{add_number, add_signed, add_wide, add_word};
use bpf_verify_model::AbstractValue;
use std::alloc::AllocError;
use value_range::Range;

/// Adds a range: its least word, its greatest, and how many trailing zero bits each has.
#[tactic(auto, unfolding(crate::specs::Values::range_fields))]
fn add_range(out: &mut String, range: Range) -> Result<(), AllocError>
    ensures { OnOk result (string_bytes out.new ≡ string_bytes out.old ++ range_fields range) }
{
    add_wide(out, "low", range.lo())?;
    add_wide(out, "high", range.hi())?;
    add_number(out, "shift", u64::from(range.zeros()))
}

/// The name of what a value is.
fn kind_word(value: &AbstractValue) -> &'static str
    ensures { result.now ≡ kind_word value.now }
{
    match *value {
        AbstractValue::Unwritten => "unwritten",
        AbstractValue::Number(_) => "number",
        AbstractValue::Frame(_) => "frame",
        AbstractValue::Ctx(_) => "main_frame",
        AbstractValue::Map(_) => "map",
        AbstractValue::Area(_, _) => "area",
        AbstractValue::AreaOrNull(_, _) => "area_or_null",
        AbstractValue::Code(_) => "callback",
    }
}

/// Adds an abstract value.
#[tactic(auto, unfolding(crate::specs::Values::value_fields, crate::specs::Values::known_fields))]
pub(crate) fn add_value(out: &mut String, value: &AbstractValue) -> Result<(), AllocError>
    ensures { OnOk result (string_bytes out.new ≡ string_bytes out.old ++ value_fields value.now) }
{
    add_word(out, "kind", kind_word(value))?;
    match *value {
        AbstractValue::Unwritten => Ok(()),
        AbstractValue::Number(range) => add_range(out, range),
        AbstractValue::Frame(position) | AbstractValue::Ctx(position) => {
            add_signed(out, "offset", i64::from(position) - 512)
        }
        AbstractValue::Map(map) => add_number(out, "map", u64::from(map)),
        AbstractValue::Area(map, range) | AbstractValue::AreaOrNull(map, range) => {
            add_number(out, "map", u64::from(map))?;
            add_range(out, range)
        }
        AbstractValue::Code(start) => add_number(out, "start", u64::from(start)),
    }
}
