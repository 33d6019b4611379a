//! Maps printed as a text.

ghost use Rattle.std.specs.{Prelude.{◌≡◌, ◌++◌, OnOk, IfOk}, List.{flat_map}, String.{string_bytes}};
ghost use Rattle.bpf_text.specs.MapsText.{lists, element_spelling, map_spelling, maps_spelling};

use std::alloc::{AllocError, Global};

/// Adds values to a text, each after a space.
fn print_values(out: &mut String, values: &[u64]) -> Result<(), AllocError>
    ensures { OnOk result (string_bytes out.new ≡ string_bytes out.old ++ flat_map element_spelling values.now) }
{
    for value in values {
        write!(out, " {value}")?;
    }
    Ok(())
}

/// Adds the line of a map to a text.
fn print_map(out: &mut String, number: usize, values: &[u64]) -> Result<(), AllocError>
    ensures { OnOk result (string_bytes out.new ≡ string_bytes out.old ++ map_spelling number values.now) }
{
    write!(out, "map {number}:")?;
    print_values(out, values)?;
    out.push_str("\n")
}

/// The one spelling of maps as a maps text: a line for each, map 0 first.
pub fn print_maps(alloc: Global, maps: &[Vec<u64>]) -> Result<String, AllocError>
    ensures { IfOk result (λ text. string_bytes text ≡ maps_spelling (lists maps.now)) }
{
    let mut out = String::new(alloc);
    for (number, values) in maps.iter().enumerate() {
        print_map(&mut out, number, values)?;
    }
    Ok(out)
}
