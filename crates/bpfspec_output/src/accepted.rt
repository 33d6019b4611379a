//! What is printed of an accepted program.

ghost use Rattle.std.specs.{Prelude.{◌≡◌, IfOk}, String.{string_bytes}};
ghost use Rattle.bpfspec_output.specs.ReportText.{accepted_text};

use std::alloc::{AllocError, Global};

/// A function of an accepted program.
#[derive(Clone, Copy)]
pub struct Function {
    /// The slot at which it starts.
    pub start: u32,
    /// The most instructions that it takes.
    pub count: u32,
}

/// What is printed of an accepted program: that it is, and a line for each function, main first.
pub fn print_accepted(alloc: Global, functions: &[Function]) -> Result<String, AllocError>
    ensures { IfOk result (λ text. string_bytes text ≡ accepted_text functions.now) }
{
    let mut out = String::from_str(alloc, "accepted\n")?;
    for (number, function) in functions.iter().enumerate() {
        let Function { start, count } = *function;
        writeln!(out, "function {number} at {start} count {count}")?;
    }
    Ok(out)
}
