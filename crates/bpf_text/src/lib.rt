//! The texts that programs and maps are read from and printed to: units as assembler text and in hex
//! form (a first line of sizes, then lines of hex digits), maps, and lists of events. A text that is
//! no text of its form is refused with the least line over all its faults, and there the least of
//! them.
//!
//! ```text
//! let unit = parse_unit(alloc, "maps 1\nmov64 r0, 7\nexit\n")?;   // its sizes and instructions
//! let text = print_unit(alloc, &unit)?;                           // the same text
//! let hex = write_hex(alloc, &unit)?;                             // "maps 1\nb700000007000000\n.."
//! let maps = parse_maps(alloc, "map 0: 5\n")?;                    // the values of each map
//! let wrong = parse_maps(alloc, "map 1: 5\n");                    // TextFault::Limits at line 1
//! ```
#![tactic(auto)]

mod assembler_printing;
mod assembler_reading;
mod events;
mod hex_printing;
mod hex_reading;
mod label;
pub mod laws;
mod maps;
mod maps_print;
mod program;

pub use assembler_printing::print_unit;
pub use assembler_reading::parse_unit;
pub use bpf_text_lex::{TextError, TextFault};
pub use events::parse_events;
pub use hex_printing::write_hex;
pub use hex_reading::{HexUnit, read_hex};
pub use loop_core_model::{Event, EventKind};
pub use maps::parse_maps;
pub use maps_print::print_maps;
