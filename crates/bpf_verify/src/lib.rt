//! The verifier: which programs are safe to run, how many instructions each of their functions takes at
//! most, and the operations that instructions are translated to.
//!
//! ```text
//! let unit = parse_unit(alloc, "maps 1\nmov64 r0, 0\nexit\n")?;
//! let program = verify(alloc, unit)?;     // program.callbacks() is 0, program.count(0) is 2
//! let unit = parse_unit(alloc, "maps 1\nexit\n")?;
//! let wrong = verify(alloc, unit);        // Rule::UnwrittenRegister (V12) at slot 0
//! ```
#![tactic(auto)]

mod accepting;
mod callback_rows;
mod counting;
mod error;
mod fields;
mod layout;
mod operations;
mod passing;
mod states;
mod table;
mod verified;

pub use accepting::verify;
pub use bpf_verify_model::Rule;
pub use callback_rows::{CallbackRows, JoinedRows};
pub use error::VerifyError;
pub use fields::insns_fit;
pub use states::states_before;
pub use verified::Verified;
