//! The program between its streams: it reads an input, answers it, and writes the answer.
//!
//! ```text
//! let mut input = Counted::new(b"maps 1\nmov64 r0, 7\nexit\n".as_slice());
//! let mut output = Counted::new(Vec::new(alloc));
//! let job = Job::Serve(Mode::Verify { form: UnitForm::Assembler });
//! let served = serve(&rt, alloc, &job, &NoGate, &mut Unobserved, &mut input, &mut output);    // Served::Done
//! output.into_inner()                                             // "accepted\nfunction 0 at 0 count 2\n"
//! ```
#![tactic(auto)]

mod answer_error;
mod answering;
mod facts;
mod program;
mod program_end;
mod reading;
mod sections;
mod serving;
mod stats_text;
mod way_text;

pub use bpfspec_command_line::{
    Ask, Job, LineFault, Mode, Plan, Request, Test, UnitForm, read_command_line, read_words,
};
pub use bpfspec_output::{
    Counted, DeviceFault, ReadAllError, Sink, Source, read_all, read_outcome, write_all,
    write_outcome,
};
pub use loop_core_split::{Gate, NoGate};
pub use program::run;
pub use program_end::{ProgramEnd, exit_status};
pub use reading::MAX_READ;
pub use sections::{Parted, part};
pub use serving::{Answer, Served, answer_facts, answer_input, serve, write};
pub use spec_run::{Observer, Stats, Unobserved};
