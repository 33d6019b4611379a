//! What a command line can ask for.

ghost use Rattle.std.specs.Prelude.{◌≡◌};

use loop_core_model::Test;
use loop_core_split::Plan;
use std::alloc::AllocError;
use thiserror::Error;

/// How a unit is written.
#[derive(Clone, Copy, Debug)]
pub enum UnitForm {
    /// As assembler text.
    Assembler,
    /// As hex digits.
    Hex,
}

/// What is done with an input.
#[derive(Clone, Copy, Debug)]
pub enum Mode {
    /// Reports whether a unit of this form is accepted.
    Verify {
        form: UnitForm,
    },
    /// Runs a unit of this form in order, with this argument.
    Order {
        form: UnitForm,
        arg: u64,
    },
    /// Runs a unit of this form in order up to its first valid loop call, with this argument, and replays
    /// that loop, which is checked for conflicts by this test.
    Replay {
        form: UnitForm,
        arg: u64,
        test: Test,
    },
    /// Writes a unit of assembler text in hex form.
    Asm,
    /// Writes a unit in hex form as assembler text.
    Disasm,
}

/// What is asked of the facts of an input.
#[derive(Clone, Copy, Debug)]
pub struct Ask {
    /// How its unit is written.
    pub form: UnitForm,
    /// Main's argument, where it runs.
    pub arg: u64,
    /// The test by which its loops conflict.
    pub test: Test,
    /// Whether the abstract values of an accepted unit are wanted, and not of a refused one alone.
    pub states: bool,
    /// Whether up to 64 elements that conflict are wanted of each loop, and not the least alone.
    pub all: bool,
    /// Whether it is wanted which elements the iterations of the first loop that conflicts access.
    pub grid: bool,
}

/// What a command line asks for.
#[derive(Clone, Copy, Debug)]
pub enum Job {
    /// To read the input in this mode and write the answer.
    Serve(Mode),
    /// To run a unit of this form with this argument, and its loops by this plan, which is within its limits.
    Run {
        form: UnitForm,
        arg: u64,
        plan: Plan,
    },
    /// To read the input and write its facts as records, as this asks.
    Facts(Ask),
}

/// A job, and whether statistics of it are printed.
#[derive(Clone, Copy, Debug)]
pub struct Request {
    /// The job.
    pub job: Job,
    /// Whether to print on standard error how the loops of a run were executed.
    pub stats: bool,
}

/// Why a command line asks for no job.
#[derive(Debug, Drop, Error)]
pub enum LineFault {
    /// The words are no command. The text says what is wrong with them.
    #[error("{0}")]
    Usage(String),
    /// The words ask for help, or for the version: this text.
    #[error("{0}")]
    Help(String),
    /// There was no memory to read the words.
    #[error("out of memory")]
    Memory,
}

impl From<AllocError> for LineFault {
    ghost use Rattle.bpfspec_command_line.specs.declared.job.LineFault.TheVariants.{Memory};

    ghost from_gives = { λ _ e. e ≡ Memory };

    fn from(_e: AllocError) -> LineFault {
        LineFault::Memory
    }
}
