//! How the program ends, and its exit status.

ghost use Rattle.std.specs.Prelude.{◌≡◌};
ghost use Rattle.bpfspec_serve.specs.ExitStatus.{exit_status};

use crate::serving::Served;

/// How the program ends.
#[derive(Clone, Copy)]
pub enum ProgramEnd {
    /// An input was served, or help or the version written.
    Served(Served),
    /// The command line asks for nothing; its usage was written.
    Usage,
}

/// The exit status of a program that ends so.
pub fn exit_status(end: ProgramEnd) -> u8
    ensures { result ≡ exit_status end }
{
    match end {
        ProgramEnd::Served(Served::Done) => 0,
        ProgramEnd::Served(Served::Refused) => 1,
        ProgramEnd::Served(Served::Text) => 2,
        ProgramEnd::Usage => 3,
        ProgramEnd::Served(Served::Memory) => 4,
        ProgramEnd::Served(Served::Device) => 5,
    }
}
