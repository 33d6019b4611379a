//! Why a command line asks for no job, as it is printed.

ghost use Rattle.std.specs.Prelude.{◌≡◌, ◌≢◌, IfOk, OnOk, true, false};
ghost use Rattle.clap.specs.Words.{kind_of};
ghost use Rattle.bpfspec_command_line.specs.Faults.{Shows, is_help, is_usage};

use crate::commands::{bpfspec_command, facts_command, order_command, replay_command, run_command};
use crate::job::LineFault;
use crate::values::{number_of, number_within, policy_of};
use clap::error::ErrorKind;
use clap::{ArgMatches, Command};
use std::alloc::{AllocError, Global};
use std::convert::AsStr;

/// The fault of words that are wrong in a way that clap doesn't check, printed as clap's own are: with this text and
/// the command's usage.
pub(crate) fn own_fault(
    alloc: Global,
    mut command: Command<'_>,
    wrong: &str,
) -> Result<LineFault, AllocError>
    ensures { IfOk result (λ fault. is_help fault ≡ false) }
{
    let error = command.error(ErrorKind::ValueValidation, wrong)?;
    Ok(LineFault::Usage(error.to_string(alloc)?))
}

/// The first option of a subcommand whose value clap takes and the program doesn't: its name, its value's name, and
/// what is wanted.
fn wrong_option(
    subcommand: &str,
    values: &ArgMatches<'_>,
) -> (&'static str, &'static str, &'static str) {
    let runs = subcommand == "run";
    if runs && number_within(values, "workers", 16).is_none() {
        ("workers", "N", "a number from 1 to 16")
    } else if runs && number_within(values, "blocks", 64).is_none() {
        ("blocks", "N", "a number from 1 to 64")
    } else if runs && policy_of(values).is_none() {
        ("way", "WAY", "pays or blocks")
    } else if number_of(values, "arg").is_none() {
        ("arg", "N", "a number from 0 to 18446744073709551615")
    } else {
        ("test", "TEST", "flow or lrpd")
    }
}

/// The fault of a value that clap takes and the program doesn't, with the usage of its subcommand.
pub(crate) fn value_fault(alloc: Global, matches: &ArgMatches<'_>) -> Result<LineFault, AllocError>
    ensures { IfOk result (λ fault. is_help fault ≡ false) }
{
    let (name, values) = matches.subcommand().unwrap_or(("order", matches));
    let command = match name {
        "run" => run_command(alloc)?,
        "replay" => replay_command(alloc)?,
        "facts" => facts_command(alloc)?,
        _ => order_command(alloc)?,
    };
    let command = command.bin_name(&format!(in alloc; "bpfspec {name}")?)?;
    let (option, value, wanted) = wrong_option(name, values);
    let given = values.get_str(option).unwrap_or("");
    let wrong = format!(in alloc;
        "invalid value '{given}' for '--{option} <{value}>': not {wanted}"
    )?;
    own_fault(alloc, command, &wrong)
}

/// What is said of words that ask this program for `explain`.
const EXPLAIN: &str = "\
'explain' is no command of this program: ./bpfspec and an installed bpfspec have it, by what 'facts' prints";

/// Whether the first word after the program's name and any `help` is `explain`.
fn names_explain<S: AsStr>(words: &[S]) -> bool {
    let mut named = words.iter().skip(1).map(|word| word.as_str());
    named.find(|word| *word != "help") == Some("explain")
}

/// The fault of a command line in which clap found this error: `Usage` where the words are wrong, and `Help` where they
/// ask for help or the version. Of `explain` it says where that is, since clap would take it for a misspelt `replay`.
/// It fails where clap ran out of memory, or there is none for the text.
pub(crate) fn line_fault<S: AsStr>(
    alloc: Global,
    words: &[S],
    error: &clap::Error,
) -> Result<LineFault, AllocError>
    ensures memory { OnOk result (kind_of error.now ≢ ErrorKind.OutOfMemory) }
    ensures help { IfOk result (λ fault. is_help fault ≡ true → Shows (kind_of error.now)) }
    ensures usage { IfOk result (λ fault. is_usage fault ≡ true → ¬ (Shows (kind_of error.now))) }
{
    match error.kind() {
        ErrorKind::OutOfMemory => Err(AllocError),
        ErrorKind::DisplayHelp | ErrorKind::DisplayVersion => {
            Ok(LineFault::Help(error.to_string(alloc)?))
        }
        ErrorKind::InvalidSubcommand if names_explain(words) => {
            own_fault(alloc, bpfspec_command(alloc)?, EXPLAIN)
        }
        _ => Ok(LineFault::Usage(error.to_string(alloc)?)),
    }
}
