//! The words of a command line, as the job that they ask for.

ghost use Rattle.std.specs.Prelude.{◌≡◌, ℕ, List, map, true, IfOk, IfErr};
ghost use Rattle.clap.specs.Words.{subcommand_rows_of};
ghost use Rattle.bpfspec_command_line.specs.CommandLine.{AsksForJob, AsksForStats, Finds, WordsAskFor, bpfspec_app};
ghost use Rattle.bpfspec_command_line.specs.Faults.{AreNoCommand, AsksForHelp, is_help, is_usage};

use crate::commands::bpfspec_command;
use crate::faults::{line_fault, own_fault, value_fault};
use crate::job::{Job, LineFault, Mode, Request};
use crate::values::{ask_of, has_flag, loop_test, number_of, plan_of, unit_form};
use clap::ArgMatches;
use std::alloc::Global;
use std::convert::AsStr;
use std::env::Env;
use std::{env, io};

/// The job that the words ask for in which clap found these matches, or None where they name none of the program's
/// subcommands, or give it a value as `number_of`, `loop_test`, `plan_of` and `ask_of` take none.
#[tactic(auto, using(crate::proofs::CommandLaws::job_laws))]
fn job_of(matches: &ArgMatches<'_>) -> Option<Job>
    ensures { Finds (AsksForJob (subcommand_rows_of matches.now)) result }
{
    let (name, values) = matches.subcommand()?;
    let form = unit_form(values);
    match name {
        "verify" => Some(Job::Serve(Mode::Verify { form })),
        "order" => Some(Job::Serve(Mode::Order {
            form,
            arg: number_of(values, "arg")?,
        })),
        "run" => Some(Job::Run {
            form,
            arg: number_of(values, "arg")?,
            plan: plan_of(values)?,
        }),
        "replay" => Some(Job::Serve(Mode::Replay {
            form,
            arg: number_of(values, "arg")?,
            test: loop_test(values)?,
        })),
        "facts" => Some(Job::Facts(ask_of(values)?)),
        "asm" => Some(Job::Serve(Mode::Asm)),
        "disasm" => Some(Job::Serve(Mode::Disasm)),
        _ => None,
    }
}

/// Whether the words ask for stats in which clap found these matches: run by its flag --stats, and no other subcommand.
fn asks_for_stats(matches: &ArgMatches<'_>) -> bool
    ensures { AsksForStats (subcommand_rows_of matches.now) result }
{
    match matches.subcommand_matches("run") {
        Some(run) => has_flag(run, "stats"),
        None => false,
    }
}

/// Reads the words of a command line, the program's name first.
///
/// It fails with `Help` where they ask for help or the version (`--help`, `-h`, `help`, `--version`, `-V`), and with
/// the text that they ask for; with `Usage` where they aren't `verify [--hex]`, `order [--hex] [--arg N]`,
/// `run [--hex] [--arg N] [--workers W] [--blocks B] [--test flow|lrpd] [--way pays|blocks] [--stats]`,
/// `replay [--hex] [--arg N] [--test flow|lrpd]`, `facts [--hex] [--arg N] [--test flow|lrpd] [--states] [--all]
/// [--grid]`, N from 0 to 18446744073709551615, W from 1 to 16, B from 1 to 64, `asm` or `disasm`; and with `Memory`
/// where there is no memory.
pub fn read_words<S: AsStr>(alloc: Global, words: &[S]) -> Result<Request, LineFault>
    ensures request { IfOk result (WordsAskFor (map S.text words.now)) }
    ensures help { IfErr result (λ fault. is_help fault ≡ true → AsksForHelp bpfspec_app (map S.text words.now)) }
    ensures usage { IfErr result (λ fault. is_usage fault ≡ true → AreNoCommand (map S.text words.now)) }
{
    let mut command = bpfspec_command(alloc)?;
    let matches = match command.try_get_matches_from_mut(words) {
        Ok(matches) => matches,
        Err(error) => return Err(line_fault(alloc, words, &error)?),
    };
    let stats = asks_for_stats(&matches);
    match job_of(&matches) {
        Some(job) => Ok(Request { job, stats }),
        None => Err(value_fault(alloc, &matches)?),
    }
}

/// Reads the words that the process was started with. It fails as `read_words` does, and with `Usage`
/// where one of them isn't UTF-8.
pub fn read_command_line<R: Env + AllocGlobal>(rt: &R) -> Result<Request, LineFault>
    ensures request { IfOk result (λ request. (words : List (List ℕ)) × WordsAskFor words request) }
    ensures help { IfErr result (λ fault. is_help fault ≡ true
        → (words : List (List ℕ)) × AsksForHelp bpfspec_app words) }
{
    let alloc = rt.alloc();
    let arguments = match env::args(rt) {
        Ok(arguments) => arguments,
        Err(error) if matches!(error.kind(), io::ErrorKind::OutOfMemory) => {
            return Err(LineFault::Memory);
        }
        Err(_) => return Err(own_fault(alloc, bpfspec_command(alloc)?, "a word isn't UTF-8")?),
    };
    let words: Vec<String> = arguments.collect(alloc)?;
    read_words(alloc, &words)
}
