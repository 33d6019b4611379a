//! The commands of the program, in terms of clap.

ghost use Rattle.std.specs.Prelude.{IfOk};
ghost use Rattle.clap.specs.Words.{new_app};
ghost use Rattle.bpfspec_command_line.specs.CommandLine.{IsArg, IsCommand, arg_rule, bpfspec_app, facts_app};
ghost use Rattle.bpfspec_command_line.specs.CommandLine.{flag_rule, hex_rule, order_app, replay_app, run_app};
ghost use Rattle.bpfspec_command_line.specs.CommandLine.{test_rule, valued_rule};

use clap::{Arg, ArgAction, Command};
use std::alloc::{AllocError, Global};

/// A flag of this name.
fn flag<'a>(alloc: Global, name: &'a str, help: &'a str) -> Arg<'a>
    ensures { IsArg (flag_rule name.entry.now) result }
{
    Arg::new(alloc, name)
        .long(name)
        .action(ArgAction::SetTrue)
        .help(help)
}

/// The flag --hex.
fn hex_flag<'a>(alloc: Global) -> Arg<'a>
    ensures { IsArg hex_rule result }
{
    flag(alloc, "hex", "Read the unit in hex form")
}

/// An option of this name with a value, which is this where it isn't given.
fn valued_option<'a>(
    alloc: Global,
    name: &'a str,
    value: &'a str,
    default: &'a str,
    help: &'a str,
) -> Arg<'a>
    ensures { IsArg (valued_rule name.entry.now default.entry.now) result }
{
    Arg::new(alloc, name)
        .long(name)
        .action(ArgAction::Set)
        .value_name(value)
        .default_value(default)
        .help(help)
}

/// The option --arg N, which is 0 where it isn't given.
fn arg_option<'a>(alloc: Global) -> Arg<'a>
    ensures { IsArg arg_rule result }
{
    valued_option(alloc, "arg", "N", "0", "The program's argument, in R1")
}

/// The option --test TEST, which is flow where it isn't given.
fn test_option<'a>(alloc: Global) -> Arg<'a>
    ensures { IsArg test_rule result }
{
    valued_option(
        alloc,
        "test",
        "TEST",
        "flow",
        "Which dependences conflict: flow or lrpd",
    )
}

/// A command of this name and with this help, without arguments.
fn new_command<'a>(alloc: Global, name: &'a str, about: &'a str) -> Command<'a>
    ensures { IsCommand (new_app name.entry.now) result }
{
    Command::new(alloc, name).about(about)
}

pub(crate) fn order_command<'a>(alloc: Global) -> Result<Command<'a>, AllocError>
    ensures { IfOk result (IsCommand order_app) }
{
    let args = vec![in alloc; hex_flag(alloc), arg_option(alloc)]?;
    new_command(alloc, "order", "Run a program in order").args(args)
}

pub(crate) fn run_command<'a>(alloc: Global) -> Result<Command<'a>, AllocError>
    ensures { IfOk result (IsCommand run_app) }
{
    let args = vec![in alloc;
        hex_flag(alloc),
        arg_option(alloc),
        valued_option(
            alloc,
            "workers",
            "N",
            "2",
            "The most workers of a loop, 1 to 16"
        ),
        valued_option(
            alloc,
            "blocks",
            "N",
            "4",
            "The most blocks of a loop, 1 to 64"
        ),
        test_option(alloc),
        valued_option(
            alloc,
            "way",
            "WAY",
            "pays",
            "Execution strategy: pays (the cheapest) or blocks (always)",
        ),
        flag(
            alloc,
            "stats",
            "Report each loop's strategy and time on standard error"
        ),
    ]?;
    new_command(alloc, "run", "Run a program, its loops in parallel").args(args)
}

pub(crate) fn replay_command<'a>(alloc: Global) -> Result<Command<'a>, AllocError>
    ensures { IfOk result (IsCommand replay_app) }
{
    let args = vec![in alloc; hex_flag(alloc), arg_option(alloc), test_option(alloc)]?;
    new_command(alloc, "replay", "Replay events of a program's first loop").args(args)
}

pub(crate) fn facts_command<'a>(alloc: Global) -> Result<Command<'a>, AllocError>
    ensures { IfOk result (IsCommand facts_app) }
{
    let args = vec![in alloc;
        hex_flag(alloc),
        arg_option(alloc),
        test_option(alloc),
        flag(
            alloc,
            "states",
            "Print the abstract values of an accepted program too"
        ),
        flag(
            alloc,
            "all",
            "Print up to 64 conflicting elements of each loop"
        ),
        flag(
            alloc,
            "grid",
            "Print what iterations of the first conflicting loop access"
        ),
    ]?;
    new_command(
        alloc,
        "facts",
        "Print why a program is refused or its loops conflict, as JSON Lines",
    )
    .args(args)
}

/// The end of the help: streams and exit statuses.
const STREAMS: &str = "\
Standard input has a program, the values of its maps, and events of a replay; results go to standard output.
In a clone, ./bpfspec explain says why a program is refused or a loop conflicts.

Exit status:
  0  done
  1  program, values or events refused
  2  malformed text
  3  usage error
  4  out of memory
  5  a read or write failed";

pub(crate) fn bpfspec_command<'a>(alloc: Global) -> Result<Command<'a>, AllocError>
    ensures { IfOk result (IsCommand bpfspec_app) }
{
    let commands = vec![in alloc;
        new_command(alloc, "verify", "Verify a program").arg(hex_flag(alloc))?,
        order_command(alloc)?,
        run_command(alloc)?,
        replay_command(alloc)?,
        facts_command(alloc)?,
        new_command(alloc, "asm", "Print assembler text in hex form"),
        new_command(alloc, "disasm", "Print the hex form as assembler text"),
    ]?;
    Command::new(alloc, "bpfspec")
        .version("0.1.0")
        .about("Verifies and runs untrusted BPF programs over array maps")
        .after_help(STREAMS)
        .subcommand_required(true)
        .subcommands(commands)
}
