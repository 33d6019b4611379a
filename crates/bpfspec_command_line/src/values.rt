//! The values that the arguments of a command give.

ghost use Rattle.clap.specs.Words.{found_of, rows_of};
ghost use Rattle.bpfspec_command_line.specs.CommandLine.{Finds, HasFlag, IsAskOf, IsForm, IsNumber, IsNumberWithin};
ghost use Rattle.bpfspec_command_line.specs.CommandLine.{IsPlanOf, IsPolicy, IsTest};

use crate::job::{Ask, UnitForm};
use clap::ArgMatches;
use loop_core_model::Test;
use loop_core_split::{Plan, Policy};

/// Whether the arguments have the flag of this name.
pub(crate) fn has_flag(matches: &ArgMatches<'_>, name: &str) -> bool
    ensures { HasFlag name.now (rows_of (found_of matches.now)) result }
{
    matches.get_flag(name)
}

/// The form of a unit that the arguments ask for, by --hex.
pub(crate) fn unit_form(matches: &ArgMatches<'_>) -> UnitForm
    ensures { IsForm (rows_of (found_of matches.now)) result }
{
    if has_flag(matches, "hex") {
        UnitForm::Hex
    } else {
        UnitForm::Assembler
    }
}

/// The test that the arguments name by --test, or None where they name another.
#[tactic(auto, using(crate::proofs::CommandLaws::word_laws))]
pub(crate) fn loop_test(matches: &ArgMatches<'_>) -> Option<Test>
    ensures { Finds (IsTest (rows_of (found_of matches.now))) result }
{
    match matches.get_str("test")? {
        "flow" => Some(Test::Flow),
        "lrpd" => Some(Test::Lrpd),
        _ => None,
    }
}

/// How the arguments choose each loop's way, by --way, or None where they name another.
#[tactic(auto, using(crate::proofs::CommandLaws::word_laws))]
pub(crate) fn policy_of(matches: &ArgMatches<'_>) -> Option<Policy>
    ensures { Finds (IsPolicy (rows_of (found_of matches.now))) result }
{
    match matches.get_str("way")? {
        "pays" => Some(Policy::Pays),
        "blocks" => Some(Policy::Blocks),
        _ => None,
    }
}

/// The number that an option of this name gives, or None where it is none below 2^64.
pub(crate) fn number_of(matches: &ArgMatches<'_>, name: &str) -> Option<u64>
    ensures { Finds (IsNumber name.now (rows_of (found_of matches.now))) result }
{
    matches.get_one::<u64>(name)
}

/// The same, or None where it isn't 1 to `most`.
pub(crate) fn number_within(matches: &ArgMatches<'_>, name: &str, most: u32) -> Option<u32>
    ensures { Finds (IsNumberWithin most name.now (rows_of (found_of matches.now))) result }
{
    let number = number_of(matches, name)?;
    if number == 0 || u64::from(most) < number {
        return None;
    }
    Some(number as u32)
}

/// The plan that the arguments give, or None where it isn't within its limits, or they name another test or way.
pub(crate) fn plan_of(matches: &ArgMatches<'_>) -> Option<Plan>
    ensures { Finds (IsPlanOf (rows_of (found_of matches.now))) result }
{
    Some(Plan {
        workers: number_within(matches, "workers", 16)?,
        blocks: number_within(matches, "blocks", 64)?,
        test: loop_test(matches)?,
        policy: policy_of(matches)?,
    })
}

/// What the arguments ask of facts, or None where they name another test or an argument that is no number.
pub(crate) fn ask_of(matches: &ArgMatches<'_>) -> Option<Ask>
    ensures { Finds (IsAskOf (rows_of (found_of matches.now))) result }
{
    Some(Ask {
        form: unit_form(matches),
        arg: number_of(matches, "arg")?,
        test: loop_test(matches)?,
        states: has_flag(matches, "states"),
        all: has_flag(matches, "all"),
        grid: has_flag(matches, "grid"),
    })
}
