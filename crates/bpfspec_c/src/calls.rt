//! The calls of the library.

ghost use Rattle.std.specs.Prelude.{◌≡◌, None, length};
ghost use Rattle.bpfspec_machine.specs.Loading.{loaded, text_program, hex_program, insns_program};
ghost use Rattle.bpfspec_c.specs.Calls.{Holds, Loads, Runs, RunsEach, Tells, Sets, SetsWords, value_at, size_at};
ghost use Rattle.bpfspec_c.specs.Calls.{words_at, most_at, loop_at};

use crate::loaded::Loaded;
use crate::loop_line::{LoopLine, loop_line};
use crate::refusal::{Refusal, error_status, told_after};
use crate::statuses::{DONE, EMPTY, HELD, OUT_OF_RANGE};
use bpfspec_machine::{LoadError, Machine, load_hex, load_insns, load_text};
use std::alloc::Global;

/// The number of this interface. It grows where a call changes.
#[unsafe(no_mangle)]
pub extern "C" fn bpfspec_version() -> u32
    ensures { result ≡ 1 }
{
    1
}

/// Puts a machine into an empty handle, or reports why there is none.
fn hold(machine: &mut Loaded, loaded: Result<Box<Machine>, LoadError>, refusal: &mut Refusal) -> i32
    requires { machine.old.held.machine ≡ None }
    ensures { Holds loaded machine.new.held.machine result refusal.old refusal.new }
{
    match loaded {
        Ok(loaded) => {
            machine.put(loaded);
            DONE
        }
        Err(error) => {
            *refusal = told_after(&error, *refusal);
            error_status(&error)
        }
    }
}

/// Loads an assembler text into an empty handle.
#[tactic(auto, using(crate::proofs::CallLaws::load_laws))]
#[unsafe(no_mangle)]
pub extern "C" fn bpfspec_load(
    alloc: Global,
    machine: &mut Loaded,
    text: &[u8],
    refusal: &mut Refusal,
) -> i32
    ensures { Loads (loaded (text_program text.now)) machine.old.held.machine machine.new.held.machine result
        refusal.old refusal.new }
{
    if machine.is_loaded() {
        return HELD;
    }
    hold(machine, load_text(alloc, text), refusal)
}

/// Loads a text in hex form into an empty handle.
#[tactic(auto, using(crate::proofs::CallLaws::load_laws))]
#[unsafe(no_mangle)]
pub extern "C" fn bpfspec_load_hex(
    alloc: Global,
    machine: &mut Loaded,
    text: &[u8],
    refusal: &mut Refusal,
) -> i32
    ensures { Loads (loaded (hex_program text.now)) machine.old.held.machine machine.new.held.machine result
        refusal.old refusal.new }
{
    if machine.is_loaded() {
        return HELD;
    }
    hold(machine, load_hex(alloc, text), refusal)
}

/// Loads a program by the sizes of its maps and the bytes of its instructions into an empty handle.
#[tactic(auto, using(crate::proofs::CallLaws::load_laws))]
#[unsafe(no_mangle)]
pub extern "C" fn bpfspec_load_insns(
    alloc: Global,
    machine: &mut Loaded,
    sizes: &[u32],
    insns: &[u8],
    refusal: &mut Refusal,
) -> i32
    ensures { Loads (loaded (insns_program sizes.now insns.now)) machine.old.held.machine machine.new.held.machine result
        refusal.old refusal.new }
{
    if machine.is_loaded() {
        return HELD;
    }
    hold(machine, load_insns(alloc, sizes, insns), refusal)
}

/// Frees what a handle holds, and leaves it empty.
#[unsafe(no_mangle)]
pub extern "C" fn bpfspec_free(alloc: Global, machine: &mut Loaded)
    ensures { machine.new.held.machine ≡ None }
{
    machine.clear(alloc);
}

/// Runs a machine, its argument in R1, and gives the program's return value.
#[tactic(auto, using(crate::proofs::CallLaws::run_laws))]
#[unsafe(no_mangle)]
pub extern "C" fn bpfspec_run(
    alloc: Global,
    machine: &mut Loaded,
    argument: u64,
    answer: &mut u64,
) -> i32
    ensures { Runs argument machine.old.held.machine machine.new.held.machine result answer.old answer.new }
{
    let Some(mut held) = machine.take(alloc) else {
        return EMPTY;
    };
    *answer = held.run(argument);
    machine.put(held);
    DONE
}

/// Runs a machine once for each argument, in order, and gives the return values.
#[tactic(auto, using(crate::proofs::CallLaws::each_laws))]
#[unsafe(no_mangle)]
pub extern "C" fn bpfspec_run_each(
    alloc: Global,
    machine: &mut Loaded,
    arguments: &[u64],
    answers: &mut [u64],
) -> i32
    ensures { RunsEach arguments.now machine.old.held.machine machine.new.held.machine result answers.old answers.new }
{
    let Some(mut held) = machine.take(alloc) else {
        return EMPTY;
    };
    if arguments.len() != answers.len() {
        machine.put(held);
        return OUT_OF_RANGE;
    }
    held.run_each(arguments, answers);
    machine.put(held);
    DONE
}

/// Gives the value of an element of a map.
#[tactic(auto, using(crate::proofs::CallLaws::tell_laws))]
#[unsafe(no_mangle)]
pub extern "C" fn bpfspec_get(
    alloc: Global,
    machine: &mut Loaded,
    map: u32,
    index: u32,
    value: &mut u64,
) -> i32
    ensures { Tells (value_at map index) machine.old.held.machine machine.new.held.machine result
        value.old value.new }
{
    let Some(held) = machine.take(alloc) else {
        return EMPTY;
    };
    let found = held.get(map, index);
    machine.put(held);
    match found {
        Some(word) => {
            *value = word;
            DONE
        }
        None => OUT_OF_RANGE,
    }
}

/// Sets the value of an element of a map.
#[tactic(auto, using(crate::proofs::CallLaws::set_laws))]
#[unsafe(no_mangle)]
pub extern "C" fn bpfspec_set(
    alloc: Global,
    machine: &mut Loaded,
    map: u32,
    index: u32,
    value: u64,
) -> i32
    ensures { Sets map index value machine.old.held.machine machine.new.held.machine result }
{
    let Some(mut held) = machine.take(alloc) else {
        return EMPTY;
    };
    let there = held.set(map, index, value);
    machine.put(held);
    if there { DONE } else { OUT_OF_RANGE }
}

/// Gives the values of all elements of a map, which has as many.
#[tactic(auto, using(crate::proofs::CallLaws::words_laws))]
#[unsafe(no_mangle)]
pub extern "C" fn bpfspec_words(
    alloc: Global,
    machine: &mut Loaded,
    map: u32,
    words: &mut [u64],
) -> i32
    ensures { Tells (words_at map (length words.old)) machine.old.held.machine machine.new.held.machine result
        words.old words.new }
{
    let Some(held) = machine.take(alloc) else {
        return EMPTY;
    };
    let there = held.copy_words(map, words);
    machine.put(held);
    if there { DONE } else { OUT_OF_RANGE }
}

/// Sets the values of all elements of a map, which has as many.
#[tactic(auto, using(crate::proofs::CallLaws::set_words_laws))]
#[unsafe(no_mangle)]
pub extern "C" fn bpfspec_set_words(
    alloc: Global,
    machine: &mut Loaded,
    map: u32,
    words: &[u64],
) -> i32
    ensures { SetsWords map words.now machine.old.held.machine machine.new.held.machine result }
{
    let Some(mut held) = machine.take(alloc) else {
        return EMPTY;
    };
    let there = held.set_words(map, words);
    machine.put(held);
    if there { DONE } else { OUT_OF_RANGE }
}

/// Gives how many elements a map has.
#[tactic(auto, using(crate::proofs::CallLaws::tell_laws))]
#[unsafe(no_mangle)]
pub extern "C" fn bpfspec_size(alloc: Global, machine: &mut Loaded, map: u32, size: &mut u32) -> i32
    ensures { Tells (size_at map) machine.old.held.machine machine.new.held.machine result
        size.old size.new }
{
    let Some(held) = machine.take(alloc) else {
        return EMPTY;
    };
    let found = held.size(map);
    machine.put(held);
    match found {
        Some(elements) => {
            *size = elements;
            DONE
        }
        None => OUT_OF_RANGE,
    }
}

/// Gives the most instructions that a call of a function takes.
#[tactic(auto, using(crate::proofs::CallLaws::tell_laws))]
#[unsafe(no_mangle)]
pub extern "C" fn bpfspec_count(
    alloc: Global,
    machine: &mut Loaded,
    function: u32,
    count: &mut u32,
) -> i32
    ensures { Tells (most_at function) machine.old.held.machine machine.new.held.machine result
        count.old count.new }
{
    let Some(held) = machine.take(alloc) else {
        return EMPTY;
    };
    let found = held.count(function);
    machine.put(held);
    match found {
        Some(most) => {
            *count = most;
            DONE
        }
        None => OUT_OF_RANGE,
    }
}

/// Gives the slot and the answer of a loop call of the last run.
#[tactic(auto, using(crate::proofs::CallLaws::tell_laws))]
#[unsafe(no_mangle)]
pub extern "C" fn bpfspec_report(
    alloc: Global,
    machine: &mut Loaded,
    number: usize,
    report: &mut LoopLine,
) -> i32
    ensures { Tells (loop_at number) machine.old.held.machine machine.new.held.machine result
        report.old report.new }
{
    let Some(held) = machine.take(alloc) else {
        return EMPTY;
    };
    let found = loop_line(held.line(number));
    machine.put(held);
    match found {
        Some(line) => {
            *report = line;
            DONE
        }
        None => OUT_OF_RANGE,
    }
}
