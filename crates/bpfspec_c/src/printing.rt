//! The calls that print what the program prints of an input.

ghost use Rattle.std.specs.Prelude.{◌≡◌};
ghost use Rattle.bpfspec_command_line.specs.declared.job.{Job.TheVariants.{Serve, Facts}, Mode.TheVariants.{Verify}};
ghost use Rattle.bpfspec_command_line.specs.declared.job.UnitForm.TheVariants.{Assembler, Hex};
ghost use Rattle.bpfspec_serve.specs.Answering.{Answers};
ghost use Rattle.bpfspec_c.specs.{Options.{ask_of}, Printing.{Gives, Prints, answer_status, given}};

use crate::options::{Options, ask_of};
use crate::statuses::{DONE, MALFORMED, MEMORY, OUT_OF_RANGE, REFUSED};
use bpfspec_serve::{Answer, Mode, Served, UnitForm, answer_facts, answer_input};
use std::alloc::{AllocError, Global};

/// The status of an answer.
fn answer_status(served: Served) -> i32
    ensures { result ≡ answer_status served }
{
    match served {
        Served::Done => DONE,
        Served::Refused => REFUSED,
        Served::Text => MALFORMED,
        Served::Memory | Served::Device => MEMORY,
    }
}

/// Writes what is printed to the front of a buffer, where there is room for it, and its size.
#[tactic(auto, using(crate::proofs::PrintLaws::give_laws))]
fn give(printed: Result<Answer, AllocError>, answer: &mut [u8], size: &mut usize) -> i32
    ensures { Gives (given printed) result answer.old answer.new size.old size.new }
{
    match printed {
        Ok(printed) => {
            let text = printed.text.as_bytes();
            *size = text.len();
            if text.len() > answer.len() {
                return OUT_OF_RANGE;
            }
            answer[..text.len()].copy_from_slice(text);
            answer_status(printed.served)
        }
        Err(_) => MEMORY,
    }
}

/// Prints what `verify` prints of an input.
#[unsafe(no_mangle)]
pub extern "C" fn bpfspec_verify(
    alloc: Global,
    input: &[u8],
    answer: &mut [u8],
    size: &mut usize,
) -> i32
    ensures { Prints (Answers (Serve (Verify Assembler)) input.now) result answer.old answer.new size.old size.new }
{
    let form = UnitForm::Assembler;
    give(
        answer_input(alloc, &Mode::Verify { form }, input),
        answer,
        size,
    )
}

/// Prints what `verify --hex` prints of an input.
#[unsafe(no_mangle)]
pub extern "C" fn bpfspec_verify_hex(
    alloc: Global,
    input: &[u8],
    answer: &mut [u8],
    size: &mut usize,
) -> i32
    ensures { Prints (Answers (Serve (Verify Hex)) input.now) result answer.old answer.new size.old size.new }
{
    let form = UnitForm::Hex;
    give(
        answer_input(alloc, &Mode::Verify { form }, input),
        answer,
        size,
    )
}

/// Prints what `facts` prints of an input, with these options.
#[unsafe(no_mangle)]
pub extern "C" fn bpfspec_facts(
    alloc: Global,
    input: &[u8],
    options: &Options,
    answer: &mut [u8],
    size: &mut usize,
) -> i32
    ensures { Prints (Answers (Facts (ask_of options.now)) input.now) result answer.old answer.new size.old size.new }
{
    give(answer_facts(alloc, &ask_of(options), input), answer, size)
}
