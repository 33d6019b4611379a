//! Serving: an input is read whole, answered, and the answer is written.

ghost use Rattle.std.specs.{Prelude.{◌≡◌, ◌+◌, ◌-◌, ◌^◌, ◌<◌, IfOk}, String.{string_bytes}};
ghost use Rattle.bpfspec_command_line.specs.declared.job.Job.TheVariants.{Serve, Facts as AsksForFacts};
ghost use Rattle.bpfspec_serve.specs.Answering.{Answers, answer_of, memory_text, Gives};
ghost use Rattle.bpfspec_serve.specs.HowServed.{AnswersReader, HowWritten, HowServed};
ghost use Rattle.bpfspec_serve.specs.Output.{refused_as, AnswerGives};
ghost use Rattle.bpfspec_output.specs.Streams.{ConsumesAtMost};

use crate::answer_error::AnswerError;
use crate::answering::{outcome, run_outcome};
use crate::facts::facts_of;
use crate::reading::MAX_READ;
use bpfspec_command_line::{Ask, Job, Mode};
use bpfspec_output::{
    MEMORY_LINE, ReadAllError, Refusal, Sink, Source, print_refusal, read_all, write_all,
};
use bpfspec_records::print_records;
use loop_core_split::Gate;
use spec_run::Observer;
use std::alloc::{AllocError, Global};
use std::thread::Threads;

/// How an input was served.
#[derive(Clone, Copy, Debug, PartialEq)]
pub enum Served {
    /// Its result was written.
    Done,
    /// Its refusal was written.
    Refused,
    /// The refusal of its text was written.
    Text,
    /// That memory ran out was written.
    Memory,
    /// A read or a write failed; what was written is a beginning of the answer.
    Device,
}

/// An answer: its text, and how it is served once that is written.
#[derive(Drop)]
pub struct Answer {
    /// How the input is served.
    pub served: Served,
    /// The text.
    pub text: String,
}

/// How a refusal is served.
pub(crate) fn refused_as(refusal: Refusal) -> Served
    ensures { result ≡ refused_as refusal }
{
    match refusal {
        Refusal::Text { .. } => Served::Text,
        _ => Served::Refused,
    }
}

/// The answer that says what came of an input.
fn answer_to(alloc: Global, outcome: Result<String, AnswerError>) -> Result<Answer, AllocError>
    ensures { IfOk result (λ answer. AnswerGives string_bytes outcome (answer_of answer)) }
{
    match outcome {
        Ok(text) => Ok(Answer {
            served: Served::Done,
            text,
        }),
        Err(AnswerError::Refused(refusal)) => Ok(Answer {
            served: refused_as(refusal),
            text: print_refusal(alloc, refusal)?,
        }),
        Err(AnswerError::Memory) => Err(AllocError),
    }
}

/// The answer to an input in a mode. Memory may run out.
pub fn answer_input(alloc: Global, mode: &Mode, input: &[u8]) -> Result<Answer, AllocError>
    ensures { IfOk result (λ answer. Answers (Serve mode.now) input.now (answer_of answer)) }
{
    answer_to(alloc, outcome(alloc, mode, input))
}

/// The answer to an input that is asked for its facts: a line for each. Memory may run out.
pub fn answer_facts(alloc: Global, ask: &Ask, input: &[u8]) -> Result<Answer, AllocError>
    ensures { IfOk result (λ answer. Answers (AsksForFacts ask.now) input.now (answer_of answer)) }
{
    let facts = facts_of(alloc, ask, input)?;
    Ok(Answer {
        served: facts.served,
        text: print_records(alloc, &facts.records)?,
    })
}

/// The answer to an input, as a job asks. Memory may run out.
fn answer_job<T: Threads + Sync, G: Gate, O: Observer>(
    rt: &T,
    alloc: Global,
    job: &Job,
    gate: &G,
    observer: &mut O,
    input: &[u8],
) -> Result<Answer, AllocError>
    ensures { IfOk result (λ answer. Answers job.now input.now (answer_of answer)) }
{
    match job {
        Job::Serve(mode) => answer_input(alloc, mode, input),
        Job::Run { form, arg, plan } => {
            let ran = run_outcome(rt, alloc, *form, *arg, plan, gate, observer, input);
            answer_to(alloc, ran)
        }
        Job::Facts(ask) => answer_facts(alloc, ask, input),
    }
}

/// The record where memory ran out.
const MEMORY_RECORD: &[u8] = b"{\"record\":\"end\",\"status\":4}\n";

/// What is written where there is no memory for a job.
fn memory_text(job: &Job) -> &'static [u8]
    ensures { result.now ≡ memory_text job.now }
{
    match job {
        Job::Serve(_) | Job::Run { .. } => MEMORY_LINE,
        Job::Facts(_) => MEMORY_RECORD,
    }
}

/// Writes a text, and returns how it was served: as wanted, unless a write failed.
pub fn write<W: Sink>(sink: &mut W, text: &[u8], wanted: Served) -> Served
    requires { W.failed sink.old < 2 ^ 64 - 1 }
    ensures { HowWritten text.now wanted result (λ n. W.failed sink.new ≡ W.failed sink.old + n)
        (W.taken sink.old) (W.taken sink.new) }
{
    match write_all(sink, text) {
        Ok(()) => wanted,
        Err(_) => Served::Device,
    }
}

/// Writes an answer, or where there is none this text, that memory ran out.
fn write_answer<W: Sink>(given: Result<Answer, AllocError>, memory: &[u8], sink: &mut W) -> Served
    requires { W.failed sink.old < 2 ^ 64 - 1 }
    ensures { HowServed (Gives given) memory.now result (λ n. n ≡ 0) (λ n. W.failed sink.new
        ≡ W.failed sink.old + n)
        (W.taken sink.old) (W.taken sink.new) }
{
    match given {
        Ok(answer) => write(sink, answer.text.as_bytes(), answer.served),
        Err(_) => write(sink, memory, Served::Memory),
    }
}

/// Reads an input to its end, at most 3,145,729 bytes, answers it as a job asks, and writes the answer. The answer is
/// whole before its first byte is written.
///
/// The workers of a run pass the gate, and run in threads that it waits for. Whatever they do when, the answer is the
/// report of the program in order, with the verdicts of the plan's test; or a refusal, P2 where the plan isn't within
/// its limits. The observer is notified of the program and its loop calls, and changes nothing.
///
/// The source's and the sink's `failures` have to be below 2^64 - 1.
pub fn serve<T: Threads + Sync, G: Gate, O: Observer, R: Source, W: Sink>(
    rt: &T,
    alloc: Global,
    job: &Job,
    gate: &G,
    observer: &mut O,
    source: &mut R,
    sink: &mut W,
) -> Served
    requires reads { R.failed source.old < 2 ^ 64 - 1 }
    requires writes { W.failed sink.old < 2 ^ 64 - 1 }
    ensures taken { ConsumesAtMost (R.left source.old) (R.left source.new) 3145729 }
    ensures answer { HowServed (AnswersReader job.now (R.left source.old) (R.left source.new)) (memory_text job.now)
        result (λ n. R.failed source.new ≡ R.failed source.old + n)
        (λ n. W.failed sink.new ≡ W.failed sink.old + n) (W.taken sink.old) (W.taken sink.new) }
{
    match read_all(alloc, source, MAX_READ) {
        Ok(input) => {
            let answer = answer_job(rt, alloc, job, gate, observer, &input);
            write_answer(answer, memory_text(job), sink)
        }
        Err(ReadAllError::Device) => Served::Device,
        Err(ReadAllError::Memory) => write(sink, memory_text(job), Served::Memory),
    }
}
