//! The program, from the words of its command line to its exit status.

ghost use Rattle.std.specs.Prelude.{◌≡◌, ◌+◌, ◌-◌, ◌^◌, ◌<◌};
ghost use Rattle.bpfspec_serve.specs.{Answering.{memory_text}, ExitStatus.{exit_status}, HowRan.{HowRan}};
ghost use Rattle.bpfspec_serve.specs.HowServed.{AnswersReader, HowServed};

use crate::program_end::{ProgramEnd, exit_status};
use crate::serving::{Served, serve, write};
use crate::stats_text::print_stats;
use bpfspec_command_line::{LineFault, Request, read_command_line};
use bpfspec_output::{MEMORY_LINE, Sink, Source, write_all};
use loop_core_split::NoGate;
use spec_run::{Stats, Unobserved};
use std::alloc::Global;
use std::env::Env;
use std::thread::Threads;
use std::time::Clock;

/// Writes to `messages` how the loops of a run went. Where there is no memory for it, nothing is written.
fn report_stats<C: Clock, M: Sink>(alloc: Global, stats: &Stats<'_, C>, messages: &mut M)
    requires { M.failed messages.old < 2 ^ 64 - 1 }
{
    if let Ok(text) = print_stats(alloc, stats) {
        let _ = write_all(messages, text.as_bytes());
    }
}

/// Serves an input as the words of the command line ask, and writes to `messages` how the loops of a run went, where
/// they ask for that and it is done.
fn serve_request<R: AllocGlobal + Threads + Sync + Clock, S: Source, W: Sink, M: Sink>(
    rt: &R,
    request: &Request,
    input: &mut S,
    output: &mut W,
    messages: &mut M,
) -> Served
    requires reads { S.failed input.old < 2 ^ 64 - 1 }
    requires writes { W.failed output.old < 2 ^ 64 - 1 }
    requires reports { M.failed messages.old < 2 ^ 64 - 1 }
    ensures { HowServed (AnswersReader request.now.job (S.left input.old) (S.left input.new))
        (memory_text request.now.job) result
        (λ n. S.failed input.new ≡ S.failed input.old + n) (λ n. W.failed output.new ≡ W.failed output.old + n)
        (W.taken output.old) (W.taken output.new) }
{
    let alloc = rt.alloc();
    if !request.stats {
        return serve(
            rt,
            alloc,
            &request.job,
            &NoGate,
            &mut Unobserved,
            input,
            output,
        );
    }
    let mut stats = Stats::new(alloc, rt);
    let served = serve(rt, alloc, &request.job, &NoGate, &mut stats, input, output);
    if served == Served::Done {
        report_stats(alloc, &stats, messages);
    }
    served
}

/// Serves an input as the command line asks, or writes the help or the version that it asks for; or why it asks for
/// nothing: its usage to `messages`, or to `output` that memory ran out.
fn carry_out<R: Env + AllocGlobal + Threads + Sync + Clock, S: Source, W: Sink, M: Sink>(
    rt: &R,
    input: &mut S,
    output: &mut W,
    messages: &mut M,
) -> ProgramEnd
    requires reads { S.failed input.old < 2 ^ 64 - 1 }
    requires writes { W.failed output.old < 2 ^ 64 - 1 }
    requires reports { M.failed messages.old < 2 ^ 64 - 1 }
    ensures { HowRan (λ job. AnswersReader job (S.left input.old) (S.left input.new)) result
        (λ n. S.failed input.new ≡ S.failed input.old + n) (λ n. W.failed output.new ≡ W.failed output.old + n)
        (W.taken output.old) (W.taken output.new) }
{
    match read_command_line(rt) {
        Ok(request) => { ProgramEnd::Served(serve_request(rt, &request, input, output, messages)) }
        Err(LineFault::Help(text)) => {
            ProgramEnd::Served(write(output, text.as_bytes(), Served::Done))
        }
        Err(LineFault::Usage(text)) => {
            let _ = write_all(messages, text.as_bytes());
            ProgramEnd::Usage
        }
        Err(LineFault::Memory) => ProgramEnd::Served(write(output, MEMORY_LINE, Served::Memory)),
    }
}

/// Runs the program, and gives its exit status. Usage, and how the loops of a run went, is written to `messages`, all
/// else to `output`. It waits for the threads that a run takes, and for nothing else.
///
/// The `failures` of all three have to be below 2^64 - 1.
pub fn run<R: Env + AllocGlobal + Threads + Sync + Clock, S: Source, W: Sink, M: Sink>(
    rt: &R,
    input: &mut S,
    output: &mut W,
    messages: &mut M,
) -> u8
    requires reads { S.failed input.old < 2 ^ 64 - 1 }
    requires writes { W.failed output.old < 2 ^ 64 - 1 }
    requires reports { M.failed messages.old < 2 ^ 64 - 1 }
    ensures { (end : ProgramEnd) × (result ≡ exit_status end)
        × HowRan (λ job. AnswersReader job (S.left input.old) (S.left input.new)) end
        (λ n. S.failed input.new ≡ S.failed input.old + n) (λ n. W.failed output.new ≡ W.failed output.old + n)
        (W.taken output.old) (W.taken output.new) }
{
    exit_status(carry_out(rt, input, output, messages))
}
