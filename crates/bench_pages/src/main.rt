//! Times what speculative loops do for each iteration and each block: an iteration on a private copy, which is `begin`,
//! two accesses and `end`, on one page, on 1,024 pages in turn and at random; and lane kernels on planes of 65,536
//! elements. Both tests. It prints what comes of them, and with an argument also the least time of some rounds.
#![tactic(auto)]

mod kernels;
mod rounds;

ghost use Rattle.std.specs.Prelude.{◌<◌};

use kernels::{judge_often, merge_often};
use loop_core_model::Test;
use rounds::{Pages, round};
use std::alloc::{AllocError, Global};
use std::time::Instant;
use std::{env, io};

/// What is timed.
#[derive(Clone, Copy, Debug)]
enum Work {
    Iterations(Pages),
    Merges,
    Conflicts,
}

const WORKS: [Work; 5] = [
    Work::Iterations(Pages::One),
    Work::Iterations(Pages::InTurn),
    Work::Iterations(Pages::AtRandom),
    Work::Merges,
    Work::Conflicts,
];

/// Rounds, of which the least time counts.
const ROUNDS: u32 = 10;

fn main(rt: HostRuntime) -> io::Result<()> {
    let timed = env::args(&rt)?.count() > 1;
    for test in [Test::Flow, Test::Lrpd] {
        for work in WORKS {
            println!(rt; "{test:?} {work:?}: {}", done(rt.alloc(), test, work, 1)?)?;
            if timed {
                let mut least = u128::MAX;
                for _ in 0..ROUNDS {
                    let start = Instant::now(&rt)?;
                    done(rt.alloc(), test, work, 1000)?;
                    least = least.min(start.elapsed(&rt)?.as_micros());
                }
                println!(rt;
                    "  {} picoseconds",
                    least.saturating_mul(1000) / size_of(work) as u128
                )?;
            }
        }
    }
    Ok(())
}

/// How often a work is done for each of its thousands.
fn size_of(work: Work) -> u32
    ensures { 0 < result }
{
    match work {
        Work::Iterations(_) => 4096,
        Work::Merges | Work::Conflicts => 16,
    }
}

/// What comes of a work that is done so often.
fn done(alloc: Global, test: Test, work: Work, times: u32) -> Result<u64, AllocError> {
    let many = size_of(work).saturating_mul(times);
    match work {
        Work::Iterations(pages) => round(alloc, test, pages, many),
        Work::Merges => Ok(merge_often(alloc, test, many)? as u64),
        Work::Conflicts => Ok(judge_often(alloc, test, many)? as u64),
    }
}
