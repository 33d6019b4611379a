//! What a Rattle program calls to run BPF programs of its own: it reads a unit and the values of its maps, verifies the
//! unit, runs it with its loops in parallel, and prints what came of it. docs/LIBRARY.md describes each call.
#![tactic(auto)]

use array_maps::{Maps, MapsError};
use bpf_text::{TextError, parse_maps, parse_unit, print_maps};
use bpf_verify::{VerifyError, verify};
use spec_run::{NoGate, Plan, Policy, Report, RunError, Test, run};
use std::alloc::{AllocError, Global};
use std::io;
use std::thread::Threads;
use thiserror::Error;

/// Eight iterations that add their index to the one element of map 0.
const UNIT: &str = "
maps 1
    mov64 r1, 8             ; how many iterations
    ldcode r2, callback
    mov64 r3, 0             ; no ctx
    mov64 r4, 0             ; no flags
    call 181                ; bpf_loop
    exit                    ; the answer is in r0
callback:                   ; the index is in r1
    ldmapval r2, 0, 0       ; the address of element 0 of map 0
    atomic64 add [r2+0], r1
    mov64 r0, 0             ; go on
    exit
";

/// The values of its map.
const VALUES: &str = "map 0: 5\n";

/// Why it gives no report.
#[derive(Debug, Drop, Error)]
enum Failure {
    #[error("{0}")]
    Text(#[from] TextError),
    #[error("{0}")]
    Refused(#[from] VerifyError),
    #[error("{0}")]
    Maps(#[from] MapsError),
    #[error("{0}")]
    Run(#[from] RunError),
    #[error("no memory")]
    Memory,
}

impl From<AllocError> for Failure {
    fn from(_refused: AllocError) -> Failure {
        Failure::Memory
    }
}

/// A report, and the values of all maps after the run as text.
#[derive(Drop)]
struct Ran {
    report: Report,
    maps: String,
}

/// Runs the unit by four workers.
fn run_unit<R: Threads + Sync>(rt: &R, alloc: Global) -> Result<Ran, Failure> {
    let program = verify(alloc, parse_unit(alloc, UNIT)?)?;
    let mut maps = Maps::of(alloc, &parse_maps(alloc, VALUES)?)?;
    let plan = Plan {
        workers: 4,
        blocks: 16,
        test: Test::Flow,
        policy: Policy::Pays,
    };
    let report = run(rt, alloc, &program, &mut maps, 0, &plan, &NoGate)?;
    let values = [maps.values(0).to_vec(alloc)?];
    Ok(Ran {
        report,
        maps: print_maps(alloc, &values)?,
    })
}

fn main(rt: HostRuntime) -> io::Result<()> {
    match run_unit(&rt, rt.alloc()) {
        Err(failure) => println!(rt; "{failure}"),
        Ok(ran) => {
            println!(rt; "returned {}", ran.report.ret)?;
            for line in ran.report.loops.iter() {
                println!(rt;
                    "loop at {} answered {}: {:?}",
                    line.slot, line.answer, line.verdict
                )?;
            }
            print!(rt; "{}", ran.maps)
        }
    }
}
