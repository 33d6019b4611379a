//! How rows are read. A row has the lines of a program, of which ` | ` ends each, and after `%%` those of its maps
//! where they aren't all zero.

ghost use Rattle.std.specs.Prelude.{◌≡◌, IfSome};
ghost use Rattle.bpf_verify_sound.specs.Soundness.{OverApproximatesCall};

use array_maps::Maps;
use bpf_step::{LoopCall, Main, Turned};
use bpf_text::{parse_maps, parse_unit};
use bpf_verify::{Verified, verify};
use std::alloc::{AllocError, Global};

/// A program, and the maps that it starts on.
#[derive(Drop)]
pub struct Row {
    pub program: Verified,
    pub maps: Maps,
}

/// The loop call that main makes first, and the maps at it.
#[derive(Drop)]
pub struct FirstLoop {
    pub call: LoopCall,
    pub maps: Maps,
}

/// A loop call without ctx, after its number of iterations.
const LOOP: &str = "ldcode r2, cb | mov64 r3, 0 | mov64 r4, 0 | call 181 | exit | cb:";

/// The address of the element of R1 in R3.
const AT: &str = "mov64 r2, r1 | lsh64 r2, 3 | ldmapval r3, 0, 0 | add64 r3, r2";

const END: &str = "mov64 r0, 0 | exit";

/// A row as an input, with its abbreviations written out.
pub fn spelled_out(alloc: Global, row: &str) -> Result<String, AllocError> {
    let text = row.replace(alloc, "LOOP", LOOP)?;
    let text = text.replace(alloc, "AT", AT)?;
    let text = text.replace(alloc, "END", END)?;
    text.replace(alloc, " | ", "\n")
}

/// The maps of a program that have these values, or are all zero.
fn maps_of(alloc: Global, program: &Verified, values: &str) -> Option<Maps>
    ensures { IfSome result (λ maps. maps.sizes ≡ program.now.sizes) }
{
    let maps = if values.is_empty() {
        Maps::new(alloc, program.sizes()).ok()?
    } else {
        Maps::of(alloc, &parse_maps(alloc, values).ok()?).ok()?
    };
    if maps.sizes() == program.sizes() {
        Some(maps)
    } else {
        None
    }
}

/// The program of a row and its maps; `None` if the program is refused, the maps don't fit it, or memory ran out.
pub fn read_row(alloc: Global, row: &str) -> Option<Row>
    ensures { IfSome result (λ made. made.maps.sizes ≡ made.program.sizes) }
{
    let text = spelled_out(alloc, row).ok()?;
    let (unit, values) = text.split_once("\n%%\n").unwrap_or((text.as_str(), ""));
    let unit = parse_unit(alloc, unit).ok()?;
    let program = verify(alloc, unit).ok()?;
    let maps = maps_of(alloc, &program, values)?;
    Some(Row { program, maps })
}

/// The loop call that main makes at its first turn; `None` where it makes no valid one.
pub fn first_call(program: &Verified, maps: &mut Maps) -> Option<LoopCall>
    requires { maps.old.sizes ≡ program.now.sizes }
    ensures sizes { maps.new.sizes ≡ program.now.sizes }
    ensures known { IfSome result (OverApproximatesCall program.now) }
{
    // For the proof: the program is accepted, and how many words the maps have.
    let _unit = program.unit();
    let _sizes = maps.sizes();
    let mut main = Main::new(program, 0);
    match main.next(maps) {
        Turned::Loop(call) => Some(call),
        _ => None,
    }
}

/// The first loop of a row's program; `None` if main makes no valid loop call first, or if memory ran out.
pub fn first_loop(alloc: Global, row: &Row) -> Option<FirstLoop>
    requires { row.now.maps.sizes ≡ row.now.program.sizes }
    ensures known { IfSome result (λ first. OverApproximatesCall row.now.program first.call) }
    ensures sizes { IfSome result (λ first. first.maps.sizes ≡ row.now.program.sizes) }
{
    let mut maps = row.maps.try_copy(alloc).ok()?;
    let call = first_call(&row.program, &mut maps)?;
    Some(FirstLoop { call, maps })
}
