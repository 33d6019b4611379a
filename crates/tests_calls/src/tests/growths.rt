//! Under `rt try --test --fail-alloc N` each allocation fails in turn: the error is then out of memory, and no
//! other refusal.

use crate::tests::asserts::assert_same;
use bpf_insn::{CodecError, Insn, Unit, decode, encode};
use bpf_text::{TextError, parse_events, parse_maps, parse_unit, print_unit, read_hex, write_hex};
use bpf_verify::{Verified, VerifyError, verify};
use std::alloc::Global;
use std::process::Abort;
use std::test::Fail;

/// A loop, and its callback.
const TEXT: &str = "maps 1 2\nldcode r2, +2\ncall 181\nexit\nmov64 r0, 0\nexit\n";

fn is_printed(rt: &impl Abort, alloc: Global, unit: &Unit) {
    match print_unit(alloc, unit) {
        Ok(text) => assert_same(rt, text.as_str(), TEXT),
        Err(error) => assert_same(rt, error, CodecError::Memory),
    }
}

fn is_read(rt: &impl Abort, alloc: Global, hex: &str) {
    match read_hex(alloc, hex) {
        Ok(coded) => assert_same(rt, coded.bytes.len(), 48),
        Err(error) => assert_same(rt, error, TextError::Memory),
    }
}

#[test]
fn of_a_unit(rt: HostRuntime) {
    match parse_unit(rt.alloc(), TEXT) {
        Ok(unit) => is_printed(&rt, rt.alloc(), &unit),
        Err(error) => assert_same(&rt, error, TextError::Memory),
    }
}

fn is_written(rt: &impl Abort, alloc: Global, unit: &Unit) {
    match write_hex(alloc, unit) {
        Ok(hex) => is_read(rt, alloc, &hex),
        Err(error) => assert_same(rt, error, CodecError::Memory),
    }
}

#[test]
fn of_a_unit_in_hex(rt: HostRuntime) {
    match parse_unit(rt.alloc(), TEXT) {
        Ok(unit) => is_written(&rt, rt.alloc(), &unit),
        Err(error) => assert_same(&rt, error, TextError::Memory),
    }
}

/// A load of a 64-bit immediate, and an exit.
const BYTES: &[u8] = b"\x18\x01\0\0\0\0\0\0\0\0\0\0\0\0\0\x80\x95\0\0\0\0\0\0\0";

fn are_encoded(rt: &impl Abort, alloc: Global, insns: &[Insn]) {
    match encode(alloc, insns) {
        Ok(bytes) => assert_same(rt, bytes.as_slice(), BYTES),
        Err(error) => assert_same(rt, error, CodecError::Memory),
    }
}

#[test]
fn of_bytes(rt: HostRuntime) {
    match decode(rt.alloc(), BYTES) {
        Ok(insns) => are_encoded(&rt, rt.alloc(), &insns),
        Err(error) => assert_same(&rt, error, CodecError::Memory),
    }
}

#[test]
fn of_events(rt: HostRuntime) {
    match parse_events(rt.alloc(), "bounds 0 4\nc0 s1\n") {
        Ok((bounds, events)) => assert_same(&rt, bounds.len() + events.len(), 4),
        Err(error) => assert_same(&rt, error, TextError::Memory),
    }
}

#[test]
fn of_maps(rt: HostRuntime) {
    match parse_maps(rt.alloc(), "map 0: 5\n") {
        Ok(maps) => assert_same(&rt, maps[0].as_slice(), [5].as_slice()),
        Err(error) => assert_same(&rt, error, TextError::Memory),
    }
}

/// A program with one callback.
const PROGRAM: &str = "maps 1\nldcode r2, cb\nmov64 r0, 7\nexit\ncb:\nmov64 r0, 0\nexit\n";

/// The program of a text; `None` if memory ran out.
fn program_of(rt: &impl Abort, alloc: Global, text: &str) -> Option<Verified> {
    match parse_unit(alloc, text) {
        Ok(unit) => accepted(rt, alloc, unit),
        Err(error) => {
            assert_same(rt, error, TextError::Memory);
            None
        }
    }
}

fn accepted(rt: &impl Abort, alloc: Global, unit: Unit) -> Option<Verified> {
    match verify(alloc, unit) {
        Ok(program) => Some(program),
        Err(error) => {
            assert_same(rt, error, VerifyError::Memory);
            None
        }
    }
}

/// A second try has the memory.
#[test]
fn of_a_program(rt: HostRuntime) -> Result<(), Fail> {
    let alloc = rt.alloc();
    let program = match program_of(&rt, alloc, PROGRAM) {
        None => program_of(&rt, alloc, PROGRAM),
        made => made,
    };
    let program = program.ok_or("a program")?;
    assert_same(&rt, [program.callbacks(), program.count(0)], [1, 3]);
    Ok(())
}
