//! The examples at the heads of `bpf_insn`, `bpf_text` and `bpf_verify`.

use crate::tests::asserts::assert_same;
use bpf_insn::{CodecError, CodecFault, decode, encode};
use bpf_text::{TextError, TextFault, parse_maps, parse_unit, print_unit, write_hex};
use bpf_verify::{Rule, VerifyError, verify};
use std::alloc::Global;
use std::test::Fail;

const UNIT: &str = "maps 1\nmov64 r0, 7\nexit\n";

#[test]
fn bytes_are_an_exit(rt: HostRuntime) -> Result<(), Fail> {
    let alloc = rt.alloc();
    let insns = decode(alloc, b"\x95\0\0\0\0\0\0\0")?;
    let bytes = encode(alloc, &insns)?;
    assert_same(&rt, insns.len(), 1);
    assert_same(&rt, bytes.as_slice(), b"\x95\0\0\0\0\0\0\0".as_slice());
    Ok(())
}

/// How bytes are refused.
fn fault_of(alloc: Global, bytes: &[u8]) -> Option<CodecError> {
    decode(alloc, bytes).err()
}

#[test]
fn other_bytes_are_refused(rt: HostRuntime) {
    for (bytes, fault, number) in [
        (b"\x95\0\0\0\0\0\0".as_slice(), CodecFault::Incomplete, 1),
        (
            b"\x8d\0\0\0\0\0\0\0".as_slice(),
            CodecFault::UnknownOpcode,
            2,
        ),
    ] {
        let refused = CodecError::Refused { fault, slot: 0 };
        assert_same(&rt, fault_of(rt.alloc(), bytes), Some(refused));
        assert_same(&rt, fault.number(), number);
    }
}

#[test]
fn a_text_is_a_unit(rt: HostRuntime) -> Result<(), Fail> {
    let alloc = rt.alloc();
    let unit = parse_unit(alloc, UNIT)?;
    assert_same(&rt, print_unit(alloc, &unit)?.as_str(), UNIT);
    assert_same(
        &rt,
        write_hex(alloc, &unit)?.as_str(),
        "maps 1\nb700000007000000\n9500000000000000\n",
    );
    Ok(())
}

#[test]
fn a_text_has_values(rt: HostRuntime) -> Result<(), Fail> {
    let maps = parse_maps(rt.alloc(), "map 0: 5\n")?;
    assert_same(&rt, maps.len(), 1);
    Ok(())
}

#[test]
fn a_text_without_map_0_is_refused(rt: HostRuntime) {
    let wrong = parse_maps(rt.alloc(), "map 1: 5\n").err();
    let refused = TextError::Refused {
        fault: TextFault::Limits,
        line: 1,
    };
    assert_same(&rt, wrong, Some(refused));
}

#[test]
fn a_program_is_accepted(rt: HostRuntime) -> Result<(), Fail> {
    let alloc = rt.alloc();
    let unit = parse_unit(alloc, "maps 1\nmov64 r0, 0\nexit\n")?;
    let program = verify(alloc, unit)?;
    let unit = parse_unit(alloc, "maps 1\nexit\n")?;
    let wrong = verify(alloc, unit);
    assert_same(&rt, [program.callbacks(), program.count(0)], [0, 2]);
    assert!(rt;
        matches!(
            wrong,
            Err(VerifyError::Refused {
                rule: Rule::UnwrittenRegister,
                slot: 0
            })
        )
    );
    Ok(())
}
