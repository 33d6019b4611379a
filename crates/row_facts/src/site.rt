//! The sites of a row list, with what is known of the bytes that lanes access there.

ghost use Rattle.std.specs.Prelude.{◌≡◌, ℕ, ◌%◌, ◌^◌, IfOk, Some};
ghost use Rattle.bpf_step_model.specs.AreaWords.{byte_named};
ghost use Rattle.value_range.specs.Spans.{Contains};
ghost use Rattle.row_list.specs.Places.{place_in};
ghost use Rattle.row_facts.specs.{Facts.{IsSure}, Sites.{IsAddressIn, AreSites, IsSiteOf}};

use crate::arithmetic::computed;
use crate::fact::{Fact, number, unknown, within};
use crate::lines::cut;
use crate::nonzero::is_nonzero;
use crate::transfer::fact_at;
use bpf_insn_types::{AluOp, Width};
use row_list::{Place, RowOp};
use std::alloc::{AllocError, Global};
use value_range::{Operation, Range, alu, exact, top};

/// An access, where it is made, and what is known of the byte that the lanes name that make it.
#[derive(Clone, Copy)]
pub struct Site {
    pub op: RowOp,
    pub place: Place,
    pub byte: Fact,
}

/// The lower halves of words of a range: all of them, but where the upper halves are the same.
fn in_area(range: Range) -> Range
    ensures { (x : ℕ) → Contains range x → Contains result (x % 2 ^ 32) }
{
    let area = range.lo() >> 32;
    if range.hi() >> 32 == area {
        alu(
            Operation::Alu(AluOp::Sub),
            Width::W64,
            range,
            exact(area << 32),
        )
    } else {
        top(Width::W32)
    }
}

/// What is known of the byte that an address and an offset name.
fn byte_of(address: Fact, offset: i16) -> Fact
    ensures { (index x : ℕ) → IsSure address index x → IsSure result index (byte_named x offset) }
{
    let distance = number((offset as i64).cast_unsigned());
    let moved = computed(Width::W64, AluOp::Add, address, distance);
    within(in_area(moved.range), cut(moved.line, 32))
}

/// What is known of an address in the lanes of a mask. It fails where memory runs out.
fn address_in(
    alloc: Global,
    ops: &[RowOp],
    facts: &[Fact],
    mask: usize,
    value: usize,
) -> Result<Fact, AllocError>
    ensures { IfOk result (IsAddressIn ops.now facts.now mask value) }
{
    let fact = fact_at(facts, value);
    if !fact.or_zero || is_nonzero(alloc, ops, mask, value)? {
        Ok(fact)
    } else {
        Ok(unknown())
    }
}

/// An access at a place, with what is known of it.
fn site_at(
    alloc: Global,
    ops: &[RowOp],
    facts: &[Fact],
    op: &RowOp,
    place: Place,
) -> Result<Site, AllocError>
    requires { place_in op.now ≡ Some place }
    ensures { IfOk result (IsSiteOf ops.now facts.now op.now) }
{
    let address = address_in(alloc, ops, facts, place.mask, place.address)?;
    Ok(Site {
        op: *op,
        place,
        byte: byte_of(address, place.offset),
    })
}

/// The sites of a list, by what is known of its values. It fails where memory runs out.
pub fn sites(alloc: Global, ops: &[RowOp], facts: &[Fact]) -> Result<Vec<Site>, AllocError>
    ensures { IfOk result (λ sites. AreSites ops.now facts.now ops.now sites.items) }
{
    let mut sites = Vec::new(alloc);
    for op in ops {
        match op.place() {
            Some(place) => {
                let site = site_at(alloc, ops, facts, op, place)?;
                sites.push(site)?;
            }
            None => (),
        }
    }
    Ok(sites)
}
