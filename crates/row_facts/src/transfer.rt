//! The transfer function: what is known of each value of a row list, by the operation that makes it.

ghost use Rattle.std.specs.Prelude.{◌≡◌, ℕ, List, ◌+◌, ◌%◌, ◌<◌, ◌≤◌, ◌^◌, IfOk, slice_index};
ghost use Rattle.std.specs.Prelude.{Some};
ghost use Rattle.bpf_step_model.specs.AreaWords.{looked_up_word};
ghost use Rattle.row_list.specs.Rows.{IsRowValue};
ghost use Rattle.row_facts.specs.Facts.{IsSure, IsFact, FitFacts, AreFacts};

use crate::arithmetic::{computed, computed_of_one};
use crate::fact::{Fact, either, number, sure, unknown, within};
use crate::lines::Line;
use bpf_insn_types::{AluOp, Compare, Width};
use row_list::RowOp;
use std::alloc::{AllocError, Global};
use value_range::{Condition, Operation, exact, norm, refine};

/// The greatest index of a lane.
const MOST_INDEX: u64 = 1 << 23;

/// What is known of a value, by its number.
pub(crate) fn fact_at(facts: &[Fact], value: usize) -> Fact
    ensures { (index : ℕ) (values : List ℕ) → FitFacts facts.now index values →
        IsFact result index (slice_index values value) }
{
    match facts.get(value).copied() {
        Some(fact) => fact,
        None => unknown(),
    }
}

/// What is known of a value, by its number, as a range and a line alone.
pub(crate) fn sure_at(facts: &[Fact], value: usize) -> Fact
    ensures { (index : ℕ) (values : List ℕ) → FitFacts facts.now index values →
        IsSure result index (slice_index values value) }
{
    sure(fact_at(facts, value))
}

/// What is known of an index.
fn index_fact() -> Fact
    ensures { (index : ℕ) → index ≤ 2 ^ 23 → IsSure result index index }
{
    let line = Line {
        bits: 64,
        scale: 1,
        offset: 0,
    };
    within(norm(0, MOST_INDEX, 0), line)
}

/// What is known of the area word of a key's value, or 0: the key is the lower half of a value.
fn found(first: u32, count: u32, value: Fact) -> Fact
    ensures { (index x : ℕ) → IsSure value index x → IsFact result index (looked_up_word first count (x % 2 ^ 32)) }
{
    let key = computed(Width::W32, AluOp::Mov, number(0), value);
    let keys = key.range;
    match refine(
        Condition::taken(Compare::Lt),
        Width::W64,
        keys,
        exact(count as u64),
    ) {
        None => number(0),
        Some(ranges) => {
            let below = ranges.0;
            let place = computed(Width::W64, AluOp::Mul, within(below, key.line), number(8));
            let base = 0x1_0000_0000 + 8 * first as u64;
            let address = computed(Width::W64, AluOp::Add, place, number(base));
            Fact {
                range: address.range,
                line: address.line,
                or_zero: keys.hi() >= count as u64,
            }
        }
    }
}

/// What is known of an operation's value, by the facts of those before it.
fn fact_of(op: &RowOp, facts: &[Fact]) -> Fact
    ensures { (index : ℕ) (caller words values : List ℕ) (n : ℕ) → index ≤ 2 ^ 23 → FitFacts facts.now index values →
        n < 2 ^ 64 → IsRowValue op.now index caller values words n → IsFact result index n }
{
    match *op {
        RowOp::Number(n) => number(n),
        RowOp::Index => index_fact(),
        RowOp::Alu {
            width,
            op,
            first,
            second,
        } => computed(width, op, sure_at(facts, first), sure_at(facts, second)),
        RowOp::Neg { width, value } => computed_of_one(
            Operation::Neg,
            width,
            sure_at(facts, value),
        ),
        RowOp::Movsx { width, bits, value } => {
            computed_of_one(Operation::Movsx(bits), width, sure_at(facts, value))
        }
        RowOp::Endian { order, bits, value } => {
            computed_of_one(
                Operation::Endian(order, bits),
                Width::W64,
                sure_at(facts, value),
            )
        }
        RowOp::Found { first, count, key } => found(first, count, sure_at(facts, key)),
        RowOp::Choice { first, second, .. } => either(
            fact_at(facts, first),
            fact_at(facts, second),
        ),
        _ => unknown(),
    }
}

/// What is known of each value of a list in the lanes of all indexes up to 2^23. It fails where memory runs out.
pub fn facts(alloc: Global, ops: &[RowOp]) -> Result<Vec<Fact>, AllocError>
    ensures { IfOk result (λ facts. AreFacts ops.now facts.items) }
{
    let mut facts = Vec::new(alloc);
    for op in ops {
        let fact = fact_of(op, &facts);
        facts.push(fact)?;
    }
    Ok(facts)
}
