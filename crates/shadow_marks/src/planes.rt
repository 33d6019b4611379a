//! Planes: what is remembered, element by element, of the iterations that ended.

ghost use Rattle.std.specs.Prelude.{◌≡◌, ◌<◌, ◌↔◌, IfOk, replicate, false, ℕ};
ghost use Rattle.loop_core_model.specs.Marks.{no_marks};
ghost use Rattle.shadow_marks.specs.Standing.{words_for, AreTested, ArePlanes, test_of, TestedStandAt};
ghost use Rattle.shadow_marks.specs.Standing.{no_visits, StandFor, IsUnmarkedPage};

use loop_core_model::Test;
use std::alloc::{AllocError, Global};

/// Planes for the LRPD test: a bit for each element, 64 in a word, the least first, and zero past the
/// end.
#[derive(Drop)]
pub struct LrpdPlanes {
    /// Some iteration writes the element.
    pub written: Vec<u64>,
    /// Two different iterations write it.
    pub written_by_two: Vec<u64>,
    /// Some iteration has an exposed read of it and doesn't write it.
    pub read_only: Vec<u64>,
    /// Some iteration has an exposed read of it and writes it.
    pub read_and_written: Vec<u64>,
}

/// What the flow test needs: a number for each element.
#[derive(Drop)]
pub struct FlowPlanes {
    /// The least index that writes the element; 4,294,967,295 where none does.
    pub first: Vec<u32>,
    /// One more than the greatest index with an exposed read of it; 0 where there is none.
    pub last: Vec<u32>,
}

/// What one test needs.
#[derive(Drop)]
pub enum Tested {
    Lrpd(LrpdPlanes),
    Flow(FlowPlanes),
}

/// For each operator a plane of bits: some iteration reduces the element by it.
#[derive(Drop)]
pub struct OperatorPlanes {
    pub add: Vec<u64>,
    pub or: Vec<u64>,
    pub and: Vec<u64>,
    pub xor: Vec<u64>,
    pub addh: Vec<u64>,
}

/// What is remembered of the iterations that ended, at each of n elements. The planes of bits
/// have 64 elements in a word, the least first, and are zero past the end.
#[derive(Drop)]
pub struct Planes {
    /// The number of elements.
    pub elements: u32,
    /// Some iteration makes a plain access of the element.
    pub plain: Vec<u64>,
    /// By which operators it is reduced.
    pub operators: OperatorPlanes,
    /// What the test needs besides.
    pub tested: Tested,
}

/// The first number of an element that no iteration writes.
pub const NO_WRITER: u32 = 4_294_967_295;

impl Planes {
    /// Planes for n elements and a test, on which no iteration was ended.
    pub fn try_new(alloc: Global, elements: u32, test: Test) -> Result<Planes, AllocError>
        ensures elements { IfOk result (λ planes. planes.elements ≡ elements) }
        ensures test { IfOk result (λ planes. test_of planes.tested ≡ test) }
        ensures none { IfOk result (λ planes. StandFor planes no_visits) }
    {
        Ok(Planes {
            elements,
            plain: bit_plane(alloc, elements)?,
            operators: OperatorPlanes {
                add: bit_plane(alloc, elements)?,
                or: bit_plane(alloc, elements)?,
                and: bit_plane(alloc, elements)?,
                xor: bit_plane(alloc, elements)?,
                addh: bit_plane(alloc, elements)?,
            },
            tested: tested_planes(alloc, elements, test)?,
        })
    }

    /// The test that they are for.
    pub fn test(&self) -> Test
        ensures { result ≡ test_of self.now.tested }
    {
        match &self.tested {
            Tested::Lrpd(_) => Test::Lrpd,
            Tested::Flow(_) => Test::Flow,
        }
    }

    /// Whether an iteration accessed an element of a page of 64 elements, plainly or by an operator. The page is one
    /// that the planes have: page 0 is elements 0 to 63.
    #[inline(always)]
    pub fn is_marked(&self, page: usize) -> bool
        requires whole { ArePlanes self.now }
        requires within { page < words_for self.now.elements }
        ensures { (result ≡ false) ↔ IsUnmarkedPage self.now page }
    {
        let by = &self.operators;
        (self.plain[page]
            | by.add[page]
            | by.or[page]
            | by.and[page]
            | by.xor[page]
            | by.addh[page])
            != 0
    }
}

/// A plane of bits, none of them set.
fn bit_plane(alloc: Global, elements: u32) -> Result<Vec<u64>, AllocError>
    ensures { IfOk result (λ words. words.items ≡ replicate (words_for elements) 0) }
{
    Ok(vec![in alloc; 0u64; (elements as usize + 63) / 64]?)
}

/// What a test needs where no iteration was ended.
fn tested_planes(alloc: Global, elements: u32, test: Test) -> Result<Tested, AllocError>
    ensures test { IfOk result (λ tested. test_of tested ≡ test) }
    ensures whole { IfOk result (λ tested. AreTested elements tested) }
    ensures none { IfOk result (λ tested. (e : ℕ) → e < elements → TestedStandAt tested e no_marks) }
{
    match test {
        Test::Lrpd => Ok(Tested::Lrpd(LrpdPlanes {
            written: bit_plane(alloc, elements)?,
            written_by_two: bit_plane(alloc, elements)?,
            read_only: bit_plane(alloc, elements)?,
            read_and_written: bit_plane(alloc, elements)?,
        })),
        Test::Flow => Ok(Tested::Flow(FlowPlanes {
            first: vec![in alloc; NO_WRITER; elements as usize]?,
            last: vec![in alloc; 0u32; elements as usize]?,
        })),
    }
}
