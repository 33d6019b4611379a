//! Iterations on a private copy, one after another.

ghost use Rattle.std.specs.Prelude.{◌≡◌, ◌+◌, ◌<◌, ◌≤◌, length, OnOk};
ghost use Rattle.private_copy.specs.Shown.{copy_of};
ghost use Rattle.bench_pages.specs.Resting.{Rests};

use array_maps::{Maps, Store};
use loop_core_model::Test;
use private_copy::Private;
use shadow_marks::Planes;
use std::alloc::{AllocError, Global};

/// Which elements the iterations access.
#[derive(Clone, Copy, Debug)]
pub enum Pages {
    /// Those of one page.
    One,
    /// One of each page in turn.
    InTurn,
    /// Any.
    AtRandom,
}

/// The elements of 1,024 pages.
const ELEMENTS: u32 = 65536;

/// The element of an iteration.
fn element_of(pages: Pages, index: u32) -> u32
    ensures { result < ELEMENTS }
{
    match pages {
        Pages::One => index % 64,
        Pages::InTurn => 64 * (index % 1024) + index / 1024 % 64,
        Pages::AtRandom => index.wrapping_mul(2_654_435_769) / 65536,
    }
}

#[inline]
fn load(copy: &mut Private, e: u32) -> u64
    requires within { e < length (copy_of copy.old).start }
    requires served { 0 < (copy_of copy.old).serves }
    ensures start { (copy_of copy.new).start ≡ (copy_of copy.old).start }
    ensures serves { (copy_of copy.new).serves + 1 ≡ (copy_of copy.old).serves }
    ensures under_way { (copy_of copy.new).under_way ≡ (copy_of copy.old).under_way }
    ensures begun { (copy_of copy.new).begun ≡ (copy_of copy.old).begun }
{
    copy.load(e)
}

#[inline]
fn store(copy: &mut Private, e: u32, value: u64)
    requires within { e < length (copy_of copy.old).start }
    requires served { 0 < (copy_of copy.old).serves }
    ensures start { (copy_of copy.new).start ≡ (copy_of copy.old).start }
    ensures serves { (copy_of copy.new).serves + 1 ≡ (copy_of copy.old).serves }
    ensures under_way { (copy_of copy.new).under_way ≡ (copy_of copy.old).under_way }
    ensures begun { (copy_of copy.new).begun ≡ (copy_of copy.old).begun }
{
    copy.store(e, value);
}

/// Adds 1 to an element by a load and a store, as the iteration of an index.
#[inline]
fn iterate(
    alloc: Global,
    copy: &mut Private,
    planes: &mut Planes,
    e: u32,
    index: u32,
) -> Result<(), AllocError>
    requires rests { Rests copy.old planes.old index }
    requires within { e < length (copy_of copy.old).start }
    requires index { index < 4294967295 }
    ensures rests { OnOk result (Rests copy.new planes.new (index + 1)) }
    ensures start { (copy_of copy.new).start ≡ (copy_of copy.old).start }
{
    copy.begin(alloc, 2)?;
    let word = load(copy, e);
    store(copy, e, word.wrapping_add(1));
    copy.end(planes, index);
    Ok(())
}

/// Runs iterations from index 0 on.
fn run(
    alloc: Global,
    copy: &mut Private,
    planes: &mut Planes,
    pages: Pages,
    iterations: u32,
) -> Result<(), AllocError>
    requires rests { Rests copy.old planes.old 0 }
    requires elements { length (copy_of copy.old).start ≡ ELEMENTS }
{
    for index in 0..iterations {
        iterate(alloc, copy, planes, element_of(pages, index), index)?;
    }
    Ok(())
}

/// One map of zeros.
fn zeros(alloc: Global) -> Result<Maps, AllocError> {
    match Maps::new(alloc, &[ELEMENTS]) {
        Ok(maps) => Ok(maps),
        Err(_) => Err(AllocError),
    }
}

/// Runs n iterations on a new copy, and returns a sum over the plane of plain accesses.
pub(crate) fn round(
    alloc: Global,
    test: Test,
    pages: Pages,
    iterations: u32,
) -> Result<u64, AllocError> {
    let maps = zeros(alloc)?;
    let elements = maps.words().len() as u32;
    let mut copy = Private::try_new(alloc, &maps)?;
    let mut planes = Planes::try_new(alloc, elements, test)?;
    if elements == ELEMENTS {
        run(alloc, &mut copy, &mut planes, pages, iterations)?;
    }
    let mut sum = 0u64;
    for word in &planes.plain {
        sum = sum.wrapping_mul(31).wrapping_add(*word);
    }
    Ok(sum)
}
