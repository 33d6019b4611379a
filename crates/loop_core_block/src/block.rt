//! A block that was run.

ghost use Rattle.std.specs.Prelude.{◌≡◌, ◌+◌, ◌*◌, ◌<◌, ◌≤◌, length, slice_get};
ghost use Rattle.private_copy.specs.{Reductions.{combination}, Overwriting.{AreOverwritten}};
ghost use Rattle.loop_core_block.specs.Blocks.{HasOtherPlanes};

use array_maps::Op;
use private_copy::Private;
use shadow_marks::{FlowPlanes, OperatorPlanes, Planes, Tested};
use std::alloc::Global;
use std::mem;

/// A block of a loop that was run up to its first break or to its end, each iteration on the loop's start words:
/// the marks that its iterations left, and at each element what they kept.
#[derive(Drop)]
pub struct Block<'a> {
    pub(crate) number: u32,
    pub(crate) first: u32,
    pub(crate) past: u32,
    pub(crate) broke: Option<u32>,
    pub(crate) planes: Planes,
    pub(crate) copy: Private<'a>,
}

impl<'a> Block<'a> {
    ghost use Rattle.loop_core_block.specs.Shown.{shown};

    /// Its number in the split.
    pub fn number(&self) -> u32
        ensures { result ≡ (shown self.now).number }
    {
        self.number
    }

    /// Its first index.
    pub fn first(&self) -> u32
        ensures { result ≡ (shown self.now).first }
    {
        self.first
    }

    /// The index after its last one: its first one where it is empty.
    pub fn past(&self) -> u32
        ensures { result ≡ (shown self.now).past }
    {
        self.past
    }

    /// The index at which it broke.
    pub fn broke(&self) -> Option<u32>
        ensures { result ≡ (shown self.now).broke }
    {
        self.broke
    }

    /// The marks of its iterations.
    pub fn planes(&self) -> &Planes
        ensures { result.now ≡ (shown self.now).planes }
    {
        &self.planes
    }

    /// The marks of its iterations, taken out of it: it keeps marks of no element.
    pub fn take_planes(&mut self, alloc: Global) -> Planes
        ensures planes { result ≡ (shown self.old).planes }
        ensures none { (shown self.new).planes.elements ≡ 0 }
        ensures rest { HasOtherPlanes (shown self.old) (shown self.new) }
    {
        mem::replace(&mut self.planes, no_planes(alloc))
    }

    /// The number of pages, of 64 elements, that its iterations accessed.
    pub fn pages(&self) -> u32
        ensures { result ≡ length (shown self.now).copy.pages }
    {
        self.copy.pages()
    }

    /// The number of a page that was accessed, by its place in the order of first access, from 0 on.
    pub fn page(&self, k: u32) -> Option<u32>
        ensures { result ≡ slice_get (shown self.now).copy.pages k }
    {
        self.copy.page(k)
    }

    /// What its last iteration that writes an element left there; `None` where none does. The element is in range.
    pub fn last_value(&self, e: u32) -> Option<u64>
        requires { e < length (shown self.now).copy.start }
        ensures { result ≡ (shown self.now).copy.last e }
    {
        self.copy.last_value(e)
    }

    /// Sets each of the first n words of a page, at most 64, to what its last iteration that writes the element left
    /// there, where one does. The page has an element, and the words' elements are in range.
    pub fn overwrite(&self, page: u32, count: u32, own: &mut [u64; 64])
        requires there { page * 64 < length (shown self.now).copy.start }
        requires within { page * 64 + count ≤ length (shown self.now).copy.start }
        requires few { count ≤ 64 }
        ensures { AreOverwritten (λ k. (shown self.now).copy.last (page * 64 + k)) count own.old own.new }
    {
        self.copy.overwrite(page, count, own);
    }

    /// The operator by which an element was reduced and its operands combined, beginning with the first, where its
    /// iterations accessed it by reduces of one operator alone. The element is in range.
    pub fn partial(&self, e: u32) -> Option<(Op, u64)>
        requires { e < length (shown self.now).copy.start }
        ensures { result ≡ combination ((shown self.now).copy.reduction e) }
    {
        self.copy.partial(e)
    }
}

/// Marks of no element.
fn no_planes(alloc: Global) -> Planes
    ensures { result.elements ≡ 0 }
{
    Planes {
        elements: 0,
        plain: Vec::new(alloc),
        operators: OperatorPlanes {
            add: Vec::new(alloc),
            or: Vec::new(alloc),
            and: Vec::new(alloc),
            xor: Vec::new(alloc),
            addh: Vec::new(alloc),
        },
        tested: Tested::Flow(FlowPlanes {
            first: Vec::new(alloc),
            last: Vec::new(alloc),
        }),
    }
}
