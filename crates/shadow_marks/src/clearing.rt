//! Marks and flags that are taken away again, so that others can be made in their place.

ghost use Rattle.std.specs.Prelude.{◌≡◌, ◌*◌, ◌<◌, ◌≤◌, ℕ, List, length};
ghost use Rattle.loop_core_model.specs.Marks.{Visit};
ghost use Rattle.shadow_marks.specs.{Iteration.{element_count, IsEmptied}, Standing.{StandFor, no_visits}};
ghost use Rattle.shadow_marks.specs.Standing.{words_for, ArePlanes, AreTested, AreLrpdPlanes, AreFlowPlanes};
ghost use Rattle.shadow_marks.specs.{Ending.{KeepsShape}, Clearing.{TestedClears, ClearsPage}};
ghost use Rattle.shadow_marks.specs.Clearing.{ClearsBits, SetsNumbers, LrpdClears, FlowClears};

use crate::iter_flags::IterFlags;
use crate::planes::{NO_WRITER, Planes, Tested};
use loop_core_model::PAGE;

impl Planes {
    /// Takes away the marks of all iterations: the planes are as if none had ended on them. Only pages of 64 elements
    /// that were marked are written.
    pub fn clear(&mut self)
        requires { ArePlanes self.old }
        ensures shape { KeepsShape self.old self.new }
        ensures none { (visits : ℕ → List Visit) → StandFor self.old visits → StandFor self.new no_visits }
    {
        for page in 0..self.plain.len() {
            if self.is_marked(page) {
                self.clear_page(page);
            }
        }
    }

    /// Takes away the marks of a page's elements.
    fn clear_page(&mut self, page: usize)
        requires whole { ArePlanes self.old }
        requires within { page < words_for self.old.elements }
        ensures { ClearsPage self.old self.new page }
    {
        clear_bits(self.plain.as_mut_slice(), page);
        let operators = &mut self.operators;
        clear_bits(operators.add.as_mut_slice(), page);
        clear_bits(operators.or.as_mut_slice(), page);
        clear_bits(operators.and.as_mut_slice(), page);
        clear_bits(operators.xor.as_mut_slice(), page);
        clear_bits(operators.addh.as_mut_slice(), page);
        self.tested.clear_page(self.elements as usize, page);
    }
}

impl Tested {
    /// The same of what a test needs of so many elements.
    fn clear_page(&mut self, elements: usize, page: usize)
        requires whole { AreTested elements self.old }
        requires within { page < words_for elements }
        ensures { TestedClears self.old self.new page }
    {
        match self {
            Tested::Lrpd(planes) => {
                clear_bits(planes.written.as_mut_slice(), page);
                clear_bits(planes.written_by_two.as_mut_slice(), page);
                clear_bits(planes.read_only.as_mut_slice(), page);
                clear_bits(planes.read_and_written.as_mut_slice(), page);
            }
            Tested::Flow(planes) => {
                set_numbers(planes.first.as_mut_slice(), page, NO_WRITER);
                set_numbers(planes.last.as_mut_slice(), page, 0);
            }
        }
    }
}

impl IterFlags {
    /// Empties the flags of all elements.
    pub fn clear(&mut self)
        ensures emptied { IsEmptied self.new }
        ensures same_elements { element_count self.new ≡ element_count self.old }
    {
        while let Some(_taken) = self.take() {}
    }
}

/// Takes away the bits of a page's elements.
#[inline]
fn clear_bits(words: &mut [u64], page: usize)
    requires { page < length words.old }
    ensures { ClearsBits words.old words.new page }
{
    words[page] = 0;
}

/// Sets the numbers of a page's elements to one number.
#[tactic(auto, using(crate::proofs::BetweenLaws::between_in))]
#[inline]
fn set_numbers(numbers: &mut [u32], page: usize, number: u32)
    requires { PAGE * page ≤ length numbers.old }
    ensures { SetsNumbers numbers.old numbers.new page number }
{
    let first = PAGE as usize * page;
    let past = numbers.len().min(first + PAGE as usize);
    for e in first..past {
        numbers[e] = number;
    }
}
