//! A page: what is kept of 64 elements.

ghost use Rattle.std.specs.{Prelude.{◌≡◌, ◌==◌, None, Some, if◌then◌else◌}, Option.{unwrap_or}};
ghost use Rattle.private_copy.specs.Cells.{left_cell, reduction_in};

use crate::reduction::Reduction;
use array_maps::Op;

/// Whether the reduces of an element are combined.
#[derive(Clone, Copy)]
pub(crate) enum Combining {
    /// There was no access.
    Untouched,
    /// There were reduces by this operator alone.
    By(Op),
    /// There was a plain access, or there were reduces by different operators.
    Mixed,
}

/// What is kept of one element.
#[derive(Clone, Copy)]
pub(crate) struct Cell {
    /// What the last iteration that writes the element left, where there is one.
    pub(crate) value: u64,
    /// The operands of reduces combined, where they are.
    pub(crate) combined: u64,
    /// The number of that iteration, from 1 on; 0 where there is none.
    pub(crate) writer: u32,
    /// Whether its reduces are combined.
    pub(crate) combining: Combining,
}

/// The cell of an element that wasn't accessed.
pub(crate) const BLANK: Cell = Cell {
    value: 0,
    combined: 0,
    writer: 0,
    combining: Combining::Untouched,
};

/// The cells of 64 elements, column by column: a column has an entry for each of them.
#[derive(Drop)]
pub(crate) struct Page {
    pub(crate) values: [u64; 64],
    pub(crate) combined: [u64; 64],
    pub(crate) writers: [u32; 64],
    pub(crate) combining: [Combining; 64],
}

impl Cell {
    /// The cell of an element at which the iteration of a number left a value, with what its reduces combined.
    #[inline]
    pub(crate) fn left(value: u64, writer: u32, reduction: Reduction) -> Cell
        ensures { result ≡ left_cell value writer reduction }
    {
        let (combining, combined) = match reduction {
            Reduction::Untouched => (Combining::Untouched, 0),
            Reduction::By(op, combined) => (Combining::By(op), combined),
            Reduction::Mixed => (Combining::Mixed, 0),
        };
        Cell {
            value,
            combined,
            writer,
            combining,
        }
    }

    /// What its reduces combined.
    #[inline]
    pub(crate) fn reduction(self) -> Reduction
        ensures { result ≡ reduction_in self }
    {
        match self.combining {
            Combining::Untouched => Reduction::Untouched,
            Combining::By(op) => Reduction::By(op, self.combined),
            Combining::Mixed => Reduction::Mixed,
        }
    }
}

impl Page {
    ghost use Rattle.std.specs.Prelude.{◌≢◌, ℕ, ◌<◌, ◌≤◌};
    ghost use Rattle.private_copy.specs.{Cells.{cell_in, mixed_cell, blank_page}, Shown.{last_in}};
    ghost use Rattle.private_copy.specs.Overwriting.{AreOverwritten};

    /// The page of elements that weren't accessed.
    pub(crate) fn blank() -> Page
        ensures { result ≡ blank_page }
    {
        Page {
            values: [0; 64],
            combined: [0; 64],
            writers: [0; 64],
            combining: [Combining::Untouched; 64],
        }
    }

    /// The cell at a place.
    #[inline]
    pub(crate) fn get(&self, at: u32) -> Cell
        requires { at < 64 }
        ensures { result ≡ cell_in self.now at }
    {
        let at = at as usize;
        Cell {
            value: self.values[at],
            combined: self.combined[at],
            writer: self.writers[at],
            combining: self.combining[at],
        }
    }

    /// Sets the cell at a place.
    #[inline]
    pub(crate) fn set(&mut self, at: u32, cell: Cell)
        requires { at < 64 }
        ensures here { cell_in self.new at ≡ cell }
        ensures others { (k : ℕ) → k ≢ at → cell_in self.new k ≡ cell_in self.old k }
    {
        let at = at as usize;
        self.values[at] = cell.value;
        self.combined[at] = cell.combined;
        self.writers[at] = cell.writer;
        self.combining[at] = cell.combining;
    }

    /// Notes a plain access that leaves the word, at a cell.
    #[inline(always)]
    pub(crate) fn mark_mixed(&mut self, at: u32)
        requires { at < 64 }
        ensures here { cell_in self.new at ≡ mixed_cell (cell_in self.old at) }
        ensures others { (k : ℕ) → k ≢ at → cell_in self.new k ≡ cell_in self.old k }
    {
        self.combining[at as usize] = Combining::Mixed;
    }

    /// Sets each of the first n of these words, at most 64, to what the last iteration that writes its element left
    /// there, where one does.
    pub(crate) fn overwrite(&self, count: u32, own: &mut [u64; 64])
        requires { count ≤ 64 }
        ensures { AreOverwritten (λ k. last_in (cell_in self.now k)) count own.old own.new }
    {
        for k in 0..count {
            let k = k as usize;
            own[k] = last_or(self.values[k], self.writers[k], own[k]);
        }
    }
}

/// The value that an iteration of this number left, or the word where the number is 0, which is none's. Both are read
/// before it is decided, so that a loop of it has no branch.
#[inline(always)]
fn last_or(value: u64, writer: u32, word: u64) -> u64
    ensures { result ≡ unwrap_or (if writer == 0 then None else Some value) word }
{
    if writer == 0 { word } else { value }
}
