//! The labels of a text.

ghost use Rattle.std.specs.Prelude.{◌≡◌, IfOk, OnOk, ℕ, List, None};
ghost use Rattle.bpf_text_operands.specs.LabelTable.{label_named, slot_in, defined};

use std::alloc::{AllocError, Global};
use std::collections::BTreeMap;

/// Where a label is defined.
#[derive(Clone, Copy)]
pub struct Label {
    /// The line that defines it.
    pub line: u32,
    /// The slot of the instruction after it.
    pub slot: u32,
}

/// The labels of a text by their names, in order: whoever writes a text chooses the names, and can't
/// make a search slow by them.
#[derive(Drop)]
pub struct Labels<'a> {
    places: BTreeMap<&'a [u8], Label>,
}

impl<'a> Labels<'a> {
    /// No labels.
    #[tactic(auto, unfolding(crate::specs::LabelTable::label_named))]
    pub fn new(alloc: Global) -> Labels<'a>
        ensures { (name : List ℕ) → label_named result name ≡ None }
    {
        Labels {
            places: BTreeMap::new(alloc),
        }
    }

    /// Where a label is defined, if it is.
    #[tactic(auto, unfolding(crate::specs::LabelTable::label_named))]
    pub fn get(&self, name: &[u8]) -> Option<Label>
        ensures { result ≡ label_named self.now name.now }
    {
        self.places.get(name).copied()
    }

    /// Adds a label, unless one of this name is defined already.
    pub fn define(&mut self, name: &'a [u8], label: Label) -> Result<(), AllocError>
        ensures { OnOk result ((other : List ℕ) → label_named self.new other ≡ defined (label_named self.old) name.now
            label other) }
    {
        self.places.entry(name)?.or_insert(label);
        Ok(())
    }
}
