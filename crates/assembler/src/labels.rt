//! The labels of a text.

ghost use Rattle.std.specs.Prelude.{◌≡◌, ◌++◌, ◌∷◌, [], OnOk, OnErr, None, length};
ghost use Rattle.assembler.specs.Names.{label_named};

use crate::locations::Section;
use std::alloc::{AllocError, Global};
use std::collections::BTreeMap;
use std::marker::Model;

/// Where a label is defined: the number of its line, from 1 on, its section, and the address that it names. An
/// address past the machine's is one that no instruction reaches.
#[derive(Clone, Copy, Debug, PartialEq, Eq)]
pub struct Label {
    pub line: u64,
    pub section: Section,
    pub address: u64,
}

/// A label, and how many labels were added before it.
#[derive(Clone, Copy)]
struct Numbered {
    number: usize,
    label: Label,
}

/// Labels by their names. They are found by order and not by a hash, so that no choice of names makes them slow to
/// find. Contracts see the list of the pairs, in the order in which they were added.
#[derive(Drop)]
pub struct Labels {
    places: BTreeMap<Vec<u8>, Numbered>,
}

impl Model for Labels {
    ghost use Rattle.std.specs.Prelude.{List};
    ghost use Rattle.assembler.specs.Names.{Named};
    ghost use Rattle.assembler.specs.inner.Numbering.{pairs_of, AreNumbered};

    ghost Value = { List Named };

    ghost view = { λ n. pairs_of n.places.entries };

    ghost invariant = { λ n. AreNumbered n.places.entries };
}

impl Labels {
    /// No labels. It takes no memory.
    pub fn new(alloc: Global) -> Labels
        ensures { result ≡ [] }
    {
        Labels {
            places: BTreeMap::new(alloc),
        }
    }

    /// The label of a name.
    pub fn get(&self, name: &[u8]) -> Option<Label>
        ensures { result ≡ label_named self.now name.now }
    {
        let found = self.places.get(name).copied()?;
        Some(found.label)
    }

    /// Adds a label that is not there yet.
    ///
    /// # Errors
    ///
    /// Memory ran out; the labels are then as before.
    pub fn add(&mut self, alloc: Global, name: &[u8], label: Label) -> Result<(), AllocError>
        requires { label_named self.old name.now ≡ None }
        ensures ok { OnOk result (self.new ≡ self.old ++ (name.now, label) ∷ []) }
        ensures err { OnErr result (self.new ≡ self.old) }
    {
        let key = Vec::from_slice(alloc, name)?;
        let number = self.places.len();
        self.places.insert(key, Numbered { number, label })?;
        Ok(())
    }
}
