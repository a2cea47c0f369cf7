//! Names with what they stand for.

ghost use Rattle.std.specs.Prelude.{◌≡◌, ◌++◌, ◌∷◌, [], OnOk, OnErr, None, length};
ghost use Rattle.halide_pipeline.specs.Pipelines.{lookup};

use crate::expressions::Source;
use indexmap::IndexMap;
use std::alloc::{AllocError, Global};
use std::marker::Model;

/// Names in the order in which they were added, each with its source. Contracts see the list of the
/// pairs.
pub struct Names {
    sources: IndexMap<Vec<u8>, Source>,
}

impl Model for Names {
    ghost use Rattle.std.specs.Prelude.{List, ℕ};
    ghost use Rattle.halide_pipeline.specs.Pipelines.{Named, pairs_of};

    ghost Value = { List Named };

    ghost view = { λ n. pairs_of n.sources.entries };
}

impl Drop for Names {
    fn drop(self) {
        let Names { sources } = self;
        drop(sources);
    }
}

impl Names {
    /// No names.
    pub fn new(alloc: Global) -> Names
        ensures { result ≡ [] }
    {
        Names {
            sources: IndexMap::new(alloc),
        }
    }

    /// What the name stands for.
    pub fn get(&self, name: &[u8]) -> Option<Source>
        ensures { result ≡ lookup name.now self.now }
    {
        self.sources.get(name).copied()
    }

    /// Adds a name that is not there yet.
    ///
    /// # Errors
    ///
    /// Memory ran out; the names are then as before.
    pub fn add(&mut self, alloc: Global, name: &[u8], source: Source) -> Result<(), AllocError>
        requires { lookup name.now self.old ≡ None }
        ensures ok { OnOk result (self.new ≡ self.old ++ (name.now, source) ∷ []) }
        ensures err { OnErr result (self.new ≡ self.old) }
    {
        let key = Vec::from_slice(alloc, name)?;
        self.sources.insert(key, source)?;
        Ok(())
    }
}
