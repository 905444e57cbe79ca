//! What names are bound to.

ghost use Rattle.std.specs.Prelude.{◌≡◌, OnOk};
ghost use Rattle.bump_trace.specs.Names.{no_names, bind, unbind};

use bump_core::ItemId;
use std::alloc::{AllocError, Global};
use std::collections::HashMap;
use std::hash::RandomState;

/// What each name is bound to. A name is a part of the trace itself, so strangers choose it: it is hashed with keys
/// that they don't know.
#[derive(Drop)]
pub struct Names<'a> {
    ids: HashMap<&'a str, ItemId, RandomState>,
}

impl<'a> Names<'a> {
    ghost use Rattle.bump_trace.specs.Views.{names_of};

    /// No name is bound.
    pub fn new(alloc: Global, keys: RandomState) -> Names<'a>
        ensures { names_of result ≡ no_names }
    {
        Names {
            ids: HashMap::with_hasher(alloc, keys),
        }
    }

    /// Binds a name, also one that is bound.
    pub fn bind(&mut self, name: &'a str, id: ItemId) -> Result<(), AllocError>
        ensures { OnOk result (names_of self.new ≡ bind name.entry.now id (names_of self.old)) }
    {
        self.ids.insert(name, id)?;
        Ok(())
    }

    /// The name is bound no more.
    pub fn unbind(&mut self, name: &'a str)
        ensures { names_of self.new ≡ unbind name.entry.now (names_of self.old) }
    {
        let _ = self.ids.remove(&name);
    }

    /// What a name is bound to.
    pub fn get(&self, name: &'a str) -> Option<ItemId>
        ensures { result ≡ names_of self.now name.entry.now }
    {
        self.ids.get(&name).copied()
    }
}
