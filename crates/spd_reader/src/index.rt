//! Names by their numbers.

ghost use Rattle.std.specs.Prelude.{◌≡◌, ◌<◌, [], length, IfOk, OnOk, not};
ghost use Rattle.spd_reader.specs.Trees.{number_in, is_among, with_name};

use indexmap::IndexSet;
use spd_model::Name;
use sqlite_items::Items;
use std::alloc::{AllocError, Global};
use std::marker::Model;

/// Names in the order in which they were declared, each once, with a map from each to its number. Contracts see the list.
#[derive(Drop)]
pub(crate) struct Index<'f> {
    set: IndexSet<&'f [u8]>,
}

impl<'f> Model for Index<'f> {
    ghost use Rattle.std.specs.Prelude.{ℕ, List, map, ◌<◌, ◌^◌, length};

    ghost Value = { List (List ℕ) };

    ghost view = { λ i. map (λ k. k.now) i.set.keys };

    ghost invariant = { λ i. length i.set.keys < 2 ^ 32 };
}

impl<'f> Index<'f> {
    pub(crate) fn new(alloc: Global) -> Index<'f>
        ensures { result ≡ [] }
    {
        Index {
            set: IndexSet::new(alloc),
        }
    }

    /// How many names there are.
    pub(crate) fn len(&self) -> u32
        ensures { result ≡ length self.now }
    {
        self.set.len() as u32
    }

    /// The number of a name, where it is declared.
    pub(crate) fn number(&self, name: &'f [u8]) -> Option<u32>
        ensures { result ≡ number_in self.now name.now }
    {
        match self.set.get_index_of(&name) {
            Some(at) => Some(at as u32),
            None => None,
        }
    }

    /// Whether a name is declared.
    pub(crate) fn contains(&self, name: &'f [u8]) -> bool
        ensures { result ≡ is_among self.now name.now }
    {
        self.set.contains(&name)
    }

    /// Declares a name, which counts once. There is room for 2^32 - 1 names.
    pub(crate) fn declare(&mut self, name: &'f [u8]) -> Result<(), AllocError>
        ensures { OnOk result (self.new ≡ with_name self.old name.now) }
    {
        if self.set.len() >= u32::MAX as usize {
            return Err(AllocError);
        }
        self.set.insert(name)?;
        Ok(())
    }

    /// A copy of the names.
    pub(crate) fn names(&self, alloc: Global) -> Result<Items<Name>, AllocError>
        ensures { IfOk result (λ names. names ≡ self.now) }
    {
        let mut names = Items::new(alloc);
        for name in self.set.as_slice() {
            names.push(Items::from_slice(alloc, name)?)?;
        }
        Ok(names)
    }
}
