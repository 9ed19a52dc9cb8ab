//! Values by name.

ghost use Rattle.std.specs.Prelude.{◌≡◌, [], OnOk, OnErr, Some, length, slice_get, ◌<◌};
ghost use Rattle.std.specs.Map.{lookup};
ghost use Rattle.indexmap.specs.IndexMap.{insert_entry};
ghost use Rattle.chunk_format.specs.ByName.{same_name};

use indexmap::IndexMap;
use std::alloc::{AllocError, Global};
use std::marker::Model;

/// Values by name, in the order in which the names came.
#[derive(Drop)]
pub(crate) struct Named<V: Copy> {
    values: IndexMap<Vec<u8>, V>,
}

impl<V: Copy> Model for Named<V> {
    ghost use Rattle.std.specs.Prelude.{List, ℕ, map};

    ghost Value = { List (List ℕ × V) };

    ghost view = { λ n. map (λ e. (e.0.items, e.1)) n.values.entries };
}

impl<V: Copy> Named<V> {
    pub(crate) fn new(alloc: Global) -> Named<V>
        ensures { result ≡ [] }
    {
        Named {
            values: IndexMap::new(alloc),
        }
    }

    /// How many names there are.
    pub(crate) fn len(&self) -> usize
        ensures { result ≡ length self.now }
    {
        self.values.len()
    }

    /// The value of a name.
    pub(crate) fn get(&self, name: &[u8]) -> Option<V>
        ensures { result ≡ lookup (same_name name.now) self.now }
    {
        self.values.get(name).copied()
    }

    /// The name and the value at an index.
    pub(crate) fn at(&self, index: usize) -> (&[u8], V)
        requires { index < length self.now }
        ensures { slice_get self.now index ≡ Some (result.0.now, result.1) }
    {
        let Some((name, value)) = self.values.get_index(index) else {
            unreachable!()
        };
        (name.as_slice(), *value)
    }

    /// Puts a value in the place of the name's, or behind all where the name is new. Where memory runs out nothing changes.
    pub(crate) fn put(&mut self, name: &[u8], value: V) -> Result<(), AllocError>
        ensures ok { OnOk result (self.new ≡ insert_entry same_name self.old name.now value) }
        ensures err { OnErr result (self.new ≡ self.old) }
    {
        if let Some(index) = self.values.get_index_of(name) {
            self.values[index] = value;
            return Ok(());
        }
        let key = Vec::from_slice(*self.values.allocator(), name)?;
        self.values.insert(key, value)?;
        Ok(())
    }
}
