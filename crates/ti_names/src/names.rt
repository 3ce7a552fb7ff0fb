// Symbol tables.
ghost use Rattle.std.specs.Prelude.{◌≡◌, ◌≤◌, [], length, take, OnOk, OnErr};
ghost use Rattle.std.specs.Map.{lookup};
ghost use Rattle.std.specs.Option.{option_map, option_copied};
ghost use Rattle.std.specs.Str.{bytes_eq};
ghost use Rattle.ti_names.specs.Mirrors.Tables.{with_new_name};

use indexmap::IndexMap;
use std::alloc::Global;
use std::marker::Model;
use ti_base::Memory;

/// A symbol table: names with their values, in order of insertion.
#[derive(Drop)]
pub struct Names<'a, V: Drop> {
    map: IndexMap<&'a [u8], V>,
}

impl<'a, V: Drop> Model for Names<'a, V> {
    ghost use Rattle.std.specs.Prelude.{List, ℕ, map as list_map};

    ghost Value = { List (List ℕ × V) };

    ghost view = { λ s. list_map (λ e. (e.0.now, e.1)) s.map.entries };
}

impl<'a, V: Drop> Names<'a, V> {
    /// An empty table.
    pub fn new(alloc: Global) -> Self
        ensures { result ≡ [] }
    {
        Names {
            map: IndexMap::new(alloc),
        }
    }

    /// The number of names.
    pub fn len(&self) -> usize
        ensures { result ≡ length self.now }
    {
        self.map.len()
    }

    /// The value of a name.
    pub fn get(&self, name: &[u8]) -> Option<&V>
        ensures { option_copied result ≡ lookup (bytes_eq name.now) self.now }
    {
        self.map.get(name)
    }

    /// Adds a name with its value; does nothing if the name is in the table already.
    pub fn add(&mut self, name: &'a [u8], value: V) -> Result<(), Memory>
        ensures { OnOk result (self.new ≡ with_new_name self.old name.now value) }
    {
        if self.map.contains_key(name) {
            return Ok(());
        }
        match self.map.insert(name, value) {
            Ok(_) => Ok(()),
            Err(_) => Err(Memory),
        }
    }

    /// Removes all but the first `len` names.
    pub fn truncate(&mut self, len: usize)
        ensures { self.new ≡ take len self.old }
    {
        self.map.truncate(len);
    }
}
