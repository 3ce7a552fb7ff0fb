// Lookup tables from a class and a name to the number of the first field or method of that name in the class.
ghost use Rattle.std.specs.Prelude.{◌≡◌, [], IfOk, OnOk};
ghost use Rattle.std.specs.Map.{lookup};
ghost use Rattle.ti_lang.specs.Mirrors.Indices.{same_key, with_first, with_firsts, numbered_fields, field_rows, method_rows};

use super::classes::{Class, Field, Method};
use indexmap::IndexMap;
use std::alloc::Global;
use std::marker::Model;
use ti_base::Memory;

/// A table from a class number and a name number to the number of the first declaration; later ones are ignored.
#[derive(Drop)]
pub struct MemberIndex {
    map: IndexMap<(usize, u32), usize>,
}

impl Model for MemberIndex {
    ghost use Rattle.std.specs.Prelude.{List, ℕ};

    ghost Value = { List ((ℕ × ℕ) × ℕ) };

    ghost view = { λ s. s.map.entries };
}

impl MemberIndex {
    fn new(alloc: Global) -> MemberIndex
        ensures { result ≡ [] }
    {
        MemberIndex {
            map: IndexMap::new(alloc),
        }
    }

    /// The number of the first declaration with this class and name; None if there is none.
    pub fn get(&self, class: usize, name: u32) -> Option<usize>
        ensures { result ≡ lookup (same_key (class, name)) self.now }
    {
        self.map.get(&(class, name)).copied()
    }

    // Adds a row, unless there is one with this class and name.
    fn add(&mut self, class: usize, name: u32, number: usize) -> Result<(), Memory>
        ensures { OnOk result (self.new ≡ with_first self.old (class, name) number) }
    {
        let key = (class, name);
        if self.map.contains_key(&key) {
            return Ok(());
        }
        let Ok(_) = self.map.insert(key, number) else {
            return Err(Memory);
        };
        Ok(())
    }

    // Adds the fields of a class.
    fn add_fields(&mut self, class: usize, fields: &[Field]) -> Result<(), Memory>
        ensures { OnOk result (self.new ≡ with_firsts self.old (numbered_fields class 0 fields.now)) }
    {
        for i in 0..fields.len() {
            self.add(class, fields[i].name, i)?;
        }
        Ok(())
    }
}

/// The table of the fields of these classes, which are numbered from 0; fields are numbered within their class.
pub fn first_fields(alloc: Global, classes: &[Class]) -> Result<MemberIndex, Memory>
    ensures { IfOk result (λ f. f ≡ with_firsts [] (field_rows 0 classes.now)) }
{
    let mut found = MemberIndex::new(alloc);
    for i in 0..classes.len() {
        found.add_fields(i, &classes[i].fields)?;
    }
    Ok(found)
}

/// The table of these methods, which are numbered from 0.
pub fn first_methods(alloc: Global, methods: &[Method]) -> Result<MemberIndex, Memory>
    ensures { IfOk result (λ f. f ≡ with_firsts [] (method_rows 0 methods.now)) }
{
    let mut found = MemberIndex::new(alloc);
    for i in 0..methods.len() {
        let method = &methods[i];
        found.add(method.class as usize, method.name, i)?;
    }
    Ok(found)
}
