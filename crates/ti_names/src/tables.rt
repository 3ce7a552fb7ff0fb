// The symbol tables of a program.
ghost use Rattle.std.specs.Prelude.{◌≡◌, ℕ, List, false, slice_get};
ghost use Rattle.std.specs.Map.{lookup};
ghost use Rattle.std.specs.Option.{unwrap_or};
ghost use Rattle.std.specs.Str.{bytes_eq};
ghost use Rattle.ti_syntax.specs.Trees.Text.{tree_of};
ghost use Rattle.ti_lang.specs.Members.{class_named, field_named, method_named, is_static_method, name_number};
ghost use Rattle.ti_names.specs.Mirrors.Tables.{lookup_in, with_indices};

use crate::build::{ByName, by_name};
use crate::method_decls::{MethodDecl, statics};
use crate::names::Names;
use crate::number::to_u32;
use crate::spelling::NameTable;
use std::alloc::Global;
use ti_base::Memory;
use ti_syntax::Spelled;
use ti_syntax::tree::Tree;

/// The symbol tables of a program. The ghost fields say that lookups agree with the specification.
#[derive(Drop)]
pub struct Tables<'a> {
    pub tree: &'a Tree,
    /// The number of each class.
    classes: Names<'a, u32>,
    /// For each class, the number of each field within the class.
    fields: Vec<Names<'a, u32>>,
    /// For each class, the program-wide number of each method.
    methods: Vec<Names<'a, u32>>,
    /// For each method, whether it is static.
    statics: Vec<bool>,
    /// The number of each interned member name.
    names: Names<'a, u32>,
    /// The number for names that no member has: one more than the last interned one.
    unknown: u32,
    ghost classes_told: { (name : List ℕ) → lookup (bytes_eq name) classes ≡ class_named (tree_of tree.now) name },
    ghost fields_told: { (class : ℕ) (name : List ℕ) → lookup_in fields.items class name ≡ field_named (tree_of tree.now) class name },
    ghost methods_told: { (class : ℕ) (name : List ℕ) → lookup_in methods.items class name ≡ method_named (tree_of tree.now) class name },
    ghost statics_told: { (number : ℕ) → unwrap_or (slice_get statics.items number) false ≡ is_static_method (tree_of tree.now) number },
    ghost names_told: { (name : List ℕ) → unwrap_or (lookup (bytes_eq name) names) unknown ≡ name_number (tree_of tree.now) name },
}

impl<'a> Tables<'a> {
    ghost use Rattle.std.specs.Prelude.{map, IfOk};
    ghost use Rattle.ti_lang.specs.Members.{methods_of, names_of};
    ghost use Rattle.ti_names.specs.MethodDecl.{method_decl_of};
    ghost use Rattle.ti_names.specs.Seen.{text_of_tables};

    /// Builds the tables, given the program's methods and interned names.
    pub fn of(
        alloc: Global,
        tree: &'a Tree,
        methods: &[MethodDecl<'a>],
        spelled: &[Spelled],
        names: Names<'a, u32>,
    ) -> Result<Tables<'a>, Memory>
        requires methods { map method_decl_of methods.now ≡ methods_of (tree_of tree.now) }
        requires spelled { spelled.now ≡ names_of (tree_of tree.now) }
        requires names { names ≡ with_indices 0 spelled.now }
        ensures { IfOk result (λ t. text_of_tables t ≡ tree_of tree.now) }
    {
        let unknown = to_u32(spelled.len())?;
        let statics = statics(alloc, methods)?;
        let ByName {
            classes,
            fields,
            methods,
        } = by_name(alloc, tree)?;
        Ok(Tables {
            tree,
            classes,
            fields,
            methods,
            statics,
            names,
            unknown,
        })
    }

    /// The number of a class.
    pub fn class(&self, name: &[u8]) -> Option<u32>
        ensures { result ≡ class_named (text_of_tables self.now) name.now }
    {
        self.classes.get(name).copied()
    }

    /// The number of a field of a class.
    pub fn field(&self, class: u32, name: &[u8]) -> Option<u32>
        ensures { result ≡ field_named (text_of_tables self.now) class name.now }
    {
        lookup_in_class(&self.fields, class, name)
    }

    /// The number of a method of a class.
    pub fn method(&self, class: u32, name: &[u8]) -> Option<u32>
        ensures { result ≡ method_named (text_of_tables self.now) class name.now }
    {
        lookup_in_class(&self.methods, class, name)
    }

    /// Whether a method is static; false if there is no such method.
    pub fn is_static(&self, number: u32) -> bool
        ensures { result ≡ is_static_method (text_of_tables self.now) number }
    {
        flag(&self.statics, number)
    }

    /// The number of a member name; `unknown` if no member has it.
    pub fn name(&self, name: &[u8]) -> u32
        ensures { result ≡ name_number (text_of_tables self.now) name.now }
    {
        match self.names.get(name) {
            Some(number) => *number,
            None => self.unknown,
        }
    }
}

/// Looks a name up in the table of a class.
fn lookup_in_class(tables: &[Names<'_, u32>], class: u32, name: &[u8]) -> Option<u32>
    ensures { result ≡ lookup_in tables.now class name.now }
{
    match tables.get(class as usize) {
        Some(table) => table.get(name).copied(),
        None => None,
    }
}

/// The flag at an index; false beyond the end.
fn flag(flags: &[bool], number: u32) -> bool
    ensures { result ≡ unwrap_or (slice_get flags.now number) false }
{
    match flags.get(number as usize) {
        Some(flag) => *flag,
        None => false,
    }
}
