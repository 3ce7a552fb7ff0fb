// Building the symbol tables: classes, fields, methods and member names, each by its name.
ghost use Rattle.std.specs.Prelude.{◌≡◌, ◌+◌, [], map, fold, length, IfOk};
ghost use Rattle.ti_syntax.specs.Trees.Text.{tree_of};
ghost use Rattle.ti_syntax.specs.Trees.Views.{member_of};
ghost use Rattle.ti_lang.specs.Members.{fields_in, names_of, name_of_member, with_name};
ghost use Rattle.ti_names.specs.Mirrors.Tables.{with_numbered, class_table, field_tables, field_names, method_tables, names_of_methods};

use crate::names::Names;
use crate::number::next_number;
use crate::spelling::NameTable;
use std::alloc::Global;
use ti_base::Memory;
use ti_syntax::tree::{Member, Tree};

/// The number of each class by name. Classes are numbered in source order; of classes with one name, the first is in the table.
fn class_table<'a>(alloc: Global, tree: &'a Tree) -> Result<Names<'a, u32>, Memory>
    ensures { IfOk result (λ t. t ≡ class_table (tree_of tree.now)) }
{
    let mut found = Names::new(alloc);
    let mut number = 0;
    for class in &tree.classes {
        found.add(class.name.as_bytes(), number)?;
        number = next_number(number)?;
    }
    Ok(found)
}

/// The number of each field of a class by name. Fields are numbered from 0 in source order; of fields with one name, the first is there.
fn field_table<'a>(alloc: Global, members: &'a [Member]) -> Result<Names<'a, u32>, Memory>
    ensures { IfOk result (λ t. t ≡ with_numbered [] 0 (field_names (fields_in (map member_of members.now)))) }
{
    let mut found = Names::new(alloc);
    let mut number = 0;
    for member in members {
        match member {
            Member::Field(field) => {
                found.add(field.name.as_bytes(), number)?;
                number = next_number(number)?;
            }
            Member::Method(_) => {}
        }
    }
    Ok(found)
}

/// The field table of each class.
fn field_tables<'a>(alloc: Global, tree: &'a Tree) -> Result<Vec<Names<'a, u32>>, Memory>
    ensures { IfOk result (λ v. v.items ≡ field_tables (tree_of tree.now)) }
{
    let mut found = Vec::new(alloc);
    for class in &tree.classes {
        found.push(field_table(alloc, &class.members)?)?;
    }
    Ok(found)
}

/// The methods of a class by name, and the first method number that isn't used.
#[derive(Drop)]
struct MethodTable<'a> {
    /// The number of each method.
    names: Names<'a, u32>,
    /// One more than the number of the last method.
    behind: u32,
}

/// The method table of a class whose methods are numbered from `first` on.
fn method_table<'a>(
    alloc: Global,
    first: u32,
    members: &'a [Member],
) -> Result<MethodTable<'a>, Memory>
    ensures names { IfOk result (λ t. t.names ≡ with_numbered [] first (names_of_methods (map member_of members.now))) }
    ensures behind { IfOk result (λ t. t.behind ≡ first + length (names_of_methods (map member_of members.now))) }
{
    let mut names = Names::new(alloc);
    let mut behind = first;
    for member in members {
        match member {
            Member::Field(_) => {}
            Member::Method(method) => {
                names.add(method.name.as_bytes(), behind)?;
                behind = next_number(behind)?;
            }
        }
    }
    Ok(MethodTable { names, behind })
}

/// The method table of each class. Methods are numbered throughout the program.
fn method_tables<'a>(alloc: Global, tree: &'a Tree) -> Result<Vec<Names<'a, u32>>, Memory>
    ensures { IfOk result (λ v. v.items ≡ method_tables 0 (tree_of tree.now)) }
{
    let mut found = Vec::new(alloc);
    let mut number = 0;
    for class in &tree.classes {
        let table = method_table(alloc, number, &class.members)?;
        number = table.behind;
        found.push(table.names)?;
    }
    Ok(found)
}

/// The classes of a program by name, and the fields and methods of each.
#[derive(Drop)]
pub struct ByName<'a> {
    pub classes: Names<'a, u32>,
    pub fields: Vec<Names<'a, u32>>,
    pub methods: Vec<Names<'a, u32>>,
}

/// Builds the tables of a program.
pub fn by_name<'a>(alloc: Global, tree: &'a Tree) -> Result<ByName<'a>, Memory>
    ensures classes { IfOk result (λ t. t.classes ≡ class_table (tree_of tree.now)) }
    ensures fields { IfOk result (λ t. t.fields.items ≡ field_tables (tree_of tree.now)) }
    ensures methods { IfOk result (λ t. t.methods.items ≡ method_tables 0 (tree_of tree.now)) }
{
    Ok(ByName {
        classes: class_table(alloc, tree)?,
        fields: field_tables(alloc, tree)?,
        methods: method_tables(alloc, tree)?,
    })
}

/// Adds the names of a class's members to the table of names.
fn with_members<'a>(
    alloc: Global,
    names: NameTable<'a>,
    members: &'a [Member],
) -> Result<NameTable<'a>, Memory>
    ensures { IfOk result (λ t. t.spelled.items ≡ fold with_name names.entry.spelled.items
        (map name_of_member (map member_of members.now))) }
{
    let mut names = names;
    for member in members {
        let name = match member {
            Member::Field(field) => field.name.as_bytes(),
            Member::Method(method) => method.name.as_bytes(),
        };
        names = names.with(alloc, name)?;
    }
    Ok(names)
}

/// The interned names of all members, after the built-in ones.
pub fn name_table<'a>(alloc: Global, tree: &'a Tree) -> Result<NameTable<'a>, Memory>
    ensures { IfOk result (λ t. t.spelled.items ≡ names_of (tree_of tree.now)) }
{
    let mut names = NameTable::built_in(alloc)?;
    for class in &tree.classes {
        names = with_members(alloc, names, &class.members)?;
    }
    Ok(names)
}
