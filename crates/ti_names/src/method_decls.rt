// The methods of a program, in the order of their numbers.
ghost use Rattle.std.specs.Prelude.{◌≡◌, ◌++◌, map, IfOk};
ghost use Rattle.ti_syntax.specs.Trees.Text.{tree_of};
ghost use Rattle.ti_syntax.specs.Trees.Views.{member_of};
ghost use Rattle.ti_lang.specs.Members.{methods_of, methods_in};
ghost use Rattle.ti_names.specs.MethodDecl.{method_decl_of};
ghost use Rattle.ti_names.specs.Mirrors.Tables.{static_table};

use crate::number::next_number;
use std::alloc::Global;
use ti_base::Memory;
use ti_lang::program::has_static;
use ti_syntax::tree::{Member, Method, Tree};

/// A method declaration, with the number of its class.
#[derive(Clone, Copy)]
pub struct MethodDecl<'a> {
    pub class: u32,
    pub method: &'a Method,
}

/// Appends the methods of a class.
fn with_methods<'a>(
    found: Vec<MethodDecl<'a>>,
    class: u32,
    members: &'a [Member],
) -> Result<Vec<MethodDecl<'a>>, Memory>
    ensures { IfOk result (λ v. map method_decl_of v.items ≡ map method_decl_of found.entry.items ++ methods_in class (map member_of members.now)) }
{
    let mut found = found;
    for member in members {
        match member {
            Member::Field(_) => {}
            Member::Method(method) => found.push(MethodDecl { class, method })?,
        }
    }
    Ok(found)
}

/// All methods of a program; the index is the method's number.
pub fn own_methods<'a>(alloc: Global, tree: &'a Tree) -> Result<Vec<MethodDecl<'a>>, Memory>
    ensures { IfOk result (λ v. map method_decl_of v.items ≡ methods_of (tree_of tree.now)) }
{
    let mut found = Vec::new(alloc);
    let mut number = 0;
    for class in &tree.classes {
        found = with_methods(found, number, &class.members)?;
        number = next_number(number)?;
    }
    Ok(found)
}

/// For each method, whether it is static.
pub fn statics(alloc: Global, methods: &[MethodDecl<'_>]) -> Result<Vec<bool>, Memory>
    ensures { IfOk result (λ v. v.items ≡ static_table (map method_decl_of methods.now)) }
{
    let mut found = Vec::new(alloc);
    for own in methods {
        found.push(has_static(&own.method.modifiers))?;
    }
    Ok(found)
}
