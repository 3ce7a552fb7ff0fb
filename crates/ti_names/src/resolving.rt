// The public entry point to name resolution.
ghost use Rattle.std.specs.Prelude.{◌≡◌, ◌⊎◌, map, IfOk};
ghost use Rattle.std.specs.Option.{unwrap_or};
ghost use Rattle.ti_syntax.specs.Trees.Classes.{TextTree};
ghost use Rattle.ti_syntax.specs.Trees.Text.{tree_of};
ghost use Rattle.ti_lang.specs.Program.Classes.{ProgramView};
ghost use Rattle.ti_lang.specs.Program.Views.{program_of};
ghost use Rattle.ti_lang.specs.Members.{methods_of, names_of};
ghost use Rattle.ti_lang.specs.Numbering.{Numbers};
ghost use Rattle.ti_rules.specs.declared.refusal.Refusal.{Refusal as RefusalSeen};
ghost use Rattle.ti_rules.specs.Mirrors.First.{earliest};
ghost use Rattle.ti_rules.specs.Refusals.{IsFirstRefusal};
ghost use Rattle.ti_rules.specs.MainForm.{main_method as main_of};
ghost use Rattle.ti_rules.specs.BrokenNames.{name_refusals, BreaksNames};
ghost use Rattle.ti_names.specs.Answer.{Resolves, GivesOnly, RefusesOnly};
ghost use Rattle.ti_names.specs.Mirrors.Numbered.{number_program};
ghost use Rattle.ti_names.specs.MethodDecl.{method_decl_of};
ghost use Rattle.ti_names.specs.Seen.{text_of_tables};

use crate::build::name_table;
use crate::classes::{check_classes, classes};
use crate::error::NameErr;
use crate::main_form::{check_main, main_method};
use crate::method_decls::{MethodDecl, own_methods};
use crate::methods::{AllMethods, methods};
use crate::spelling::NameTable;
use crate::stmts::Resolved;
use crate::tables::Tables;
use std::alloc::Global;
use ti_base::Memory;
use ti_lang::program::{Program, ProgramData};
use ti_rules::earlier_of;
use ti_syntax::Spelled;
use ti_syntax::tree::Tree;

/// The number of `main`; 0 as a placeholder if there is none.
fn main_number(tables: &Tables<'_>) -> u32
    ensures { result ≡ unwrap_or (main_of (text_of_tables tables.now)) 0 }
{
    match main_method(tables) {
        Some(number) => number,
        None => 0,
    }
}

/// Resolves a program, and finds its first broken naming rule. If there is one, the resolved program has placeholders.
fn walk(alloc: Global, tree: &Tree) -> Result<Resolved<ProgramData>, Memory>
    ensures part { IfOk result (λ r. program_of r.part ≡ number_program (tree_of tree.now)) }
    ensures refusal { IfOk result (λ r. r.refusal ≡ earliest (name_refusals (tree_of tree.now))) }
{
    let own = own_methods(alloc, tree)?;
    let NameTable { spelled, numbers } = name_table(alloc, tree)?;
    let tables = Tables::of(alloc, tree, &own, &spelled, numbers)?;
    parts(alloc, tree, &tables, &own, spelled)
}

/// Resolves a program, given its symbol tables.
fn parts<'a>(
    alloc: Global,
    tree: &'a Tree,
    tables: &Tables<'a>,
    own: &[MethodDecl<'a>],
    names: Vec<Spelled>,
) -> Result<Resolved<ProgramData>, Memory>
    requires tables { text_of_tables tables.now ≡ tree_of tree.now }
    requires own { map method_decl_of own.now ≡ methods_of (tree_of tree.now) }
    requires names { names.items ≡ names_of (tree_of tree.now) }
    ensures part { IfOk result (λ r. program_of r.part ≡ number_program (tree_of tree.now)) }
    ensures refusal { IfOk result (λ r. r.refusal ≡ earliest (name_refusals (tree_of tree.now))) }
{
    let of_classes = check_classes(alloc, tables, &tree.classes)?;
    let of_main = check_main(tree, tables, own)?;
    let numbered = classes(alloc, tables, &tree.classes)?;
    let AllMethods {
        methods,
        literals,
        refusal,
    } = methods(alloc, tables, own)?;
    let main = main_number(tables);
    let part = ProgramData::of(alloc, numbered, methods, main, names, literals.texts)?;
    Ok(Resolved {
        part,
        refusal: earlier_of(earlier_of(of_classes, refusal), of_main),
    })
}

/// Resolves the names of a program.
///
/// Error: the first broken naming rule, by position, and at one position by the order in which the rules are listed; or Memory.
pub fn resolve(alloc: Global, tree: &Tree) -> Result<Program, NameErr>
    ensures resolves { Resolves (tree_of tree.now) result }
    ensures accepted { (program : ProgramView) → Numbers (tree_of tree.now) program → GivesOnly result program }
    ensures refused { (refusal : RefusalSeen) → IsFirstRefusal (BreaksNames (tree_of tree.now)) refusal → RefusesOnly result refusal }
{
    let resolved = walk(alloc, tree)?;
    match resolved.refusal {
        Some(refusal) => Err(NameErr::Refused(refusal)),
        None => Ok(Program::of(resolved.part)),
    }
}

/// Theorem: each tree has one resolved program or a broken naming rule, and never both.
pub fn one_program()
    ensures some { (text : TextTree) → ((program : ProgramView) × Numbers text program)
        ⊎ ((refusal : RefusalSeen) × IsFirstRefusal (BreaksNames text) refusal) }
    ensures unbroken { (text : TextTree) (program : ProgramView) → Numbers text program → (refusal : RefusalSeen)
        → BreaksNames text refusal → ⊥ }
    ensures only { (text : TextTree) (p q : ProgramView) → Numbers text p → Numbers text q → p ≡ q }
{}
