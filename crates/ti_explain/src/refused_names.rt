// The reasons for a refusal by the rules of names.
ghost use Rattle.std.specs.Prelude.{◌≡◌, IfOk};
ghost use Rattle.ti_syntax.specs.Trees.Text.{tree_of};
ghost use Rattle.ti_explain.specs.RefusedNames.{refused_name_reasons};

use crate::main_reasons::main_reasons;
use crate::name_reasons::unknown_reasons;
use crate::reason::RefusalReason;
use crate::redeclared::{full_scope_reasons, redeclared_reasons};
use std::alloc::Global;
use ti_base::Memory;
use ti_rules::{Refusal, Rule};
use ti_syntax::tree::Tree;

/// The reasons for a refusal by the rules of names.
pub fn refused_name_reasons(
    alloc: Global,
    tree: &Tree,
    refusal: Refusal,
) -> Result<Vec<RefusalReason>, Memory>
    ensures { IfOk result (λ v. v.items ≡ refused_name_reasons (tree_of tree.now) refusal) }
{
    match refusal.rule {
        Rule::N1 => unknown_reasons(alloc, tree, refusal.place),
        Rule::N2 => redeclared_reasons(alloc, tree, refusal.place),
        Rule::N3 => main_reasons(alloc, tree, refusal.place),
        Rule::N4 => full_scope_reasons(alloc, tree, refusal.place),
        _ => Ok(Vec::new(alloc)),
    }
}
