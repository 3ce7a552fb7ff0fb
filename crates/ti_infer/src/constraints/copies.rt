// Sets of requirements without duplicates, and copies of what is known of the variables in a foreach body.
ghost use Rattle.std.specs.Prelude.{◌≡◌, ◌++◌, ◌∷◌, [], map, Option, OnOk, IfOk};
ghost use Rattle.std.specs.List.{list_any};
ghost use Rattle.std.specs.Option.{option_map, option_and_then};
ghost use Rattle.ti_lang.specs.Program.Scope.{in_scope_of, contents_of, this_of};
ghost use Rattle.ti_lang.specs.Program.Views.{expression_of};
ghost use Rattle.ti_lang.specs.Typing.Kinds.{domain_dim};
ghost use Rattle.ti_lang.specs.Typing.TyRef.{ty_view};
ghost use Rattle.ti_rules.specs.StmtInContext.{with_foreach_variable};
ghost use Rattle.ti_blame.specs.Marks.{matches_mark};
ghost use Rattle.ti_infer.specs.Mirrors.Implications.{same_dependency, extend_distinct, inside_at};
ghost use Rattle.ti_infer.specs.Mirrors.Sites.{inside_of};

use crate::constraints::site::VariableDeps;
use std::alloc::Global;
use ti_base::Memory;
use ti_blame::{Mark, MarkKind};
use ti_lang::program::InScope;

// ---- without duplicates

/// Whether two annotations are equal: of one kind at one place.
pub fn matches_mark(mark: Mark, other: Mark) -> bool
    ensures { result ≡ matches_mark mark.kind mark.place other }
{
    let same_kind = match (mark.kind, other.kind) {
        (MarkKind::Method, MarkKind::Method) => true,
        (MarkKind::Result, MarkKind::Result) => true,
        (MarkKind::Variable, MarkKind::Variable) => true,
        _ => false,
    };
    same_kind && mark.place.line == other.place.line && mark.place.col == other.place.col
}

fn same_dependency(left: Option<Mark>, right: Option<Mark>) -> bool
    ensures { result ≡ same_dependency left right }
{
    match left {
        Some(left) => match right {
            Some(right) => matches_mark(left, right),
            None => false,
        },
        None => right.is_none(),
    }
}

fn has_dependency(old: &[Option<Mark>], dependency: Option<Mark>) -> bool
    ensures { result ≡ list_any (same_dependency dependency) old.now }
{
    for b in old {
        if same_dependency(dependency, *b) {
            return true;
        }
    }
    false
}

/// Appends to `old` those requirements of `more` that it doesn't contain yet.
pub fn extend_distinct(old: &mut Vec<Option<Mark>>, more: &[Option<Mark>]) -> Result<(), Memory>
    ensures { OnOk result (old.new.items ≡ extend_distinct old.old.items more.now) }
{
    for a in more {
        if !has_dependency(old, *a) {
            old.push(*a)?;
        }
    }
    Ok(())
}

// ---- copies

/// A copy of these variables. Errors only if it runs out of memory.
pub fn variables(alloc: Global, found: &[InScope]) -> Result<Vec<InScope>, Memory>
    ensures { IfOk result (λ v. map in_scope_of v.items ≡ map in_scope_of found.now) }
{
    let mut copied = Vec::new(alloc);
    for v in found {
        copied.push(InScope {
            number: v.number,
            ty: v.ty.copy(alloc)?,
            single: v.single,
        })?;
    }
    Ok(copied)
}

/// A copy of these variables with the annotations that make them single. Errors only if it runs out of memory.
pub fn insides(alloc: Global, found: &[VariableDeps]) -> Result<Vec<VariableDeps>, Memory>
    ensures { IfOk result (λ v. inside_of v.items ≡ inside_of found.now) }
{
    let mut copied = Vec::new(alloc);
    for v in found {
        copied.push(VariableDeps {
            number: v.number,
            dependencies: Vec::from_slice(alloc, &v.dependencies)?,
        })?;
    }
    Ok(copied)
}
