// Copies of the variables in scope, made in recycled vectors.
ghost use Rattle.std.specs.Prelude.{◌≡◌, ◌≤◌, ◌++◌, map, take, length, true, IfOk};
ghost use Rattle.ti_lang.specs.Program.Scope.{in_scope_of};

use std::alloc::Global;
use ti_base::Memory;
use ti_lang::program::InScope;
use ti_lang::typing::same_elements;

/// A free list of vectors. The scope of a foreach shares most of its variables with an earlier one, so it recycles that one's vector.
#[derive(Drop)]
pub(crate) struct ScopePool {
    alloc: Global,
    lists: Vec<Vec<InScope>>,
}

impl ScopePool {
    /// An empty free list.
    pub(crate) fn none(alloc: Global) -> ScopePool {
        ScopePool {
            alloc,
            lists: Vec::new(alloc),
        }
    }

    /// The vector that was released last, or an empty one.
    pub(crate) fn take(&mut self) -> Vec<InScope> {
        match self.lists.pop() {
            Some(list) => list,
            None => Vec::new(self.alloc),
        }
    }

    /// Releases a vector, with its contents.
    pub(crate) fn keep(&mut self, list: Vec<InScope>) -> Result<(), Memory> {
        Ok(self.lists.push(list)?)
    }
}

// Whether both variables are equal in number, type and singleness.
fn is_same(first: &InScope, second: &InScope) -> bool
    ensures { result ≡ true → in_scope_of first.now ≡ in_scope_of second.now }
{
    if first.number != second.number || first.single != second.single {
        return false;
    }
    same_elements(&first.ty, false, &second.ty, false)
}

// The length of the common prefix.
fn common_prefix(first: &[InScope], second: &[InScope]) -> usize
    ensures within_first { result ≤ length first.now }
    ensures within_second { result ≤ length second.now }
    ensures same { map in_scope_of (take result first.now) ≡ map in_scope_of (take result second.now) }
{
    let most = first.len().min(second.len());
    for count in 0..most {
        if !is_same(&first[count], &second[count]) {
            return count;
        }
    }
    most
}

// Appends copies of these variables.
fn append_copies(
    alloc: Global,
    variables: Vec<InScope>,
    others: &[InScope],
) -> Result<Vec<InScope>, Memory>
    ensures { IfOk result (λ v. map in_scope_of v.items ≡ map in_scope_of variables.items ++ map in_scope_of others.now) }
{
    let mut found = variables;
    for v in others {
        found.push(InScope {
            number: v.number,
            ty: v.ty.copy(alloc)?,
            single: v.single,
        })?;
    }
    Ok(found)
}

/// Copies variables into a recycled vector. A common prefix isn't copied again.
pub fn copy_variables(
    alloc: Global,
    unused: Vec<InScope>,
    variables: &[InScope],
) -> Result<Vec<InScope>, Memory>
    ensures { IfOk result (λ v. map in_scope_of v.items ≡ map in_scope_of variables.now) }
{
    let count = common_prefix(&unused, variables);
    let mut found = unused;
    found.truncate(count);
    append_copies(alloc, found, &variables[count..])
}
