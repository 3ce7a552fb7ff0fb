// For the prover: access to the contents of boxes and lists. A call with a contract makes the caller's proof far cheaper than a
// dereference in place.
ghost use Rattle.std.specs.Prelude.{◌≡◌};

use ti_lang::program::{Expr, Init, Range, Stmt, TypeUse};

/// For the prover: the expression in a box.
pub fn deref_expr(boxed: &Box<Expr>) -> &Expr
    ensures { result.now ≡ boxed.now.value }
{
    boxed
}

/// For the prover: the expressions in a list.
pub fn deref_exprs(list: &Vec<Expr>) -> &[Expr]
    ensures { result.now ≡ list.now.items }
{
    list
}

/// For the prover: the ranges in a list.
pub fn deref_ranges(list: &Vec<Range>) -> &[Range]
    ensures { result.now ≡ list.now.items }
{
    list
}

/// For the prover: the type in a box.
pub fn deref_type(boxed: &Box<TypeUse>) -> &TypeUse
    ensures { result.now ≡ boxed.now.value }
{
    boxed
}

/// For the prover: the initializer in a box.
pub fn deref_init(boxed: &Box<Init>) -> &Init
    ensures { result.now ≡ boxed.now.value }
{
    boxed
}

/// For the prover: the statement in a box.
pub fn deref_stmt(boxed: &Box<Stmt>) -> &Stmt
    ensures { result.now ≡ boxed.now.value }
{
    boxed
}

/// For the prover: the statements in a list.
pub fn deref_stmts(list: &Vec<Stmt>) -> &[Stmt]
    ensures { result.now ≡ list.now.items }
{
    list
}
