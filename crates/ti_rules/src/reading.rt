// For the prover: all literals of a program are in the ranges of their types. Nothing but reading an integer brings its range into scope,
// so each literal is read once; the functions have no other effect.
ghost use Rattle.std.specs.Prelude.{map};
ghost use Rattle.std.specs.Option.{option_map};
ghost use Rattle.ti_syntax.specs.Trees.Views.{maybe_of};
ghost use Rattle.ti_lang.specs.Program.Expressions.{numbered_exps, numbered_ranges};
ghost use Rattle.ti_lang.specs.Program.Statements.{numbered_stms};
ghost use Rattle.ti_lang.specs.Program.Views.{program_of, expression_of, bound_of, extent_of, initial_of, printed_of, statement_of, numbered_method_of};
ghost use Rattle.ti_rules.specs.Mirrors.Literals.{InExp, InExps, InRange, InRanges, InOption, InDims, InInit, InPrint, InStm, InStms, InMethods, LiteralsFit};

use ti_lang::program::{Dims, Expr, Init, Method, Printed, Program, Range, Stmt};

// ---- expressions

#[cycle(read)]
fn read_all(exprs: &[Expr])
    ensures { InExps (numbered_exps (map expression_of exprs.now)) }
{
    for x in exprs {
        read(x);
    }
}

#[cycle(read)]
fn read_range(range: &Range)
    ensures { InRange (bound_of range.now) }
{
    match range {
        Range::Plain { low, high } => {
            read(low);
            read(high);
        }
        Range::Stepped { low, high, step } => {
            read(low);
            read(high);
            read(step);
        }
    }
}

#[cycle(read)]
fn read_ranges(ranges: &[Range])
    ensures { InRanges (numbered_ranges (map bound_of ranges.now)) }
{
    for range in ranges {
        read_range(range);
    }
}

#[cycle(read)]
#[tactic(auto, using(ti_lang::proofs::Lemmas::program_bridges))]
fn read(expr: &Expr)
    ensures { InExp (expression_of expr.now) }
{
    match expr {
        Expr::Int(_, number) => {
            let _number = *number;
        }
        Expr::Long(_, number) => {
            let _number = *number;
        }
        Expr::Call { args, .. } => read_all(args),
        Expr::OwnCall { args, .. } => read_all(args),
        Expr::Point(_, parts) => read_all(parts),
        Expr::Rect(_, ranges) => read_ranges(ranges),
        Expr::Unary { operand, .. } => read(operand),
        Expr::Binary { left, right, .. } => {
            read(left);
            read(right);
        }
        Expr::Cast { operand, .. } => read(operand),
        Expr::Select { receiver, .. } => read(receiver),
        Expr::Member { receiver, args, .. } => {
            read(receiver);
            read_all(args);
        }
        Expr::Index {
            receiver,
            indices,
            ..
        } => {
            read(receiver);
            read_all(indices);
        }
        Expr::Bool(_, _)
        | Expr::Null(_)
        | Expr::This(_)
        | Expr::Variable(_, _)
        | Expr::OwnField(_, _)
        | Expr::ThisProc(_)
        | Expr::NumProcs(_) => {}
    }
}

fn read_option(expr: &Option<Expr>)
    ensures { InOption (maybe_of expression_of expr.now) }
{
    match expr {
        Some(expr) => read(expr),
        None => {}
    }
}

// ---- statements

fn read_dims(dims: &Dims)
    ensures { InDims (extent_of dims.now) }
{
    match dims {
        Dims::Domain(e) => read(e),
        Dims::Ranges(ranges) => read_ranges(ranges),
    }
}

fn read_initial(value: &Init)
    ensures { InInit (initial_of value.now) }
{
    match value {
        Init::Value(e) => read(e),
        Init::NewRegion(_) => {}
        Init::NewObject { region, .. } => read_option(region),
        Init::NewGrid { region, dims, .. } => {
            read_option(region);
            read_dims(dims);
        }
        Init::Broadcast { value, root, .. } => {
            read(value);
            read(root);
        }
    }
}

fn read_printed(what: &Printed)
    ensures { InPrint (printed_of what.now) }
{
    match what {
        Printed::Value(e) => read(e),
        Printed::TextAndValue(_, e) => read(e),
        Printed::Nothing | Printed::Text(_) => {}
    }
}

#[cycle(read_statement)]
fn read_statements(stmts: &[Stmt])
    ensures { InStms (numbered_stms (map statement_of stmts.now)) }
{
    for stmt in stmts {
        read_statement(stmt);
    }
}

#[cycle(read_statement)]
#[tactic(auto, using(ti_lang::proofs::Lemmas::program_bridges))]
fn read_statement(stmt: &Stmt)
    ensures { InStm (statement_of stmt.now) }
{
    match stmt {
        Stmt::Declare { value, .. } => read_initial(value),
        Stmt::Assign { target, value, .. } => {
            read(target);
            read_initial(value);
        }
        Stmt::Update { target, value, .. } => {
            read(target);
            read(value);
        }
        Stmt::Step { target, .. } => read(target),
        Stmt::Call(e) => read(e),
        Stmt::Print(_, what) => read_printed(what),
        Stmt::Return(_, value) => read_option(value),
        Stmt::Block(body) => read_statements(body),
        Stmt::If {
            condition,
            then,
            otherwise,
            ..
        } => {
            read(condition);
            read_statement(then);
            if let Some(otherwise) = otherwise {
                read_statement(otherwise);
            }
        }
        Stmt::While {
            condition,
            body,
            ..
        } => {
            read(condition);
            read_statement(body);
        }
        Stmt::For {
            first,
            condition,
            update,
            body,
            ..
        } => {
            if let Some(first) = first {
                read_statement(first);
            }
            read_option(condition);
            if let Some(update) = update {
                read_statement(update);
            }
            read_statement(body);
        }
        Stmt::Foreach { domain, body, .. } => {
            read(domain);
            read_statement(body);
        }
        Stmt::Empty | Stmt::Barrier(_) | Stmt::Break(_) | Stmt::Continue(_) => {}
    }
}

// ---- programs

fn read_methods(methods: &[Method])
    ensures { InMethods (map numbered_method_of methods.now) }
{
    for method in methods {
        read_statements(&method.body);
    }
}

/// All literals of a program are in the ranges of their types.
pub fn literals_fit(program: &Program)
    ensures { LiteralsFit (program_of program.now.parts) }
{
    read_methods(&program.parts.methods)
}
