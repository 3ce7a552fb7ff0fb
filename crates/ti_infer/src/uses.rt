// Sets whether each use of a variable is single, for expressions and the parts of statements.
ghost use Rattle.std.specs.Prelude.{◌≡◌, ℕ, Bool, false, map, option_map};
ghost use Rattle.ti_syntax.specs.Trees.Views.{maybe_of};
ghost use Rattle.ti_lang.specs.Program.Views.{expression_of, bound_of, extent_of, initial_of, printed_of, variable_of};
ghost use Rattle.ti_infer.specs.Marked.{marked_declaration, marked_exp, marked_range, marked_dims, marked_init, marked_print};

use ti_lang::program::{Declared, Dims, Expr, Init, Printed, Range, Variable};

/// Which variables of a method are single, by their numbers.
pub trait Singles {
    ghost says: { Self → ℕ → Bool };

    /// Whether the variable with this number is single.
    fn is_single(&self, number: u32) -> bool
        ensures { result ≡ says self.now number };
}

/// No variable is single.
pub struct NoneSingle;

impl Singles for NoneSingle {
    ghost says = { λ s number. false };

    fn is_single(&self, _number: u32) -> bool {
        false
    }
}

// ---- expressions

fn set_use<S: Singles>(singles: &S, variable: &mut Variable)
    ensures { variable_of variable.new ≡ record (variable_of variable.old) {
      declared = marked_declaration (S.says singles.now (variable_of variable.old).number)
          (variable_of variable.old).declared;
    } }
{
    let is_single = singles.is_single(variable.number);
    if let Declared::Typed { single, .. } = &mut variable.declared {
        *single = is_single;
    }
}

#[cycle(set_uses)]
fn set_in_all<S: Singles>(singles: &S, exprs: &mut Vec<Expr>)
    ensures { map expression_of exprs.new.items ≡ map (marked_exp (S.says singles.now)) (map expression_of exprs.old.items) }
{
    for i in 0..exprs.len() {
        set_uses(singles, &mut exprs[i]);
    }
}

#[cycle(set_uses)]
fn set_in_ranges<S: Singles>(singles: &S, ranges: &mut Vec<Range>)
    ensures { map bound_of ranges.new.items ≡ map (marked_range (S.says singles.now)) (map bound_of ranges.old.items) }
{
    for i in 0..ranges.len() {
        set_in_range(singles, &mut ranges[i]);
    }
}

#[cycle(set_uses)]
fn set_in_range<S: Singles>(singles: &S, range: &mut Range)
    ensures { bound_of range.new ≡ marked_range (S.says singles.now) (bound_of range.old) }
{
    match range {
        Range::Plain { low, high } => {
            set_uses(singles, low);
            set_uses(singles, high);
        }
        Range::Stepped { low, high, step } => {
            set_uses(singles, low);
            set_uses(singles, high);
            set_uses(singles, step);
        }
    }
}

/// Sets at each use of a variable in an expression whether it is single. Uses of foreach variables don't state this and are left as they
/// are.
#[cycle(set_uses)]
pub fn set_uses<S: Singles>(singles: &S, node: &mut Expr)
    ensures { expression_of node.new ≡ marked_exp (S.says singles.now) (expression_of node.old) }
{
    match node {
        Expr::Variable(_, variable) => set_use(singles, variable),
        Expr::Call { args, .. } => set_in_all(singles, args),
        Expr::OwnCall { args, .. } => set_in_all(singles, args),
        Expr::Point(_, parts) => set_in_all(singles, parts),
        Expr::Rect(_, ranges) => set_in_ranges(singles, ranges),
        Expr::Unary { operand, .. } => set_uses(singles, operand),
        Expr::Binary { left, right, .. } => {
            set_uses(singles, left);
            set_uses(singles, right);
        }
        Expr::Cast { operand, .. } => set_uses(singles, operand),
        Expr::Select { receiver, .. } => set_uses(singles, receiver),
        Expr::Member { receiver, args, .. } => {
            set_uses(singles, receiver);
            set_in_all(singles, args);
        }
        Expr::Index {
            receiver,
            indices,
            ..
        } => {
            set_uses(singles, receiver);
            set_in_all(singles, indices);
        }
        Expr::Int(_, _)
        | Expr::Long(_, _)
        | Expr::Bool(_, _)
        | Expr::Null(_)
        | Expr::This(_)
        | Expr::OwnField(_, _)
        | Expr::ThisProc(_)
        | Expr::NumProcs(_) => {}
    }
}

/// Sets in an optional expression whether each use of a variable is single.
pub fn set_in_maybe<S: Singles>(singles: &S, node: &mut Option<Expr>)
    ensures { maybe_of expression_of node.new ≡ option_map (marked_exp (S.says singles.now)) (maybe_of expression_of node.old) }
{
    if let Some(node) = node {
        set_uses(singles, node);
    }
}

// ---- parts of statements

fn set_in_dims<S: Singles>(singles: &S, dims: &mut Dims)
    ensures { extent_of dims.new ≡ marked_dims (S.says singles.now) (extent_of dims.old) }
{
    match dims {
        Dims::Domain(x) => set_uses(singles, x),
        Dims::Ranges(ranges) => set_in_ranges(singles, ranges),
    }
}

/// Sets in a right side whether each use of a variable is single. The element type of a new grid isn't changed.
pub fn set_in_initial<S: Singles>(singles: &S, value: &mut Init)
    ensures { initial_of value.new ≡ marked_init (S.says singles.now) (initial_of value.old) }
{
    match value {
        Init::Value(x) => set_uses(singles, x),
        Init::NewRegion(_) => {}
        Init::NewObject { region, .. } => set_in_maybe(singles, region),
        Init::NewGrid { region, dims, .. } => {
            set_in_maybe(singles, region);
            set_in_dims(singles, dims);
        }
        Init::Broadcast { value, root, .. } => {
            set_uses(singles, value);
            set_uses(singles, root);
        }
    }
}

/// Sets in what a print writes whether each use of a variable is single.
pub fn set_in_printed<S: Singles>(singles: &S, what: &mut Printed)
    ensures { printed_of what.new ≡ marked_print (S.says singles.now) (printed_of what.old) }
{
    match what {
        Printed::Nothing | Printed::Text(_) => {}
        Printed::Value(x) => set_uses(singles, x),
        Printed::TextAndValue(_, x) => set_uses(singles, x),
    }
}
