// The use of a name at a position of a method.
ghost use Rattle.std.specs.Prelude.{◌≡◌, [], map};
ghost use Rattle.std.specs.Option.{option_map, option_or};
ghost use Rattle.ti_syntax.specs.Trees.Expressions.{exps, ranges_tree};
ghost use Rattle.ti_syntax.specs.Trees.Statements.{stms};
ghost use Rattle.ti_syntax.specs.Trees.Views.{exp_of, range_of, type_tree_of, dims_of, init_of, print_of, maybe_of, stm_of, param_of, params_of, result_of, method_of};
ghost use Rattle.ti_names.specs.Seen.{tree_maybe};
ghost use Rattle.ti_explain.specs.NameUses.{used_at, use_in_base, use_in_type, before_dot, used_member, use_in_exp, use_among, use_in_range, use_among_ranges, use_in_maybe, use_in_dims, use_in_init, use_in_print, use_in_stm, use_in_maybe_stm, use_in_all, use_in_result, use_among_params, use_in_params, use_in_method};
ghost use Rattle.ti_explain.specs.Mirrors.Names.{used_name_of};

use crate::name_reason::SoughtName;
use ti_base::Place;
use ti_syntax::tree::{
    Base, Dims, Expr, Init, Method, ParamDecl, Params, PrintArgument, Range, ResultDecl, Stmt,
    TypeName,
};

/// A use of a name: what it has to be the name of, and the class before the dot, where there is one.
#[derive(Clone, Copy)]
pub struct NameUse<'a> {
    pub sought: SoughtName,
    pub class: &'a [u8],
    pub name: &'a [u8],
}

// The use of a name that is at this position, if that is the one that is looked for.
fn used_at<'a>(
    place: Place,
    at: Place,
    sought: SoughtName,
    class: &'a [u8],
    name: &'a [u8],
) -> Option<NameUse<'a>>
    ensures { option_map used_name_of result ≡ used_at place at sought class.now name.now }
{
    if place == at {
        Some(NameUse {
            sought,
            class,
            name,
        })
    } else {
        None
    }
}

// The first one, if there is one, else the second.
fn first_of<'a>(first: Option<NameUse<'a>>, second: Option<NameUse<'a>>) -> Option<NameUse<'a>>
    ensures { option_map used_name_of result
        ≡ option_or (option_map used_name_of first.entry) (option_map used_name_of second.entry) }
{
    match first {
        Some(used) => Some(used),
        None => second,
    }
}

// ---- types

fn use_in_base<'a>(place: Place, base: &'a Base) -> Option<NameUse<'a>>
    ensures { option_map used_name_of result ≡ use_in_base place base.now }
{
    match base {
        Base::Int(_)
        | Base::Long(_)
        | Base::Boolean(_)
        | Base::Point(_, _)
        | Base::RectDomain(_, _)
        | Base::Domain(_, _)
        | Base::SharedRegion(_) => None,
        Base::Named(at, name) => used_at(place, *at, SoughtName::Class, &[], name.as_bytes()),
    }
}

/// The class name at this position in a type.
pub fn use_in_type<'a>(place: Place, ty: &'a TypeName) -> Option<NameUse<'a>>
    ensures { option_map used_name_of result ≡ use_in_type place (type_tree_of ty.now) }
{
    use_in_base(place, &ty.base)
}

// ---- expressions

// An unqualified name before a dot may also be that of a class.
fn before_dot<'a>(receiver: &Expr, found: Option<NameUse<'a>>) -> Option<NameUse<'a>>
    ensures { option_map used_name_of result ≡ before_dot (exp_of receiver.now) (option_map used_name_of found.entry) }
{
    match receiver {
        Expr::Name(_, _) => match found {
            Some(used) => Some(NameUse {
                sought: SoughtName::BeforeDot,
                class: used.class,
                name: used.name,
            }),
            None => None,
        },
        _ => found,
    }
}

// The name of a member after that of a class.
fn used_member<'a>(
    place: Place,
    at: Place,
    sought: SoughtName,
    receiver: &'a Expr,
    name: &'a [u8],
) -> Option<NameUse<'a>>
    ensures { option_map used_name_of result ≡ used_member place at sought (exp_of receiver.now) name.now }
{
    match receiver {
        Expr::Name(_, class) => used_at(place, at, sought, class.as_bytes(), name),
        _ => None,
    }
}

#[cycle(use_in_expr)]
fn use_among<'a>(place: Place, exprs: &'a [Expr]) -> Option<NameUse<'a>>
    ensures { option_map used_name_of result ≡ use_among place (exps (map exp_of exprs.now)) }
{
    for x in exprs {
        if let Some(used) = use_in_exp(place, x) {
            return Some(used);
        }
    }
    None
}

#[cycle(use_in_expr)]
fn use_in_range<'a>(place: Place, range: &'a Range) -> Option<NameUse<'a>>
    ensures { option_map used_name_of result ≡ use_in_range place (range_of range.now) }
{
    match range {
        Range::Plain { low, high } => first_of(use_in_exp(place, low), use_in_exp(place, high)),
        Range::Stepped { low, high, step } => {
            let low = use_in_exp(place, low);
            let high = use_in_exp(place, high);
            first_of(low, first_of(high, use_in_exp(place, step)))
        }
    }
}

#[cycle(use_in_expr)]
fn use_among_ranges<'a>(place: Place, ranges: &'a [Range]) -> Option<NameUse<'a>>
    ensures { option_map used_name_of result ≡ use_among_ranges place (ranges_tree (map range_of ranges.now)) }
{
    for range in ranges {
        if let Some(used) = use_in_range(place, range) {
            return Some(used);
        }
    }
    None
}

#[cycle(use_in_expr)]
#[tactic(auto, using(ti_syntax::proofs::Lemmas::bridges))]
fn use_in_exp<'a>(place: Place, expr: &'a Expr) -> Option<NameUse<'a>>
    ensures { option_map used_name_of result ≡ use_in_exp place (exp_of expr.now) }
{
    match expr {
        Expr::This(at) => used_at(place, *at, SoughtName::This, &[], &[]),
        Expr::Name(at, name) => used_at(place, *at, SoughtName::Variable, &[], name.as_bytes()),
        Expr::Call {
            place: at,
            name,
            args,
        } => {
            let own = used_at(place, *at, SoughtName::Method, &[], name.as_bytes());
            first_of(own, use_among(place, args))
        }
        Expr::Point(_, parts) => use_among(place, parts),
        Expr::Rect(_, ranges) => use_among_ranges(place, ranges),
        Expr::Unary { operand, .. } => use_in_exp(place, operand),
        Expr::Binary { left, right, .. } => {
            first_of(use_in_exp(place, left), use_in_exp(place, right))
        }
        Expr::Cast { to, operand, .. } => {
            first_of(use_in_type(place, to), use_in_exp(place, operand))
        }
        Expr::Select {
            place: at,
            receiver,
            name,
        } => {
            let own = used_member(
                place,
                *at,
                SoughtName::StaticField,
                receiver,
                name.as_bytes(),
            );
            first_of(own, before_dot(receiver, use_in_exp(place, receiver)))
        }
        Expr::Member {
            place: at,
            receiver,
            name,
            args,
        } => {
            let own = used_member(
                place,
                *at,
                SoughtName::StaticMethod,
                receiver,
                name.as_bytes(),
            );
            let called = first_of(own, before_dot(receiver, use_in_exp(place, receiver)));
            first_of(called, use_among(place, args))
        }
        Expr::Index {
            receiver,
            indices,
            ..
        } => first_of(use_in_exp(place, receiver), use_among(place, indices)),
        Expr::Int(_, _)
        | Expr::Long(_, _)
        | Expr::Bool(_, _)
        | Expr::Null(_)
        | Expr::ThisProc(_)
        | Expr::NumProcs(_) => None,
    }
}

fn use_in_maybe<'a>(place: Place, expr: &'a Option<Expr>) -> Option<NameUse<'a>>
    ensures { option_map used_name_of result ≡ use_in_maybe place (maybe_of exp_of expr.now) }
{
    match expr {
        Some(x) => use_in_exp(place, x),
        None => None,
    }
}

// ---- statements

fn use_in_dims<'a>(place: Place, dims: &'a Dims) -> Option<NameUse<'a>>
    ensures { option_map used_name_of result ≡ use_in_dims place (dims_of dims.now) }
{
    match dims {
        Dims::Domain(x) => use_in_exp(place, x),
        Dims::Ranges(ranges) => use_among_ranges(place, ranges),
    }
}

fn use_in_init<'a>(place: Place, value: &'a Init) -> Option<NameUse<'a>>
    ensures { option_map used_name_of result ≡ use_in_init place (init_of value.now) }
{
    match value {
        Init::Value(x) => use_in_exp(place, x),
        Init::NewRegion(_) => None,
        Init::NewObject {
            region,
            name_place,
            name,
            ..
        } => first_of(
            use_in_maybe(place, region),
            used_at(place, *name_place, SoughtName::Class, &[], name.as_bytes()),
        ),
        Init::NewGrid {
            region,
            element,
            dims,
            ..
        } => {
            let region = use_in_maybe(place, region);
            let element = use_in_type(place, element);
            first_of(region, first_of(element, use_in_dims(place, dims)))
        }
        Init::Broadcast { value, root, .. } => {
            first_of(use_in_exp(place, value), use_in_exp(place, root))
        }
    }
}

fn use_in_print<'a>(place: Place, what: &'a PrintArgument) -> Option<NameUse<'a>>
    ensures { option_map used_name_of result ≡ use_in_print place (print_of what.now) }
{
    match what {
        PrintArgument::Nothing => None,
        PrintArgument::Text(_) => None,
        PrintArgument::Value(x) => use_in_exp(place, x),
        PrintArgument::TextAndValue(_, x) => use_in_exp(place, x),
    }
}

#[cycle(use_in_stmt)]
fn use_in_maybe_stm<'a>(place: Place, stmt: &'a Option<Box<Stmt>>) -> Option<NameUse<'a>>
    ensures { option_map used_name_of result ≡ use_in_maybe_stm place (tree_maybe stmt.now) }
{
    match stmt {
        Some(x) => use_in_stm(place, x),
        None => None,
    }
}

#[cycle(use_in_stmt)]
fn use_in_all<'a>(place: Place, stmts: &'a [Stmt]) -> Option<NameUse<'a>>
    ensures { option_map used_name_of result ≡ use_in_all place (stms (map stm_of stmts.now)) }
{
    for x in stmts {
        if let Some(used) = use_in_stm(place, x) {
            return Some(used);
        }
    }
    None
}

#[cycle(use_in_stmt)]
#[tactic(auto, using(ti_syntax::proofs::Lemmas::bridges))]
fn use_in_stm<'a>(place: Place, stmt: &'a Stmt) -> Option<NameUse<'a>>
    ensures { option_map used_name_of result ≡ use_in_stm place (stm_of stmt.now) }
{
    match stmt {
        Stmt::Declare { ty, value, .. } => {
            first_of(use_in_type(place, ty), use_in_init(place, value))
        }
        Stmt::Assign { target, value, .. } => {
            first_of(use_in_exp(place, target), use_in_init(place, value))
        }
        Stmt::Update { target, value, .. } => {
            first_of(use_in_exp(place, target), use_in_exp(place, value))
        }
        Stmt::Step { target, .. } => use_in_exp(place, target),
        Stmt::Call(x) => use_in_exp(place, x),
        Stmt::Print(_, what) => use_in_print(place, what),
        Stmt::Return(_, value) => use_in_maybe(place, value),
        Stmt::Block(body) => use_in_all(place, body),
        Stmt::If {
            condition,
            then,
            otherwise,
            ..
        } => {
            let condition = use_in_exp(place, condition);
            let then = use_in_stm(place, then);
            match otherwise {
                Some(otherwise) => {
                    first_of(condition, first_of(then, use_in_stm(place, otherwise)))
                }
                None => first_of(condition, then),
            }
        }
        Stmt::While {
            condition,
            body,
            ..
        } => first_of(use_in_exp(place, condition), use_in_stm(place, body)),
        Stmt::For {
            first,
            condition,
            update,
            body,
            ..
        } => {
            let first = use_in_maybe_stm(place, first);
            let condition = use_in_maybe(place, condition);
            let update = use_in_maybe_stm(place, update);
            let inside = first_of(update, use_in_stm(place, body));
            first_of(first, first_of(condition, inside))
        }
        Stmt::Foreach { domain, body, .. } => {
            first_of(use_in_exp(place, domain), use_in_stm(place, body))
        }
        Stmt::Empty | Stmt::Barrier(_) | Stmt::Break(_) | Stmt::Continue(_) => None,
    }
}

// ---- methods

fn use_in_result<'a>(place: Place, given: &'a ResultDecl) -> Option<NameUse<'a>>
    ensures { option_map used_name_of result ≡ use_in_result place (result_of given.now) }
{
    match given {
        ResultDecl::Void(_) => None,
        ResultDecl::Typed(ty) => use_in_type(place, ty),
    }
}

fn use_among_params<'a>(place: Place, params: &'a [ParamDecl]) -> Option<NameUse<'a>>
    ensures { option_map used_name_of result ≡ use_among_params place (map param_of params.now) }
{
    for param in params {
        if let Some(used) = use_in_type(place, &param.ty) {
            return Some(used);
        }
    }
    None
}

fn use_in_params<'a>(place: Place, params: &'a Params) -> Option<NameUse<'a>>
    ensures { option_map used_name_of result ≡ use_in_params place (params_of params.now) }
{
    match params {
        Params::MainArgs(_, _) => None,
        Params::Typed(params) => use_among_params(place, params),
    }
}

/// The use of a name at this position in a method.
pub fn use_in_method<'a>(place: Place, method: &'a Method) -> Option<NameUse<'a>>
    ensures { option_map used_name_of result ≡ use_in_method place (method_of method.now) }
{
    let head = use_in_result(place, &method.result);
    let params = use_in_params(place, &method.params);
    first_of(head, first_of(params, use_in_all(place, &method.body)))
}
