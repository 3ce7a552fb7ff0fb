// The forms in which resolved programs are printed.

use crate::debug_text::{Leaf, Node, NodeText, Shape, leaf_text};
use std::alloc::{AllocError, Global};
use ti_lang::program::{
    Class, Declared, Dims, Expr, Field, InScope, Init, Method, Param, Params, Printed, ProgramData,
    Range, ResultType, Scope, Stmt, Ty, TypeUse, Variable,
};
use ti_syntax::Spelled;
use ti_syntax::tree::{Brackets, Modifier, Qualifier};

/// A node of the tree, or a list of nodes.
#[derive(Clone, Copy)]
pub(crate) enum ProgramNode<'a> {
    Leaf(Leaf<'a>),
    Ty(&'a Ty),
    TypeUse(&'a TypeUse),
    Declared(&'a Declared),
    Variable(&'a Variable),
    Brackets(&'a Brackets),
    Expr(&'a Expr),
    Range(&'a Range),
    Dims(&'a Dims),
    Init(&'a Init),
    Printed(&'a Printed),
    Stmt(&'a Stmt),
    Field(&'a Field),
    Class(&'a Class),
    Param(&'a Param),
    Params(&'a Params),
    ResultType(&'a ResultType),
    Method(&'a Method),
    InScope(&'a InScope),
    Scope(&'a Scope),
    ProgramData(&'a ProgramData),
    Exprs(&'a [Expr]),
    Ranges(&'a [Range]),
    Stmts(&'a [Stmt]),
    Modifiers(&'a [Modifier]),
    Qualifiers(&'a [Qualifier]),
    Grids(&'a [Brackets]),
    ParamList(&'a [Param]),
    Fields(&'a [Field]),
    Classes(&'a [Class]),
    Methods(&'a [Method]),
    Names(&'a [Spelled]),
    InScopes(&'a [InScope]),
    MaybeExpr(&'a Option<Expr>),
    MaybeStmt(&'a Option<Box<Stmt>>),
    /// The part of a method from its name on.
    MethodEnd(&'a Method),
}

impl<'a> ProgramNode<'a> {
    /// How this node is printed, with its parts.
    fn form(self) -> NodeText<ProgramNode<'a>> {
        match self {
            ProgramNode::Leaf(_) => NodeText::leaf(),
            ProgramNode::Ty(node) => ty(node),
            ProgramNode::TypeUse(node) => type_use(node),
            ProgramNode::Declared(node) => declared(node),
            ProgramNode::Variable(node) => variable(node),
            ProgramNode::Brackets(node) => brackets(node),
            ProgramNode::Expr(node) => expr(node),
            ProgramNode::Range(node) => range(node),
            ProgramNode::Dims(node) => dims(node),
            ProgramNode::Init(node) => init(node),
            ProgramNode::Printed(node) => printed(node),
            ProgramNode::Stmt(node) => stmt(node),
            ProgramNode::Field(node) => field(node),
            ProgramNode::Class(node) => class(node),
            ProgramNode::Param(node) => param(node),
            ProgramNode::Params(node) => params(node),
            ProgramNode::ResultType(node) => result_type(node),
            ProgramNode::Method(node) => method(node),
            ProgramNode::InScope(node) => in_scope(node),
            ProgramNode::Scope(node) => scope(node),
            ProgramNode::ProgramData(node) => parts(node),
            ProgramNode::MethodEnd(method) => method_end(method),
            ProgramNode::MaybeExpr(node) => maybe_expr(node),
            ProgramNode::MaybeStmt(node) => maybe_stmt(node),
            _ => NodeText::list(),
        }
    }
}

impl<'a> Node for ProgramNode<'a> {
    fn shape(self) -> Shape {
        self.form().shape()
    }

    fn leaf(self, alloc: Global) -> Result<String, AllocError> {
        match self {
            ProgramNode::Leaf(leaf) => leaf_text(alloc, leaf),
            _ => Ok(String::new(alloc)),
        }
    }

    fn part(self, index: usize) -> Option<ProgramNode<'a>> {
        self.form().part(index)
    }

    fn element(self, index: usize) -> Option<ProgramNode<'a>> {
        match self {
            ProgramNode::Exprs(list) => Some(ProgramNode::Expr(list.get(index)?)),
            ProgramNode::Ranges(list) => Some(ProgramNode::Range(list.get(index)?)),
            ProgramNode::Stmts(list) => Some(ProgramNode::Stmt(list.get(index)?)),
            ProgramNode::Modifiers(list) => Some(ProgramNode::Leaf(Leaf::Modifier(*list.get(
                index,
            )?))),
            ProgramNode::Qualifiers(list) => Some(ProgramNode::Leaf(Leaf::Qualifier(*list.get(
                index,
            )?))),
            ProgramNode::Grids(list) => Some(ProgramNode::Brackets(list.get(index)?)),
            ProgramNode::ParamList(list) => Some(ProgramNode::Param(list.get(index)?)),
            ProgramNode::Fields(list) => Some(ProgramNode::Field(list.get(index)?)),
            ProgramNode::Classes(list) => Some(ProgramNode::Class(list.get(index)?)),
            ProgramNode::Methods(list) => Some(ProgramNode::Method(list.get(index)?)),
            ProgramNode::Names(list) => Some(ProgramNode::Leaf(Leaf::Spelled(list.get(index)?))),
            ProgramNode::InScopes(list) => Some(ProgramNode::InScope(list.get(index)?)),
            _ => None,
        }
    }
}

/// The form of a resolved type.
fn ty(ty: &Ty) -> NodeText<ProgramNode<'_>> {
    match ty {
        Ty::Int => NodeText::of0("Int"),
        Ty::Long => NodeText::of0("Long"),
        Ty::Bool => NodeText::of0("Bool"),
        Ty::Pt(dim) => NodeText::of1("Pt(@)", ProgramNode::Leaf(Leaf::Number(i64::from(*dim)))),
        Ty::Rc(dim) => NodeText::of1("Rc(@)", ProgramNode::Leaf(Leaf::Number(i64::from(*dim)))),
        Ty::Dm(dim) => NodeText::of1("Dm(@)", ProgramNode::Leaf(Leaf::Number(i64::from(*dim)))),
        Ty::Region => NodeText::of0("Region"),
        Ty::Class { class, local } => NodeText::of2(
            "Class { class: @, local: @ }",
            ProgramNode::Leaf(Leaf::Number(i64::from(*class))),
            ProgramNode::Leaf(Leaf::Truth(*local)),
        ),
        Ty::Grid { elem, dim, local } => NodeText::of3(
            "Grid { elem: @, dim: @, local: @ }",
            ProgramNode::Ty(elem),
            ProgramNode::Leaf(Leaf::Number(i64::from(*dim))),
            ProgramNode::Leaf(Leaf::Truth(*local)),
        ),
        Ty::Null => NodeText::of0("Null"),
        Ty::Void => NodeText::of0("Void"),
    }
}

/// The form of a type as the source uses it, with its qualifiers and brackets.
fn type_use(ty: &TypeUse) -> NodeText<ProgramNode<'_>> {
    NodeText::of4(
        "TypeUse { ty: @, single: @, qualifiers: @, grids: @ }",
        ProgramNode::Ty(&ty.ty),
        ProgramNode::Leaf(Leaf::Truth(ty.single)),
        ProgramNode::Qualifiers(&ty.qualifiers),
        ProgramNode::Grids(&ty.grids),
    )
}

/// The form of how a variable was declared: with a type, or by `foreach`.
fn declared(declared: &Declared) -> NodeText<ProgramNode<'_>> {
    match declared {
        Declared::Typed { single, ty } => NodeText::of2(
            "Typed { single: @, ty: @ }",
            ProgramNode::Leaf(Leaf::Truth(*single)),
            ProgramNode::Ty(ty),
        ),
        Declared::Foreach => NodeText::of0("Foreach"),
    }
}

/// The form of a use of a variable: its number and its declaration.
fn variable(variable: &Variable) -> NodeText<ProgramNode<'_>> {
    NodeText::of2(
        "Variable { number: @, declared: @ }",
        ProgramNode::Leaf(Leaf::Number(i64::from(variable.number))),
        ProgramNode::Declared(&variable.declared),
    )
}

/// The form of an expression.
fn expr(e: &Expr) -> NodeText<ProgramNode<'_>> {
    match e {
        Expr::Int(place, n) => NodeText::of2(
            "Int(@, @)",
            ProgramNode::Leaf(Leaf::Place(*place)),
            ProgramNode::Leaf(Leaf::Number(i64::from(*n))),
        ),
        Expr::Long(place, n) => NodeText::of2(
            "Long(@, @)",
            ProgramNode::Leaf(Leaf::Place(*place)),
            ProgramNode::Leaf(Leaf::Number(*n)),
        ),
        Expr::Bool(place, truth) => NodeText::of2(
            "Truth(@, @)",
            ProgramNode::Leaf(Leaf::Place(*place)),
            ProgramNode::Leaf(Leaf::Truth(*truth)),
        ),
        Expr::Null(place) => NodeText::of1("Null(@)", ProgramNode::Leaf(Leaf::Place(*place))),
        Expr::This(place) => NodeText::of1("This(@)", ProgramNode::Leaf(Leaf::Place(*place))),
        Expr::Variable(place, variable) => NodeText::of2(
            "Variable(@, @)",
            ProgramNode::Leaf(Leaf::Place(*place)),
            ProgramNode::Variable(variable),
        ),
        Expr::OwnField(place, field) => NodeText::of2(
            "OwnField(@, @)",
            ProgramNode::Leaf(Leaf::Place(*place)),
            ProgramNode::Leaf(Leaf::Number(i64::from(*field))),
        ),
        Expr::Call {
            place,
            method,
            args,
        } => NodeText::of3(
            "Call { place: @, method: @, args: @ }",
            ProgramNode::Leaf(Leaf::Place(*place)),
            ProgramNode::Leaf(Leaf::Number(i64::from(*method))),
            ProgramNode::Exprs(args),
        ),
        Expr::OwnCall {
            place,
            method,
            args,
        } => NodeText::of3(
            "OwnCall { place: @, method: @, args: @ }",
            ProgramNode::Leaf(Leaf::Place(*place)),
            ProgramNode::Leaf(Leaf::Number(i64::from(*method))),
            ProgramNode::Exprs(args),
        ),
        Expr::ThisProc(place) => NodeText::of1(
            "ThisProc(@)",
            ProgramNode::Leaf(Leaf::Place(*place)),
        ),
        Expr::NumProcs(place) => NodeText::of1(
            "NumProcs(@)",
            ProgramNode::Leaf(Leaf::Place(*place)),
        ),
        Expr::Point(place, parts) => NodeText::of2(
            "Point(@, @)",
            ProgramNode::Leaf(Leaf::Place(*place)),
            ProgramNode::Exprs(parts),
        ),
        Expr::Rect(place, ranges) => NodeText::of2(
            "Rect(@, @)",
            ProgramNode::Leaf(Leaf::Place(*place)),
            ProgramNode::Ranges(ranges),
        ),
        Expr::Unary {
            place,
            operator,
            operand,
        } => NodeText::of3(
            "Unary { place: @, operator: @, operand: @ }",
            ProgramNode::Leaf(Leaf::Place(*place)),
            ProgramNode::Leaf(Leaf::Unary(*operator)),
            ProgramNode::Expr(operand),
        ),
        Expr::Binary {
            place,
            operator,
            left,
            right,
        } => NodeText::of4(
            "Binary { place: @, operator: @, left: @, right: @ }",
            ProgramNode::Leaf(Leaf::Place(*place)),
            ProgramNode::Leaf(Leaf::Binary(*operator)),
            ProgramNode::Expr(left),
            ProgramNode::Expr(right),
        ),
        Expr::Cast { place, to, operand } => NodeText::of3(
            "Cast { place: @, to: @, operand: @ }",
            ProgramNode::Leaf(Leaf::Place(*place)),
            ProgramNode::TypeUse(to),
            ProgramNode::Expr(operand),
        ),
        Expr::Select {
            place,
            receiver,
            name,
        } => NodeText::of3(
            "Select { place: @, receiver: @, name: @ }",
            ProgramNode::Leaf(Leaf::Place(*place)),
            ProgramNode::Expr(receiver),
            ProgramNode::Leaf(Leaf::Number(i64::from(*name))),
        ),
        Expr::Member {
            place,
            receiver,
            name,
            args,
        } => NodeText::of4(
            "Member { place: @, receiver: @, name: @, args: @ }",
            ProgramNode::Leaf(Leaf::Place(*place)),
            ProgramNode::Expr(receiver),
            ProgramNode::Leaf(Leaf::Number(i64::from(*name))),
            ProgramNode::Exprs(args),
        ),
        Expr::Index {
            place,
            receiver,
            indices,
        } => NodeText::of3(
            "Index { place: @, receiver: @, indices: @ }",
            ProgramNode::Leaf(Leaf::Place(*place)),
            ProgramNode::Expr(receiver),
            ProgramNode::Exprs(indices),
        ),
    }
}

/// The form of a range, which is one dimension of a rectangular domain.
fn range(range: &Range) -> NodeText<ProgramNode<'_>> {
    match range {
        Range::Plain { low, high } => NodeText::of2(
            "Plain { low: @, high: @ }",
            ProgramNode::Expr(low),
            ProgramNode::Expr(high),
        ),
        Range::Stepped { low, high, step } => NodeText::of3(
            "Stepped { low: @, high: @, step: @ }",
            ProgramNode::Expr(low),
            ProgramNode::Expr(high),
            ProgramNode::Expr(step),
        ),
    }
}

/// The form of the domain in a grid creation: an expression or a list of ranges.
fn dims(dims: &Dims) -> NodeText<ProgramNode<'_>> {
    match dims {
        Dims::Domain(e) => NodeText::of1("Domain(@)", ProgramNode::Expr(e)),
        Dims::Ranges(ranges) => NodeText::of1("Ranges(@)", ProgramNode::Ranges(ranges)),
    }
}

/// The form of an initializer, which is the right-hand side of a declaration or assignment.
fn init(init: &Init) -> NodeText<ProgramNode<'_>> {
    match init {
        Init::Value(e) => NodeText::of1("Value(@)", ProgramNode::Expr(e)),
        Init::NewRegion(place) => NodeText::of1(
            "NewRegion(@)",
            ProgramNode::Leaf(Leaf::Place(*place)),
        ),
        Init::NewObject {
            place,
            region,
            class,
        } => NodeText::of3(
            "NewObject { place: @, region: @, class: @ }",
            ProgramNode::Leaf(Leaf::Place(*place)),
            ProgramNode::MaybeExpr(region),
            ProgramNode::Leaf(Leaf::Number(i64::from(*class))),
        ),
        Init::NewGrid {
            place,
            region,
            element,
            bracket,
            dims,
        } => NodeText::of5(
            "NewGrid { place: @, region: @, element: @, bracket: @, dims: @ }",
            ProgramNode::Leaf(Leaf::Place(*place)),
            ProgramNode::MaybeExpr(region),
            ProgramNode::TypeUse(element),
            ProgramNode::Leaf(Leaf::Place(*bracket)),
            ProgramNode::Dims(dims),
        ),
        Init::Broadcast { place, value, root } => NodeText::of3(
            "Broadcast { place: @, value: @, root: @ }",
            ProgramNode::Leaf(Leaf::Place(*place)),
            ProgramNode::Expr(value),
            ProgramNode::Expr(root),
        ),
    }
}

/// The form of the argument of a print statement.
fn printed(printed: &Printed) -> NodeText<ProgramNode<'_>> {
    match printed {
        Printed::Nothing => NodeText::of0("Nothing"),
        Printed::Text(text) => NodeText::of1(
            "Text(@)",
            ProgramNode::Leaf(Leaf::Number(i64::from(*text))),
        ),
        Printed::Value(e) => NodeText::of1("Value(@)", ProgramNode::Expr(e)),
        Printed::TextAndValue(text, e) => NodeText::of2(
            "TextAndValue(@, @)",
            ProgramNode::Leaf(Leaf::Number(i64::from(*text))),
            ProgramNode::Expr(e),
        ),
    }
}

/// The form of a statement.
fn stmt(stmt: &Stmt) -> NodeText<ProgramNode<'_>> {
    match stmt {
        Stmt::Empty => NodeText::of0("Empty"),
        Stmt::Declare {
            place,
            ty,
            variable,
            value,
        } => NodeText::of4(
            "Declare { place: @, ty: @, variable: @, value: @ }",
            ProgramNode::Leaf(Leaf::Place(*place)),
            ProgramNode::TypeUse(ty),
            ProgramNode::Leaf(Leaf::Number(i64::from(*variable))),
            ProgramNode::Init(value),
        ),
        Stmt::Assign {
            place,
            target,
            value,
        } => NodeText::of3(
            "Assign { place: @, target: @, value: @ }",
            ProgramNode::Leaf(Leaf::Place(*place)),
            ProgramNode::Expr(target),
            ProgramNode::Init(value),
        ),
        Stmt::Update {
            place,
            operator,
            target,
            value,
        } => NodeText::of4(
            "Update { place: @, operator: @, target: @, value: @ }",
            ProgramNode::Leaf(Leaf::Place(*place)),
            ProgramNode::Leaf(Leaf::Binary(*operator)),
            ProgramNode::Expr(target),
            ProgramNode::Expr(value),
        ),
        Stmt::Step {
            place,
            operator,
            target,
        } => NodeText::of3(
            "Step { place: @, operator: @, target: @ }",
            ProgramNode::Leaf(Leaf::Place(*place)),
            ProgramNode::Leaf(Leaf::StepOperator(*operator)),
            ProgramNode::Expr(target),
        ),
        Stmt::Call(e) => NodeText::of1("Call(@)", ProgramNode::Expr(e)),
        Stmt::Print(place, printed) => NodeText::of2(
            "Print(@, @)",
            ProgramNode::Leaf(Leaf::Place(*place)),
            ProgramNode::Printed(printed),
        ),
        Stmt::Barrier(place) => NodeText::of1("Barrier(@)", ProgramNode::Leaf(Leaf::Place(*place))),
        Stmt::Break(place) => NodeText::of1("Break(@)", ProgramNode::Leaf(Leaf::Place(*place))),
        Stmt::Continue(place) => NodeText::of1(
            "Continue(@)",
            ProgramNode::Leaf(Leaf::Place(*place)),
        ),
        Stmt::Return(place, value) => NodeText::of2(
            "Return(@, @)",
            ProgramNode::Leaf(Leaf::Place(*place)),
            ProgramNode::MaybeExpr(value),
        ),
        Stmt::Block(body) => NodeText::of1("Block(@)", ProgramNode::Stmts(body)),
        Stmt::If {
            place,
            condition,
            then,
            otherwise,
        } => NodeText::of4(
            "If { place: @, condition: @, then: @, otherwise: @ }",
            ProgramNode::Leaf(Leaf::Place(*place)),
            ProgramNode::Expr(condition),
            ProgramNode::Stmt(then),
            ProgramNode::MaybeStmt(otherwise),
        ),
        Stmt::While {
            place,
            condition,
            body,
        } => NodeText::of3(
            "While { place: @, condition: @, body: @ }",
            ProgramNode::Leaf(Leaf::Place(*place)),
            ProgramNode::Expr(condition),
            ProgramNode::Stmt(body),
        ),
        Stmt::For {
            place,
            first,
            condition,
            update,
            body,
        } => NodeText::of5(
            "For { place: @, first: @, condition: @, update: @, body: @ }",
            ProgramNode::Leaf(Leaf::Place(*place)),
            ProgramNode::MaybeStmt(first),
            ProgramNode::MaybeExpr(condition),
            ProgramNode::MaybeStmt(update),
            ProgramNode::Stmt(body),
        ),
        Stmt::Foreach {
            place,
            variable,
            domain,
            body,
        } => NodeText::of4(
            "Foreach { place: @, variable: @, domain: @, body: @ }",
            ProgramNode::Leaf(Leaf::Place(*place)),
            ProgramNode::Leaf(Leaf::Number(i64::from(*variable))),
            ProgramNode::Expr(domain),
            ProgramNode::Stmt(body),
        ),
    }
}

/// The form of a field declaration.
fn field(field: &Field) -> NodeText<ProgramNode<'_>> {
    NodeText::of3(
        "Field { modifiers: @, ty: @, name: @ }",
        ProgramNode::Modifiers(&field.modifiers),
        ProgramNode::TypeUse(&field.ty),
        ProgramNode::Leaf(Leaf::Number(i64::from(field.name))),
    )
}

/// The form of a class.
fn class(class: &Class) -> NodeText<ProgramNode<'_>> {
    NodeText::of2(
        "Class { modifiers: @, fields: @ }",
        ProgramNode::Modifiers(&class.modifiers),
        ProgramNode::Fields(&class.fields),
    )
}

/// The form of a parameter declaration.
fn param(param: &Param) -> NodeText<ProgramNode<'_>> {
    NodeText::of2(
        "Param { place: @, ty: @ }",
        ProgramNode::Leaf(Leaf::Place(param.place)),
        ProgramNode::TypeUse(&param.ty),
    )
}

/// The form of a parameter list: typed parameters, or `String[] x`.
fn params(params: &Params) -> NodeText<ProgramNode<'_>> {
    match params {
        Params::MainArgs => NodeText::of0("Words"),
        Params::Typed(params) => NodeText::of1("Typed(@)", ProgramNode::ParamList(params)),
    }
}

/// The form of the result type of a method, which may be `void`.
fn result_type(ty: &ResultType) -> NodeText<ProgramNode<'_>> {
    match ty {
        ResultType::Void => NodeText::of0("Void"),
        ResultType::Typed(ty) => NodeText::of1("Typed(@)", ProgramNode::TypeUse(ty)),
    }
}

/// The form of a method.
fn method(method: &Method) -> NodeText<ProgramNode<'_>> {
    NodeText::of6(
        "Method { class: @, modifiers: @, single: @, result: @, place: @@",
        ProgramNode::Leaf(Leaf::Number(i64::from(method.class))),
        ProgramNode::Modifiers(&method.modifiers),
        ProgramNode::Leaf(Leaf::Truth(method.single)),
        ProgramNode::ResultType(&method.result),
        ProgramNode::Leaf(Leaf::Place(method.place)),
        ProgramNode::MethodEnd(method),
    )
}

/// The form of a method from its name on.
fn method_end(method: &Method) -> NodeText<ProgramNode<'_>> {
    NodeText::of4(
        ", name: @, params: @, body: @, end: @ }",
        ProgramNode::Leaf(Leaf::Number(i64::from(method.name))),
        ProgramNode::Params(&method.params),
        ProgramNode::Stmts(&method.body),
        ProgramNode::Leaf(Leaf::Place(method.end)),
    )
}

/// The form of an entry of a scope.
fn in_scope(variable: &InScope) -> NodeText<ProgramNode<'_>> {
    NodeText::of3(
        "InScope { number: @, ty: @, single: @ }",
        ProgramNode::Leaf(Leaf::Number(i64::from(variable.number))),
        ProgramNode::Ty(&variable.ty),
        ProgramNode::Leaf(Leaf::Truth(variable.single)),
    )
}

/// The form of a scope.
fn scope(scope: &Scope) -> NodeText<ProgramNode<'_>> {
    NodeText::of4(
        "Scope { this: @, variables: @, method: @, innermost_loop: @ }",
        ProgramNode::Leaf(Leaf::MaybeNumber(scope.this)),
        ProgramNode::InScopes(&scope.variables),
        ProgramNode::Leaf(Leaf::Number(i64::from(scope.method))),
        ProgramNode::Leaf(Leaf::MaybePlace(scope.innermost_loop)),
    )
}

/// The form of a program: its classes, its methods, the number of `main`, and its names and literals.
fn parts(parts: &ProgramData) -> NodeText<ProgramNode<'_>> {
    NodeText::of5(
        "Parts { classes: @, methods: @, main: @, names: @, literals: @ }",
        ProgramNode::Classes(&parts.classes),
        ProgramNode::Methods(&parts.methods),
        ProgramNode::Leaf(Leaf::Number(i64::from(parts.main))),
        ProgramNode::Names(&parts.names),
        ProgramNode::Names(&parts.literals),
    )
}

/// The form of one pair of brackets of a grid type: its number of dimensions and the qualifiers of the grid.
fn brackets(brackets: &Brackets) -> NodeText<ProgramNode<'_>> {
    NodeText::of2(
        "Brackets { dim: @, qualifiers: @ }",
        ProgramNode::Leaf(Leaf::Number(i64::from(brackets.dim))),
        ProgramNode::Qualifiers(&brackets.qualifiers),
    )
}

/// The form of an optional expression.
fn maybe_expr(maybe: &Option<Expr>) -> NodeText<ProgramNode<'_>> {
    match maybe {
        Some(node) => NodeText::of1("Some(@)", ProgramNode::Expr(node)),
        None => NodeText::of0("None"),
    }
}

/// The form of an optional statement.
fn maybe_stmt(maybe: &Option<Box<Stmt>>) -> NodeText<ProgramNode<'_>> {
    match maybe {
        Some(node) => NodeText::of1("Some(@)", ProgramNode::Stmt(node)),
        None => NodeText::of0("None"),
    }
}
