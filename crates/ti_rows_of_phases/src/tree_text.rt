// The forms in which syntax trees are printed.

use crate::debug_text::{Leaf, Node, NodeText, Shape, leaf_text};
use std::alloc::{AllocError, Global};
use ti_syntax::tree::{
    Base, Brackets, Class, Dims, Expr, Field, Init, Member, Method, Modifier, ParamDecl, Params,
    PrintArgument, Qualifier, Range, ResultDecl, Stmt, TypeName,
};

/// A node of the tree, or a list of nodes.
#[derive(Clone, Copy)]
pub(crate) enum TreeNode<'a> {
    Leaf(Leaf<'a>),
    Base(&'a Base),
    Brackets(&'a Brackets),
    TypeName(&'a TypeName),
    Expr(&'a Expr),
    Range(&'a Range),
    Dims(&'a Dims),
    Init(&'a Init),
    PrintArgument(&'a PrintArgument),
    Stmt(&'a Stmt),
    Field(&'a Field),
    ParamDecl(&'a ParamDecl),
    Params(&'a Params),
    ResultDecl(&'a ResultDecl),
    Method(&'a Method),
    Member(&'a Member),
    Class(&'a Class),
    Exprs(&'a [Expr]),
    Ranges(&'a [Range]),
    Stmts(&'a [Stmt]),
    Modifiers(&'a [Modifier]),
    Qualifiers(&'a [Qualifier]),
    Grids(&'a [Brackets]),
    ParamList(&'a [ParamDecl]),
    Members(&'a [Member]),
    Classes(&'a [Class]),
    MaybeExpr(&'a Option<Expr>),
    MaybeStmt(&'a Option<Box<Stmt>>),
    /// The part of a method from its name on.
    MethodEnd(&'a Method),
}

impl<'a> TreeNode<'a> {
    /// How this node is printed, with its parts.
    fn form(self) -> NodeText<TreeNode<'a>> {
        match self {
            TreeNode::Leaf(_) => NodeText::leaf(),
            TreeNode::Base(node) => base(node),
            TreeNode::Brackets(node) => brackets(node),
            TreeNode::TypeName(node) => type_name(node),
            TreeNode::Expr(node) => expr(node),
            TreeNode::Range(node) => range(node),
            TreeNode::Dims(node) => dims(node),
            TreeNode::Init(node) => init(node),
            TreeNode::PrintArgument(node) => printed(node),
            TreeNode::Stmt(node) => stmt(node),
            TreeNode::Field(node) => field(node),
            TreeNode::ParamDecl(node) => param(node),
            TreeNode::Params(node) => params(node),
            TreeNode::ResultDecl(node) => result_type(node),
            TreeNode::Method(node) => method(node),
            TreeNode::Member(node) => member(node),
            TreeNode::Class(node) => class(node),
            TreeNode::MethodEnd(method) => method_end(method),
            TreeNode::MaybeExpr(node) => maybe_expr(node),
            TreeNode::MaybeStmt(node) => maybe_stmt(node),
            _ => NodeText::list(),
        }
    }
}

impl<'a> Node for TreeNode<'a> {
    fn shape(self) -> Shape {
        self.form().shape()
    }

    fn leaf(self, alloc: Global) -> Result<String, AllocError> {
        match self {
            TreeNode::Leaf(leaf) => leaf_text(alloc, leaf),
            _ => Ok(String::new(alloc)),
        }
    }

    fn part(self, index: usize) -> Option<TreeNode<'a>> {
        self.form().part(index)
    }

    fn element(self, index: usize) -> Option<TreeNode<'a>> {
        match self {
            TreeNode::Exprs(list) => Some(TreeNode::Expr(list.get(index)?)),
            TreeNode::Ranges(list) => Some(TreeNode::Range(list.get(index)?)),
            TreeNode::Stmts(list) => Some(TreeNode::Stmt(list.get(index)?)),
            TreeNode::Modifiers(list) => Some(TreeNode::Leaf(Leaf::Modifier(*list.get(index)?))),
            TreeNode::Qualifiers(list) => Some(TreeNode::Leaf(Leaf::Qualifier(*list.get(index)?))),
            TreeNode::Grids(list) => Some(TreeNode::Brackets(list.get(index)?)),
            TreeNode::ParamList(list) => Some(TreeNode::ParamDecl(list.get(index)?)),
            TreeNode::Members(list) => Some(TreeNode::Member(list.get(index)?)),
            TreeNode::Classes(list) => Some(TreeNode::Class(list.get(index)?)),
            _ => None,
        }
    }
}

/// The form of the base of a type name: a built-in type or a class.
fn base(base: &Base) -> NodeText<TreeNode<'_>> {
    match base {
        Base::Int(place) => NodeText::of1("Int(@)", TreeNode::Leaf(Leaf::Place(*place))),
        Base::Long(place) => NodeText::of1("Long(@)", TreeNode::Leaf(Leaf::Place(*place))),
        Base::Boolean(place) => NodeText::of1("Boolean(@)", TreeNode::Leaf(Leaf::Place(*place))),
        Base::Point(place, dim) => NodeText::of2(
            "Point(@, @)",
            TreeNode::Leaf(Leaf::Place(*place)),
            TreeNode::Leaf(Leaf::Number(i64::from(*dim))),
        ),
        Base::RectDomain(place, dim) => NodeText::of2(
            "RectDomain(@, @)",
            TreeNode::Leaf(Leaf::Place(*place)),
            TreeNode::Leaf(Leaf::Number(i64::from(*dim))),
        ),
        Base::Domain(place, dim) => NodeText::of2(
            "Domain(@, @)",
            TreeNode::Leaf(Leaf::Place(*place)),
            TreeNode::Leaf(Leaf::Number(i64::from(*dim))),
        ),
        Base::SharedRegion(place) => NodeText::of1(
            "SharedRegion(@)",
            TreeNode::Leaf(Leaf::Place(*place)),
        ),
        Base::Named(place, name) => NodeText::of2(
            "Named(@, @)",
            TreeNode::Leaf(Leaf::Place(*place)),
            TreeNode::Leaf(Leaf::Spelled(name)),
        ),
    }
}

/// The form of one pair of brackets of a grid type: its number of dimensions and the qualifiers of the grid.
fn brackets(brackets: &Brackets) -> NodeText<TreeNode<'_>> {
    NodeText::of2(
        "Brackets { dim: @, qualifiers: @ }",
        TreeNode::Leaf(Leaf::Number(i64::from(brackets.dim))),
        TreeNode::Qualifiers(&brackets.qualifiers),
    )
}

/// The form of a type name: its base, qualifiers and brackets.
fn type_name(ty: &TypeName) -> NodeText<TreeNode<'_>> {
    NodeText::of3(
        "TypeName { base: @, qualifiers: @, grids: @ }",
        TreeNode::Base(&ty.base),
        TreeNode::Qualifiers(&ty.qualifiers),
        TreeNode::Grids(&ty.grids),
    )
}

/// The form of an expression.
fn expr(e: &Expr) -> NodeText<TreeNode<'_>> {
    match e {
        Expr::Int(place, n) => NodeText::of2(
            "Int(@, @)",
            TreeNode::Leaf(Leaf::Place(*place)),
            TreeNode::Leaf(Leaf::Number(i64::from(*n))),
        ),
        Expr::Long(place, n) => NodeText::of2(
            "Long(@, @)",
            TreeNode::Leaf(Leaf::Place(*place)),
            TreeNode::Leaf(Leaf::Number(*n)),
        ),
        Expr::Bool(place, truth) => NodeText::of2(
            "Truth(@, @)",
            TreeNode::Leaf(Leaf::Place(*place)),
            TreeNode::Leaf(Leaf::Truth(*truth)),
        ),
        Expr::Null(place) => NodeText::of1("Null(@)", TreeNode::Leaf(Leaf::Place(*place))),
        Expr::This(place) => NodeText::of1("This(@)", TreeNode::Leaf(Leaf::Place(*place))),
        Expr::Name(place, name) => NodeText::of2(
            "Name(@, @)",
            TreeNode::Leaf(Leaf::Place(*place)),
            TreeNode::Leaf(Leaf::Spelled(name)),
        ),
        Expr::Call { place, name, args } => NodeText::of3(
            "Call { place: @, name: @, args: @ }",
            TreeNode::Leaf(Leaf::Place(*place)),
            TreeNode::Leaf(Leaf::Spelled(name)),
            TreeNode::Exprs(args),
        ),
        Expr::ThisProc(place) => NodeText::of1("ThisProc(@)", TreeNode::Leaf(Leaf::Place(*place))),
        Expr::NumProcs(place) => NodeText::of1("NumProcs(@)", TreeNode::Leaf(Leaf::Place(*place))),
        Expr::Point(place, parts) => NodeText::of2(
            "Point(@, @)",
            TreeNode::Leaf(Leaf::Place(*place)),
            TreeNode::Exprs(parts),
        ),
        Expr::Rect(place, ranges) => NodeText::of2(
            "Rect(@, @)",
            TreeNode::Leaf(Leaf::Place(*place)),
            TreeNode::Ranges(ranges),
        ),
        Expr::Unary {
            place,
            operator,
            operand,
        } => NodeText::of3(
            "Unary { place: @, operator: @, operand: @ }",
            TreeNode::Leaf(Leaf::Place(*place)),
            TreeNode::Leaf(Leaf::Unary(*operator)),
            TreeNode::Expr(operand),
        ),
        Expr::Binary {
            place,
            operator,
            left,
            right,
        } => NodeText::of4(
            "Binary { place: @, operator: @, left: @, right: @ }",
            TreeNode::Leaf(Leaf::Place(*place)),
            TreeNode::Leaf(Leaf::Binary(*operator)),
            TreeNode::Expr(left),
            TreeNode::Expr(right),
        ),
        Expr::Cast { place, to, operand } => NodeText::of3(
            "Cast { place: @, to: @, operand: @ }",
            TreeNode::Leaf(Leaf::Place(*place)),
            TreeNode::TypeName(to),
            TreeNode::Expr(operand),
        ),
        Expr::Select {
            place,
            receiver,
            name,
        } => NodeText::of3(
            "Select { place: @, receiver: @, name: @ }",
            TreeNode::Leaf(Leaf::Place(*place)),
            TreeNode::Expr(receiver),
            TreeNode::Leaf(Leaf::Spelled(name)),
        ),
        Expr::Member {
            place,
            receiver,
            name,
            args,
        } => NodeText::of4(
            "Member { place: @, receiver: @, name: @, args: @ }",
            TreeNode::Leaf(Leaf::Place(*place)),
            TreeNode::Expr(receiver),
            TreeNode::Leaf(Leaf::Spelled(name)),
            TreeNode::Exprs(args),
        ),
        Expr::Index {
            place,
            receiver,
            indices,
        } => NodeText::of3(
            "Index { place: @, receiver: @, indices: @ }",
            TreeNode::Leaf(Leaf::Place(*place)),
            TreeNode::Expr(receiver),
            TreeNode::Exprs(indices),
        ),
    }
}

/// The form of a range, which is one dimension of a rectangular domain.
fn range(range: &Range) -> NodeText<TreeNode<'_>> {
    match range {
        Range::Plain { low, high } => NodeText::of2(
            "Plain { low: @, high: @ }",
            TreeNode::Expr(low),
            TreeNode::Expr(high),
        ),
        Range::Stepped { low, high, step } => NodeText::of3(
            "Stepped { low: @, high: @, step: @ }",
            TreeNode::Expr(low),
            TreeNode::Expr(high),
            TreeNode::Expr(step),
        ),
    }
}

/// The form of the domain in a grid creation: an expression or a list of ranges.
fn dims(dims: &Dims) -> NodeText<TreeNode<'_>> {
    match dims {
        Dims::Domain(e) => NodeText::of1("Domain(@)", TreeNode::Expr(e)),
        Dims::Ranges(ranges) => NodeText::of1("Ranges(@)", TreeNode::Ranges(ranges)),
    }
}

/// The form of an initializer, which is the right-hand side of a declaration or assignment.
fn init(init: &Init) -> NodeText<TreeNode<'_>> {
    match init {
        Init::Value(e) => NodeText::of1("Value(@)", TreeNode::Expr(e)),
        Init::NewRegion(place) => NodeText::of1(
            "NewRegion(@)",
            TreeNode::Leaf(Leaf::Place(*place)),
        ),
        Init::NewObject {
            place,
            region,
            name_place,
            name,
        } => NodeText::of4(
            "NewObject { place: @, region: @, name_place: @, name: @ }",
            TreeNode::Leaf(Leaf::Place(*place)),
            TreeNode::MaybeExpr(region),
            TreeNode::Leaf(Leaf::Place(*name_place)),
            TreeNode::Leaf(Leaf::Spelled(name)),
        ),
        Init::NewGrid {
            place,
            region,
            element,
            bracket,
            dims,
        } => NodeText::of5(
            "NewGrid { place: @, region: @, element: @, bracket: @, dims: @ }",
            TreeNode::Leaf(Leaf::Place(*place)),
            TreeNode::MaybeExpr(region),
            TreeNode::TypeName(element),
            TreeNode::Leaf(Leaf::Place(*bracket)),
            TreeNode::Dims(dims),
        ),
        Init::Broadcast { place, value, root } => NodeText::of3(
            "Broadcast { place: @, value: @, root: @ }",
            TreeNode::Leaf(Leaf::Place(*place)),
            TreeNode::Expr(value),
            TreeNode::Expr(root),
        ),
    }
}

/// The form of the argument of a print statement.
fn printed(printed: &PrintArgument) -> NodeText<TreeNode<'_>> {
    match printed {
        PrintArgument::Nothing => NodeText::of0("Nothing"),
        PrintArgument::Text(text) => NodeText::of1("Text(@)", TreeNode::Leaf(Leaf::Spelled(text))),
        PrintArgument::Value(e) => NodeText::of1("Value(@)", TreeNode::Expr(e)),
        PrintArgument::TextAndValue(text, e) => NodeText::of2(
            "TextAndValue(@, @)",
            TreeNode::Leaf(Leaf::Spelled(text)),
            TreeNode::Expr(e),
        ),
    }
}

/// The form of a statement.
fn stmt(stmt: &Stmt) -> NodeText<TreeNode<'_>> {
    match stmt {
        Stmt::Empty => NodeText::of0("Empty"),
        Stmt::Declare {
            place,
            ty,
            name,
            value,
        } => NodeText::of4(
            "Declare { place: @, ty: @, name: @, value: @ }",
            TreeNode::Leaf(Leaf::Place(*place)),
            TreeNode::TypeName(ty),
            TreeNode::Leaf(Leaf::Spelled(name)),
            TreeNode::Init(value),
        ),
        Stmt::Assign {
            place,
            target,
            value,
        } => NodeText::of3(
            "Assign { place: @, target: @, value: @ }",
            TreeNode::Leaf(Leaf::Place(*place)),
            TreeNode::Expr(target),
            TreeNode::Init(value),
        ),
        Stmt::Update {
            place,
            operator,
            target,
            value,
        } => NodeText::of4(
            "Update { place: @, operator: @, target: @, value: @ }",
            TreeNode::Leaf(Leaf::Place(*place)),
            TreeNode::Leaf(Leaf::Binary(*operator)),
            TreeNode::Expr(target),
            TreeNode::Expr(value),
        ),
        Stmt::Step {
            place,
            operator,
            target,
        } => NodeText::of3(
            "Step { place: @, operator: @, target: @ }",
            TreeNode::Leaf(Leaf::Place(*place)),
            TreeNode::Leaf(Leaf::StepOperator(*operator)),
            TreeNode::Expr(target),
        ),
        Stmt::Call(e) => NodeText::of1("Call(@)", TreeNode::Expr(e)),
        Stmt::Print(place, printed) => NodeText::of2(
            "Print(@, @)",
            TreeNode::Leaf(Leaf::Place(*place)),
            TreeNode::PrintArgument(printed),
        ),
        Stmt::Barrier(place) => NodeText::of1("Barrier(@)", TreeNode::Leaf(Leaf::Place(*place))),
        Stmt::Break(place) => NodeText::of1("Break(@)", TreeNode::Leaf(Leaf::Place(*place))),
        Stmt::Continue(place) => NodeText::of1("Continue(@)", TreeNode::Leaf(Leaf::Place(*place))),
        Stmt::Return(place, value) => NodeText::of2(
            "Return(@, @)",
            TreeNode::Leaf(Leaf::Place(*place)),
            TreeNode::MaybeExpr(value),
        ),
        Stmt::Block(body) => NodeText::of1("Block(@)", TreeNode::Stmts(body)),
        Stmt::If {
            place,
            condition,
            then,
            otherwise,
        } => NodeText::of4(
            "If { place: @, condition: @, then: @, otherwise: @ }",
            TreeNode::Leaf(Leaf::Place(*place)),
            TreeNode::Expr(condition),
            TreeNode::Stmt(then),
            TreeNode::MaybeStmt(otherwise),
        ),
        Stmt::While {
            place,
            condition,
            body,
        } => NodeText::of3(
            "While { place: @, condition: @, body: @ }",
            TreeNode::Leaf(Leaf::Place(*place)),
            TreeNode::Expr(condition),
            TreeNode::Stmt(body),
        ),
        Stmt::For {
            place,
            first,
            condition,
            update,
            body,
        } => NodeText::of5(
            "For { place: @, first: @, condition: @, update: @, body: @ }",
            TreeNode::Leaf(Leaf::Place(*place)),
            TreeNode::MaybeStmt(first),
            TreeNode::MaybeExpr(condition),
            TreeNode::MaybeStmt(update),
            TreeNode::Stmt(body),
        ),
        Stmt::Foreach {
            place,
            name_place,
            name,
            domain,
            body,
        } => NodeText::of5(
            "Foreach { place: @, name_place: @, name: @, domain: @, body: @ }",
            TreeNode::Leaf(Leaf::Place(*place)),
            TreeNode::Leaf(Leaf::Place(*name_place)),
            TreeNode::Leaf(Leaf::Spelled(name)),
            TreeNode::Expr(domain),
            TreeNode::Stmt(body),
        ),
    }
}

/// The form of a field declaration.
fn field(field: &Field) -> NodeText<TreeNode<'_>> {
    NodeText::of4(
        "Field { modifiers: @, ty: @, place: @, name: @ }",
        TreeNode::Modifiers(&field.modifiers),
        TreeNode::TypeName(&field.ty),
        TreeNode::Leaf(Leaf::Place(field.place)),
        TreeNode::Leaf(Leaf::Spelled(&field.name)),
    )
}

/// The form of a parameter declaration.
fn param(param: &ParamDecl) -> NodeText<TreeNode<'_>> {
    NodeText::of3(
        "Param { ty: @, place: @, name: @ }",
        TreeNode::TypeName(&param.ty),
        TreeNode::Leaf(Leaf::Place(param.place)),
        TreeNode::Leaf(Leaf::Spelled(&param.name)),
    )
}

/// The form of a parameter list: typed parameters, or `String[] x`.
fn params(params: &Params) -> NodeText<TreeNode<'_>> {
    match params {
        Params::MainArgs(place, name) => NodeText::of2(
            "Words(@, @)",
            TreeNode::Leaf(Leaf::Place(*place)),
            TreeNode::Leaf(Leaf::Spelled(name)),
        ),
        Params::Typed(params) => NodeText::of1("Typed(@)", TreeNode::ParamList(params)),
    }
}

/// The form of the result type of a method, which may be `void`.
fn result_type(ty: &ResultDecl) -> NodeText<TreeNode<'_>> {
    match ty {
        ResultDecl::Void(place) => NodeText::of1("Void(@)", TreeNode::Leaf(Leaf::Place(*place))),
        ResultDecl::Typed(ty) => NodeText::of1("Typed(@)", TreeNode::TypeName(ty)),
    }
}

/// The form of a method.
fn method(method: &Method) -> NodeText<TreeNode<'_>> {
    NodeText::of4(
        "Method { modifiers: @, result: @, place: @@",
        TreeNode::Modifiers(&method.modifiers),
        TreeNode::ResultDecl(&method.result),
        TreeNode::Leaf(Leaf::Place(method.place)),
        TreeNode::MethodEnd(method),
    )
}

/// The form of a method from its name on.
fn method_end(method: &Method) -> NodeText<TreeNode<'_>> {
    NodeText::of4(
        ", name: @, params: @, body: @, end: @ }",
        TreeNode::Leaf(Leaf::Spelled(&method.name)),
        TreeNode::Params(&method.params),
        TreeNode::Stmts(&method.body),
        TreeNode::Leaf(Leaf::Place(method.end)),
    )
}

/// The form of a class member, which is a field or a method.
fn member(member: &Member) -> NodeText<TreeNode<'_>> {
    match member {
        Member::Field(field) => NodeText::of1("Field(@)", TreeNode::Field(field)),
        Member::Method(method) => NodeText::of1("Method(@)", TreeNode::Method(method)),
    }
}

/// The form of a class.
fn class(class: &Class) -> NodeText<TreeNode<'_>> {
    NodeText::of5(
        "Class { modifiers: @, word: @, place: @, name: @, members: @ }",
        TreeNode::Modifiers(&class.modifiers),
        TreeNode::Leaf(Leaf::Place(class.word)),
        TreeNode::Leaf(Leaf::Place(class.place)),
        TreeNode::Leaf(Leaf::Spelled(&class.name)),
        TreeNode::Members(&class.members),
    )
}

/// The form of an optional expression.
fn maybe_expr(maybe: &Option<Expr>) -> NodeText<TreeNode<'_>> {
    match maybe {
        Some(node) => NodeText::of1("Some(@)", TreeNode::Expr(node)),
        None => NodeText::of0("None"),
    }
}

/// The form of an optional statement.
fn maybe_stmt(maybe: &Option<Box<Stmt>>) -> NodeText<TreeNode<'_>> {
    match maybe {
        Some(node) => NodeText::of1("Some(@)", TreeNode::Stmt(node)),
        None => NodeText::of0("None"),
    }
}
