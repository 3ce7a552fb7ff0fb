// Deep copies of programs.

ghost use Rattle.std.specs.Prelude.{◌≡◌, map, IfOk};
ghost use Rattle.ti_syntax.specs.Trees.Views.{grid_of, maybe_of};
ghost use Rattle.ti_lang.specs.Mirrors.Copies.{AreSame};
ghost use Rattle.ti_lang.specs.Program.Views as view;

use super::classes::{Class, Field, Method, Param, Params, ProgramData, ResultType};
use super::exprs::{Expr, Range};
use super::stmts::{Dims, Init, Printed, Stmt};
use super::types::{Declared, Ty, TypeUse, Variable};
use std::alloc::Global;
use ti_base::Memory;
use ti_syntax::Spelled;
use ti_syntax::tree::Brackets;

/// Types that can be copied deeply.
pub trait TryClone: Drop {
    /// When two values are equal as trees, wherever they are allocated.
    ghost same: { Self → Self → Type 0 };

    /// A deep copy.
    fn copy(&self, alloc: Global) -> Result<Self, Memory>
        ensures { IfOk result (λ x. same x self.now) };
}

/// Deep copies of all elements.
pub fn copy_all<T: TryClone>(alloc: Global, items: &[T]) -> Result<Vec<T>, Memory>
    ensures { IfOk result (λ v. AreSame T.same v.items items.now) }
{
    let mut found = Vec::new(alloc);
    for x in items {
        found.push(x.copy(alloc)?)?;
    }
    Ok(found)
}

impl TryClone for Spelled {
    ghost same = { λ a b. a ≡ b };

    fn copy(&self, alloc: Global) -> Result<Spelled, Memory> {
        Spelled::copy(self, alloc)
    }
}

impl TryClone for Brackets {
    ghost same = { λ a b. grid_of a ≡ grid_of b };

    fn copy(&self, alloc: Global) -> Result<Brackets, Memory> {
        Ok(Brackets {
            dim: self.dim,
            qualifiers: self.qualifiers.to_vec(alloc)?,
        })
    }
}

impl Ty {
    /// A deep copy.
    pub fn copy(&self, alloc: Global) -> Result<Ty, Memory>
        ensures { IfOk result (λ t. view.value_type_of t ≡ view.value_type_of self.now) }
    {
        match self {
            Ty::Int => Ok(Ty::Int),
            Ty::Long => Ok(Ty::Long),
            Ty::Bool => Ok(Ty::Bool),
            Ty::Pt(dim) => Ok(Ty::Pt(*dim)),
            Ty::Rc(dim) => Ok(Ty::Rc(*dim)),
            Ty::Dm(dim) => Ok(Ty::Dm(*dim)),
            Ty::Region => Ok(Ty::Region),
            Ty::Class { class, local } => Ok(Ty::Class {
                class: *class,
                local: *local,
            }),
            Ty::Grid { elem, dim, local } => {
                let elem = Box::new(alloc, elem.copy(alloc)?)?;
                Ok(Ty::Grid {
                    elem,
                    dim: *dim,
                    local: *local,
                })
            }
            Ty::Null => Ok(Ty::Null),
            Ty::Void => Ok(Ty::Void),
        }
    }
}

impl TypeUse {
    /// A deep copy.
    #[tactic(auto, using(crate::proofs::Copies::copies))]
    pub fn copy(&self, alloc: Global) -> Result<TypeUse, Memory>
        ensures { IfOk result (λ t. view.type_use_of t ≡ view.type_use_of self.now) }
    {
        Ok(TypeUse {
            ty: self.ty.copy(alloc)?,
            single: self.single,
            qualifiers: self.qualifiers.to_vec(alloc)?,
            grids: copy_all(alloc, &self.grids)?,
        })
    }
}

impl Variable {
    /// A deep copy.
    pub fn copy(&self, alloc: Global) -> Result<Variable, Memory>
        ensures { IfOk result (λ v. view.variable_of v ≡ view.variable_of self.now) }
    {
        let declared = match &self.declared {
            Declared::Typed { single, ty } => Declared::Typed {
                single: *single,
                ty: ty.copy(alloc)?,
            },
            Declared::Foreach => Declared::Foreach,
        };
        Ok(Variable {
            number: self.number,
            declared,
        })
    }
}

#[cycle(copy_expr)]
fn copy_exprs(alloc: Global, exprs: &[Expr]) -> Result<Vec<Expr>, Memory>
    ensures { IfOk result (λ v. map view.expression_of v.items ≡ map view.expression_of exprs.now) }
{
    let mut found = Vec::new(alloc);
    for x in exprs {
        found.push(x.copy(alloc)?)?;
    }
    Ok(found)
}

#[cycle(copy_expr)]
fn copy_ranges(alloc: Global, ranges: &[Range]) -> Result<Vec<Range>, Memory>
    ensures { IfOk result (λ v. map view.bound_of v.items ≡ map view.bound_of ranges.now) }
{
    let mut found = Vec::new(alloc);
    for range in ranges {
        found.push(range.copy(alloc)?)?;
    }
    Ok(found)
}

#[cycle(copy_expr)]
fn copy_boxed(alloc: Global, expr: &Expr) -> Result<Box<Expr>, Memory>
    ensures { IfOk result (λ y. view.expression_of y.value ≡ view.expression_of expr.now) }
{
    Ok(Box::new(alloc, expr.copy(alloc)?)?)
}

impl Range {
    #[cycle(copy_expr)]
    fn copy(&self, alloc: Global) -> Result<Range, Memory>
        ensures { IfOk result (λ r. view.bound_of r ≡ view.bound_of self.now) }
    {
        match self {
            Range::Plain { low, high } => Ok(Range::Plain {
                low: low.copy(alloc)?,
                high: high.copy(alloc)?,
            }),
            Range::Stepped { low, high, step } => Ok(Range::Stepped {
                low: low.copy(alloc)?,
                high: high.copy(alloc)?,
                step: step.copy(alloc)?,
            }),
        }
    }
}

impl Expr {
    /// A deep copy.
    #[cycle(copy_expr)]
    #[tactic(auto, using(crate::proofs::ProgramBridges::program_bridges))]
    pub fn copy(&self, alloc: Global) -> Result<Expr, Memory>
        ensures { IfOk result (λ x. view.expression_of x ≡ view.expression_of self.now) }
    {
        match self {
            Expr::Int(place, number) => Ok(Expr::Int(*place, *number)),
            Expr::Long(place, number) => Ok(Expr::Long(*place, *number)),
            Expr::Bool(place, truth) => Ok(Expr::Bool(*place, *truth)),
            Expr::Null(place) => Ok(Expr::Null(*place)),
            Expr::This(place) => Ok(Expr::This(*place)),
            Expr::Variable(place, variable) => Ok(Expr::Variable(*place, variable.copy(alloc)?)),
            Expr::OwnField(place, field) => Ok(Expr::OwnField(*place, *field)),
            Expr::Call {
                place,
                method,
                args,
            } => Ok(Expr::Call {
                place: *place,
                method: *method,
                args: copy_exprs(alloc, args)?,
            }),
            Expr::OwnCall {
                place,
                method,
                args,
            } => Ok(Expr::OwnCall {
                place: *place,
                method: *method,
                args: copy_exprs(alloc, args)?,
            }),
            Expr::ThisProc(place) => Ok(Expr::ThisProc(*place)),
            Expr::NumProcs(place) => Ok(Expr::NumProcs(*place)),
            Expr::Point(place, parts) => Ok(Expr::Point(*place, copy_exprs(alloc, parts)?)),
            Expr::Rect(place, ranges) => Ok(Expr::Rect(*place, copy_ranges(alloc, ranges)?)),
            Expr::Unary {
                place,
                operator,
                operand,
            } => Ok(Expr::Unary {
                place: *place,
                operator: *operator,
                operand: copy_boxed(alloc, operand)?,
            }),
            Expr::Binary {
                place,
                operator,
                left,
                right,
            } => Ok(Expr::Binary {
                place: *place,
                operator: *operator,
                left: copy_boxed(alloc, left)?,
                right: copy_boxed(alloc, right)?,
            }),
            Expr::Cast { place, to, operand } => Ok(Expr::Cast {
                place: *place,
                to: Box::new(alloc, to.copy(alloc)?)?,
                operand: copy_boxed(alloc, operand)?,
            }),
            Expr::Select {
                place,
                receiver,
                name,
            } => Ok(Expr::Select {
                place: *place,
                receiver: copy_boxed(alloc, receiver)?,
                name: *name,
            }),
            Expr::Member {
                place,
                receiver,
                name,
                args,
            } => Ok(Expr::Member {
                place: *place,
                receiver: copy_boxed(alloc, receiver)?,
                name: *name,
                args: copy_exprs(alloc, args)?,
            }),
            Expr::Index {
                place,
                receiver,
                indices,
            } => Ok(Expr::Index {
                place: *place,
                receiver: copy_boxed(alloc, receiver)?,
                indices: copy_exprs(alloc, indices)?,
            }),
        }
    }
}

fn copy_maybe(alloc: Global, expr: &Option<Expr>) -> Result<Option<Expr>, Memory>
    ensures { IfOk result (λ y. maybe_of view.expression_of y ≡ maybe_of view.expression_of expr.now) }
{
    match expr {
        Some(expr) => Ok(Some(expr.copy(alloc)?)),
        None => Ok(None),
    }
}

impl Dims {
    fn copy(&self, alloc: Global) -> Result<Dims, Memory>
        ensures { IfOk result (λ d. view.extent_of d ≡ view.extent_of self.now) }
    {
        match self {
            Dims::Domain(x) => Ok(Dims::Domain(x.copy(alloc)?)),
            Dims::Ranges(ranges) => Ok(Dims::Ranges(copy_ranges(alloc, ranges)?)),
        }
    }
}

impl Init {
    fn copy(&self, alloc: Global) -> Result<Init, Memory>
        ensures { IfOk result (λ i. view.initial_of i ≡ view.initial_of self.now) }
    {
        match self {
            Init::Value(x) => Ok(Init::Value(x.copy(alloc)?)),
            Init::NewRegion(place) => Ok(Init::NewRegion(*place)),
            Init::NewObject {
                place,
                region,
                class,
            } => Ok(Init::NewObject {
                place: *place,
                region: copy_maybe(alloc, region)?,
                class: *class,
            }),
            Init::NewGrid {
                place,
                region,
                element,
                bracket,
                dims,
            } => Ok(Init::NewGrid {
                place: *place,
                region: copy_maybe(alloc, region)?,
                element: element.copy(alloc)?,
                bracket: *bracket,
                dims: dims.copy(alloc)?,
            }),
            Init::Broadcast { place, value, root } => Ok(Init::Broadcast {
                place: *place,
                value: value.copy(alloc)?,
                root: root.copy(alloc)?,
            }),
        }
    }
}

impl Printed {
    fn copy(&self, alloc: Global) -> Result<Printed, Memory>
        ensures { IfOk result (λ p. view.printed_of p ≡ view.printed_of self.now) }
    {
        match self {
            Printed::Nothing => Ok(Printed::Nothing),
            Printed::Text(literal) => Ok(Printed::Text(*literal)),
            Printed::Value(x) => Ok(Printed::Value(x.copy(alloc)?)),
            Printed::TextAndValue(literal, x) => {
                Ok(Printed::TextAndValue(*literal, x.copy(alloc)?))
            }
        }
    }
}

#[cycle(copy_stmt)]
fn copy_stmts(alloc: Global, stmts: &[Stmt]) -> Result<Vec<Stmt>, Memory>
    ensures { IfOk result (λ v. map view.statement_of v.items ≡ map view.statement_of stmts.now) }
{
    let mut found = Vec::new(alloc);
    for x in stmts {
        found.push(x.copy(alloc)?)?;
    }
    Ok(found)
}

#[cycle(copy_stmt)]
fn copy_inner(alloc: Global, stmt: &Stmt) -> Result<Box<Stmt>, Memory>
    ensures { IfOk result (λ y. view.statement_of y.value ≡ view.statement_of stmt.now) }
{
    Ok(Box::new(alloc, stmt.copy(alloc)?)?)
}

impl Stmt {
    /// A deep copy.
    #[cycle(copy_stmt)]
    #[tactic(auto, using(crate::proofs::ProgramBridges::program_bridges))]
    pub fn copy(&self, alloc: Global) -> Result<Stmt, Memory>
        ensures { IfOk result (λ s. view.statement_of s ≡ view.statement_of self.now) }
    {
        match self {
            Stmt::Empty => Ok(Stmt::Empty),
            Stmt::Declare {
                place,
                ty,
                variable,
                value,
            } => Ok(Stmt::Declare {
                place: *place,
                ty: ty.copy(alloc)?,
                variable: *variable,
                value: Box::new(alloc, value.copy(alloc)?)?,
            }),
            Stmt::Assign {
                place,
                target,
                value,
            } => Ok(Stmt::Assign {
                place: *place,
                target: target.copy(alloc)?,
                value: Box::new(alloc, value.copy(alloc)?)?,
            }),
            Stmt::Update {
                place,
                operator,
                target,
                value,
            } => Ok(Stmt::Update {
                place: *place,
                operator: *operator,
                target: target.copy(alloc)?,
                value: value.copy(alloc)?,
            }),
            Stmt::Step {
                place,
                operator,
                target,
            } => Ok(Stmt::Step {
                place: *place,
                operator: *operator,
                target: target.copy(alloc)?,
            }),
            Stmt::Call(x) => Ok(Stmt::Call(x.copy(alloc)?)),
            Stmt::Print(place, what) => Ok(Stmt::Print(*place, what.copy(alloc)?)),
            Stmt::Barrier(place) => Ok(Stmt::Barrier(*place)),
            Stmt::Break(place) => Ok(Stmt::Break(*place)),
            Stmt::Continue(place) => Ok(Stmt::Continue(*place)),
            Stmt::Return(place, value) => Ok(Stmt::Return(*place, copy_maybe(alloc, value)?)),
            Stmt::Block(body) => Ok(Stmt::Block(copy_stmts(alloc, body)?)),
            Stmt::If {
                place,
                condition,
                then,
                otherwise,
            } => {
                let condition = condition.copy(alloc)?;
                let then = copy_inner(alloc, then)?;
                let otherwise = match otherwise {
                    Some(otherwise) => Some(copy_inner(alloc, otherwise)?),
                    None => None,
                };
                Ok(Stmt::If {
                    place: *place,
                    condition,
                    then,
                    otherwise,
                })
            }
            Stmt::While {
                place,
                condition,
                body,
            } => Ok(Stmt::While {
                place: *place,
                condition: condition.copy(alloc)?,
                body: copy_inner(alloc, body)?,
            }),
            Stmt::For {
                place,
                first,
                condition,
                update,
                body,
            } => {
                let first = match first {
                    Some(first) => Some(copy_inner(alloc, first)?),
                    None => None,
                };
                let condition = copy_maybe(alloc, condition)?;
                let update = match update {
                    Some(update) => Some(copy_inner(alloc, update)?),
                    None => None,
                };
                let body = copy_inner(alloc, body)?;
                Ok(Stmt::For {
                    place: *place,
                    first,
                    condition,
                    update,
                    body,
                })
            }
            Stmt::Foreach {
                place,
                variable,
                domain,
                body,
            } => Ok(Stmt::Foreach {
                place: *place,
                variable: *variable,
                domain: domain.copy(alloc)?,
                body: copy_inner(alloc, body)?,
            }),
        }
    }
}

impl TryClone for Field {
    ghost same = { λ a b. view.numbered_field_of a ≡ view.numbered_field_of b };

    fn copy(&self, alloc: Global) -> Result<Field, Memory> {
        Ok(Field {
            modifiers: self.modifiers.to_vec(alloc)?,
            ty: self.ty.copy(alloc)?,
            name: self.name,
        })
    }
}

impl TryClone for Class {
    ghost same = { λ a b. view.numbered_class_of a ≡ view.numbered_class_of b };

    #[tactic(auto, using(crate::proofs::Copies::copies))]
    fn copy(&self, alloc: Global) -> Result<Class, Memory> {
        Ok(Class {
            modifiers: self.modifiers.to_vec(alloc)?,
            fields: copy_all(alloc, &self.fields)?,
        })
    }
}

impl TryClone for Param {
    ghost same = { λ a b. view.numbered_param_of a ≡ view.numbered_param_of b };

    fn copy(&self, alloc: Global) -> Result<Param, Memory> {
        Ok(Param {
            place: self.place,
            ty: self.ty.copy(alloc)?,
        })
    }
}

impl Params {
    #[tactic(auto, using(crate::proofs::Copies::copies))]
    fn copy(&self, alloc: Global) -> Result<Params, Memory>
        ensures { IfOk result (λ p. view.numbered_params_of p ≡ view.numbered_params_of self.now) }
    {
        match self {
            Params::MainArgs => Ok(Params::MainArgs),
            Params::Typed(params) => Ok(Params::Typed(copy_all(alloc, params)?)),
        }
    }
}

impl ResultType {
    fn copy(&self, alloc: Global) -> Result<ResultType, Memory>
        ensures { IfOk result (λ r. view.numbered_result_of r ≡ view.numbered_result_of self.now) }
    {
        match self {
            ResultType::Void => Ok(ResultType::Void),
            ResultType::Typed(ty) => Ok(ResultType::Typed(ty.copy(alloc)?)),
        }
    }
}

impl TryClone for Method {
    ghost same = { λ a b. view.numbered_method_of a ≡ view.numbered_method_of b };

    fn copy(&self, alloc: Global) -> Result<Method, Memory> {
        Ok(Method {
            class: self.class,
            modifiers: self.modifiers.to_vec(alloc)?,
            single: self.single,
            result: self.result.copy(alloc)?,
            place: self.place,
            name: self.name,
            params: self.params.copy(alloc)?,
            body: copy_stmts(alloc, &self.body)?,
            end: self.end,
        })
    }
}

impl ProgramData {
    /// A deep copy.
    #[tactic(auto, using(crate::proofs::Copies::copies))]
    pub fn copy(&self, alloc: Global) -> Result<ProgramData, Memory>
        ensures { IfOk result (λ p. view.program_of p ≡ view.program_of self.now) }
    {
        let classes = copy_all(alloc, &self.classes)?;
        let methods = copy_all(alloc, &self.methods)?;
        let names = copy_all(alloc, &self.names)?;
        let literals = copy_all(alloc, &self.literals)?;
        ProgramData::of(alloc, classes, methods, self.main, names, literals)
    }
}
