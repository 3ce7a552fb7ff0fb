// The type checker for expressions: one bottom-up pass that computes each expression's type and its first type error.
ghost use Rattle.std.specs.Prelude.{◌≡◌, [], map};
ghost use Rattle.std.specs.Option.{option_map};
ghost use Rattle.ti_lang.specs.Program.Scope.{contents_of};
ghost use Rattle.ti_lang.specs.Program.Views.{program_of, expression_of, bound_of, type_use_of, numbered_method_of};
ghost use Rattle.ti_lang.specs.Program.Expressions.{NumberedExp, NumberedExps, MoreExp, numbered_exps, numbered_ranges, place_of_numbered};
ghost use Rattle.ti_lang.specs.Program.Expressions as form;
ghost use Rattle.ti_lang.specs.Typing.Expressions.{operand, operand_type};
ghost use Rattle.ti_lang.specs.Typing.TyRef.{ty_view};
ghost use Rattle.ti_types.specs.Mirrors.Arguments.{parameter_types};
ghost use Rattle.ti_types.specs.Mirrors.Walk.{IsTyped, AreTyped, operands_before, operands_in};
ghost use Rattle.ti_types.specs.Mirrors.Nodes.{member_method};
ghost use Rattle.ti_types.specs.Results.{typed_of, IsTypedExpr, receiver_type};

use crate::arguments::{parameter_type, typed_call};
use crate::nodes::{index, member, point, select};
use crate::operands::OperandsTyping;
use crate::rects::rect;
use crate::typed_expr::{TypedExpr, TypedTarget};
use ti_base::Place;
use ti_lang::program::{Expr, Method, ProgramData, Range, Scope, TypeUse};
use ti_lang::typing::{TyRef, method, method_behind, own_field_type, this_type, variable_type};
use ti_syntax::tree::{BinaryOperator, UnaryOperator};

/// The type checker for the expressions of a program. It doesn't allocate: the types in its results are borrowed from the program.
///
/// Each form of expression has a function of its own, which isn't inlined: so the stack frame of `exp`, which recurses, is small.
#[derive(Clone, Copy)]
pub struct TypeChecker<'a> {
    pub program: &'a ProgramData,
}

impl<'a> TypeChecker<'a> {
    /// The typing result of a list of operands; `method` is the method whose arguments they are, if there is one.
    #[cycle(exp)]
    fn operands(
        &self,
        scope: &'a Scope,
        exprs: &'a [Expr],
        method: Option<&'a Method>,
    ) -> OperandsTyping<'a>
        ensures { AreTyped self.now scope.now (numbered_exps (map expression_of exprs.now))
            (parameter_types (option_map (λ method. numbered_method_of method.now) method.entry)) result }
    {
        let mut found = OperandsTyping::none();
        for i in (0..exprs.len()).rev() {
            let x = &exprs[i];
            let judged = self.exp(scope, x);
            found = found.prepend(x.place(), judged, parameter_type(method, i));
        }
        found
    }

    /// The typing result of a bound or a step of a range, before that of others.
    #[cycle(exp)]
    fn operand_before(
        &self,
        scope: &'a Scope,
        expr: &'a Expr,
        others: OperandsTyping<'a>,
    ) -> OperandsTyping<'a>
        ensures { (rest : NumberedExps) → AreTyped self.now scope.now rest [] others.entry
            → AreTyped self.now scope.now (MoreExp (expression_of expr.now) rest) [] result }
    {
        let judged = self.exp(scope, expr);
        others.prepend(expr.place(), judged, None)
    }

    /// The typing result of the bounds and the step of a range, before that of others.
    #[cycle(exp)]
    fn range(
        &self,
        scope: &'a Scope,
        range: &'a Range,
        others: OperandsTyping<'a>,
    ) -> OperandsTyping<'a>
        ensures { (rest : NumberedExps) → AreTyped self.now scope.now rest [] others.entry
            → AreTyped self.now scope.now (operands_before (bound_of range.now) rest) [] result }
    {
        match range {
            Range::Plain { low, high } => {
                let behind = self.operand_before(scope, high, others);
                self.operand_before(scope, low, behind)
            }
            Range::Stepped { low, high, step } => {
                let last = self.operand_before(scope, step, others);
                let middle = self.operand_before(scope, high, last);
                self.operand_before(scope, low, middle)
            }
        }
    }

    /// The typing result of the bounds and steps of a list of ranges.
    #[cycle(exp)]
    pub(crate) fn ranges(&self, scope: &'a Scope, ranges: &'a [Range]) -> OperandsTyping<'a>
        ensures { AreTyped self.now scope.now
            (operands_in (numbered_ranges (map bound_of ranges.now))) [] result }
    {
        let mut found = OperandsTyping::none();
        for i in (0..ranges.len()).rev() {
            found = self.range(scope, &ranges[i], found);
        }
        found
    }

    /// The method that a member call on a value of type `ty` refers to.
    fn member_method(&self, ty: Option<TyRef<'a>>, name: u32) -> Option<&'a Method>
        ensures { option_map (λ m. numbered_method_of m.now) result ≡ member_method (program_of self.now.program.now)
            (option_map ty_view ty.entry) name }
    {
        match ty {
            Some(ty) => method_behind(self.program, ty, name),
            None => None,
        }
    }

    /// The typing result of an expression: its type, if it has one, and its first type error. It has no precondition: a name that refers
    /// to nothing has no type.
    #[cycle(exp)]
    #[tactic(auto, using(ti_rules::proofs::Lemmas::firsts, ti_lang::proofs::Lemmas::program_bridges))]
    pub fn exp(&self, scope: &'a Scope, expr: &'a Expr) -> TypedExpr<'a>
        ensures { IsTypedExpr (program_of self.now.program.now) (contents_of scope.now) (expression_of expr.now) result }
    {
        match expr {
            Expr::Int(_, _) => TypedExpr::sound(Some(TyRef::Int)),
            Expr::Long(_, _) => TypedExpr::sound(Some(TyRef::Long)),
            Expr::Bool(_, _) => TypedExpr::sound(Some(TyRef::Bool)),
            Expr::Null(_) => TypedExpr::sound(Some(TyRef::Null)),
            Expr::This(_) => TypedExpr::sound(this_type(scope.this)),
            Expr::Variable(_, v) => TypedExpr::sound(variable_type(scope, v)),
            Expr::OwnField(_, field) => TypedExpr::sound(own_field_type(
                self.program,
                scope.this,
                *field,
            )),
            Expr::ThisProc(_) => TypedExpr::sound(Some(TyRef::Int)),
            Expr::NumProcs(_) => TypedExpr::sound(Some(TyRef::Int)),
            Expr::Call {
                place,
                method: number,
                args,
            } => self.call(scope, *place, *number, args),
            Expr::OwnCall {
                place,
                method: number,
                args,
            } => self.call(scope, *place, *number, args),
            Expr::Point(place, parts) => self.point(scope, *place, parts),
            Expr::Rect(place, ranges) => self.rect(scope, *place, ranges),
            Expr::Unary {
                place,
                operator,
                operand,
            } => self.unary(scope, *place, *operator, operand),
            Expr::Binary {
                place,
                operator,
                left,
                right,
            } => {
                let first = self.exp(scope, left);
                self.binary(scope, *place, *operator, first, left.place(), right)
            }
            Expr::Cast { place, to, operand } => self.cast(scope, *place, to, operand),
            Expr::Select {
                place,
                receiver,
                name,
            } => self.select(scope, *place, receiver, *name).whole,
            Expr::Member {
                place,
                receiver,
                name,
                args,
            } => {
                let judged = self.exp(scope, receiver);
                self.member(scope, *place, judged, receiver.place(), *name, args)
            }
            Expr::Index {
                place,
                receiver,
                indices,
            } => {
                let judged = self.exp(scope, receiver);
                self.index(scope, *place, judged, receiver.place(), indices)
                    .whole
            }
        }
    }

    /// The typing result of a call of a static method, or of a method on `this`.
    #[cycle(exp)]
    #[inline(never)]
    fn call(&self, scope: &'a Scope, place: Place, number: u32, args: &'a [Expr]) -> TypedExpr<'a>
        ensures direct { IsTyped self.now scope.now
            (form.Call place number (numbered_exps (map expression_of args.now))) result }
        ensures own { IsTyped self.now scope.now
            (form.OwnCall place number (numbered_exps (map expression_of args.now))) result }
    {
        let m = method(self.program, number);
        let found = self.operands(scope, args, m);
        found.add_to(typed_call(place, m, None, args, found.types))
    }

    /// The typing result of a point literal.
    #[cycle(exp)]
    #[inline(never)]
    fn point(&self, scope: &'a Scope, place: Place, parts: &'a [Expr]) -> TypedExpr<'a>
        ensures { IsTyped self.now scope.now
            (form.Point place (numbered_exps (map expression_of parts.now))) result }
    {
        let found = self.operands(scope, parts, None);
        found.add_to(point(place, parts.len(), found.types))
    }

    /// The typing result of a domain literal.
    #[cycle(exp)]
    #[inline(never)]
    fn rect(&self, scope: &'a Scope, place: Place, ranges: &'a [Range]) -> TypedExpr<'a>
        ensures { IsTyped self.now scope.now
            (form.Rect place (numbered_ranges (map bound_of ranges.now))) result }
    {
        let found = self.ranges(scope, ranges);
        found.add_to(rect(place, ranges.len(), found.types))
    }

    /// The typing result of a unary operation.
    #[cycle(exp)]
    #[inline(never)]
    #[tactic(auto, using(ti_rules::proofs::Lemmas::firsts))]
    fn unary(
        &self,
        scope: &'a Scope,
        place: Place,
        operator: UnaryOperator,
        operand: &'a Expr,
    ) -> TypedExpr<'a>
        ensures { IsTyped self.now scope.now
            (form.Unary place operator (expression_of operand.now)) result }
    {
        let judged = self.exp(scope, operand);
        judged.unary(operand.place(), place, operator)
    }

    /// The typing result of a binary operation, given that of its left operand, at `at`.
    #[cycle(exp)]
    #[inline(never)]
    fn binary(
        &self,
        scope: &'a Scope,
        place: Place,
        operator: BinaryOperator,
        first: TypedExpr<'a>,
        at: Place,
        right: &'a Expr,
    ) -> TypedExpr<'a>
        ensures { (e : NumberedExp) → IsTyped self.now scope.now e first.entry
            → at ≡ place_of_numbered e → IsTyped self.now scope.now
            (form.Binary place operator e (expression_of right.now)) result }
    {
        let second = self.exp(scope, right);
        let at_right = right.place();
        first.binary(at, second, at_right, place, operator)
    }

    /// The typing result of a cast.
    #[cycle(exp)]
    #[inline(never)]
    #[tactic(auto, using(ti_rules::proofs::Lemmas::firsts))]
    fn cast(
        &self,
        scope: &'a Scope,
        place: Place,
        to: &'a TypeUse,
        operand: &'a Expr,
    ) -> TypedExpr<'a>
        ensures { IsTyped self.now scope.now
            (form.Cast place (type_use_of to.now) (expression_of operand.now)) result }
    {
        let judged = self.exp(scope, operand);
        judged.cast(operand.place(), place, to)
    }

    /// The typing result of a field selection, and the type of its receiver.
    #[cycle(exp)]
    #[inline(never)]
    #[tactic(auto, using(ti_rules::proofs::Lemmas::firsts))]
    fn select(
        &self,
        scope: &'a Scope,
        place: Place,
        receiver: &'a Expr,
        name: u32,
    ) -> TypedTarget<'a>
        ensures whole { IsTyped self.now scope.now
            (form.Select place (expression_of receiver.now) name) result.whole }
        ensures receiver { option_map ty_view result.receiver
            ≡ operand_type (program_of self.now.program.now) (contents_of scope.now)
            (expression_of receiver.now) }
    {
        let judged = self.exp(scope, receiver);
        let t = judged.operand();
        let field = select(self.program, place, t, name);
        TypedTarget {
            whole: judged.add_to(receiver.place(), field),
            receiver: t,
        }
    }

    /// The typing result of a member call, given that of its receiver, at `at`.
    #[cycle(exp)]
    #[inline(never)]
    fn member(
        &self,
        scope: &'a Scope,
        place: Place,
        judged: TypedExpr<'a>,
        at: Place,
        name: u32,
        args: &'a [Expr],
    ) -> TypedExpr<'a>
        ensures { (e : NumberedExp) → IsTyped self.now scope.now e judged.entry
            → at ≡ place_of_numbered e → IsTyped self.now scope.now
            (form.Member place e name (numbered_exps (map expression_of args.now))) result }
    {
        let t = judged.operand();
        let m = self.member_method(t, name);
        let found = self.operands(scope, args, m);
        let own = member(self.program, place, t, name, m, args, found.types);
        judged.with(at, found, own)
    }

    /// The typing result of an element or a coordinate, given that of its receiver, at `at`.
    #[cycle(exp)]
    #[inline(never)]
    fn index(
        &self,
        scope: &'a Scope,
        place: Place,
        judged: TypedExpr<'a>,
        at: Place,
        indices: &'a [Expr],
    ) -> TypedTarget<'a>
        ensures whole { (e : NumberedExp) → IsTyped self.now scope.now e judged.entry
            → at ≡ place_of_numbered e → IsTyped self.now scope.now
            (form.Index place e (numbered_exps (map expression_of indices.now))) result.whole }
        ensures receiver { option_map ty_view result.receiver ≡ operand (typed_of judged.entry) }
    {
        let t = judged.operand();
        let found = self.operands(scope, indices, None);
        let own = index(place, indices.len(), t, found.types);
        TypedTarget {
            whole: judged.with(at, found, own),
            receiver: t,
        }
    }

    /// The typing result of an expression as the target of an assignment: that of the expression, and the type of its receiver.
    #[tactic(auto, using(ti_lang::proofs::Lemmas::program_bridges))]
    pub fn target(&self, scope: &'a Scope, expr: &'a Expr) -> TypedTarget<'a>
        ensures whole { IsTypedExpr (program_of self.now.program.now) (contents_of scope.now)
            (expression_of expr.now) result.whole }
        ensures receiver { option_map ty_view result.receiver
            ≡ receiver_type (program_of self.now.program.now) (contents_of scope.now)
            (expression_of expr.now) }
    {
        match expr {
            Expr::Select {
                place,
                receiver,
                name,
            } => self.select(scope, *place, receiver, *name),
            Expr::Index {
                place,
                receiver,
                indices,
            } => {
                let judged = self.exp(scope, receiver);
                self.index(scope, *place, judged, receiver.place(), indices)
            }
            _ => TypedTarget {
                whole: self.exp(scope, expr),
                receiver: None,
            },
        }
    }
}
