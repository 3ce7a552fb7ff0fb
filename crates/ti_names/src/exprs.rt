// Resolution of expressions: names become numbers. A name that can't be resolved becomes a placeholder (as `null`, or number 0), since
// checks.rt reports it.

ghost use Rattle.std.specs.Prelude.{◌≡◌, map, IfOk};
ghost use Rattle.ti_syntax.specs.Trees.Views.{exp_of, type_tree_of, range_of, dims_of, init_of, maybe_of};
ghost use Rattle.ti_syntax.specs.Trees.Expressions.{exps};
ghost use Rattle.ti_syntax.specs.Trees.Expressions as t;
ghost use Rattle.ti_syntax.specs.Trees.Statements as s;
ghost use Rattle.ti_lang.specs.Program.Views.{expression_of, bound_of, extent_of, initial_of};
ghost use Rattle.ti_lang.specs.Program.Expressions.{numbered_exps};
ghost use Rattle.std.specs.Option.{unwrap_or};
ghost use Rattle.ti_lang.specs.Members.{class_named};
ghost use Rattle.ti_lang.specs.Scopes.{static_method_named};
ghost use Rattle.ti_names.specs.Mirrors.Numbered.{method_call, static_call, number_exp, number_exps, number_range, number_maybe, number_dims, number_init};
ghost use Rattle.ti_names.specs.Seen.{site_of, text_of_tables};

use crate::context::NameContext;
use ti_base::{Memory, Place};
use ti_lang::program::{Dims, Expr, Init, Range};
use ti_syntax::tree;

/// A static call of `method`; a placeholder if there is none.
#[tactic(auto, using(ti_lang::proofs::Lemmas::program_bridges))]
fn static_call(place: Place, method: Option<u32>, args: Vec<Expr>) -> Expr
    ensures { expression_of result ≡ static_call place method (numbered_exps (map expression_of args.items)) }
{
    match method {
        Some(method) => Expr::Call {
            place,
            method,
            args,
        },
        None => Expr::Null(place),
    }
}

impl<'t, 'a> NameContext<'t, 'a> {
    fn name(&self, place: Place, name: &[u8]) -> Result<Expr, Memory>
        ensures { IfOk result (λ y. expression_of y ≡ number_exp (site_of self.now) (t.Name place name.now)) }
    {
        match self.variable(name) {
            Some(variable) => Ok(Expr::Variable(place, variable.copy(self.alloc)?)),
            None => match self.own_field(name) {
                Some(field) => Ok(Expr::OwnField(place, field)),
                None => Ok(Expr::Null(place)),
            },
        }
    }

    /// A call of a method of the enclosing class; a placeholder if there is none.
    #[tactic(auto, using(ti_lang::proofs::Lemmas::program_bridges))]
    fn method_call(&self, place: Place, method: Option<u32>, args: Vec<Expr>) -> Expr
        ensures { expression_of result ≡ method_call (text_of_tables self.now.tables.now) place method (numbered_exps (map expression_of args.items)) }
    {
        match method {
            Some(method) => {
                if self.tables.is_static(method) {
                    Expr::Call {
                        place,
                        method,
                        args,
                    }
                } else {
                    Expr::OwnCall {
                        place,
                        method,
                        args,
                    }
                }
            }
            None => Expr::Null(place),
        }
    }

    #[cycle(number_expr)]
    #[tactic(auto, using(ti_lang::proofs::Lemmas::program_bridges, crate::proofs::Lists::lists))]
    fn call(&self, place: Place, name: &[u8], args: &[tree::Expr]) -> Result<Expr, Memory>
        ensures { IfOk result (λ y. expression_of y ≡ number_exp (site_of self.now) (t.call place name.now (map exp_of args.now))) }
    {
        let method = self.own_method(name);
        let args = self.exps(args)?;
        Ok(self.method_call(place, method, args))
    }

    #[cycle(number_expr)]
    #[tactic(auto, using(ti_lang::proofs::Lemmas::program_bridges))]
    fn select(&self, place: Place, expr: &tree::Expr, name: &[u8]) -> Result<Expr, Memory>
        ensures { IfOk result (λ y. expression_of y ≡ number_exp (site_of self.now) (t.Select place (exp_of expr.now) name.now)) }
    {
        if self.class_before_dot(expr).is_some() {
            return Ok(Expr::Null(place));
        }
        Ok(Expr::Select {
            place,
            receiver: self.boxed_expr(expr)?,
            name: self.tables.name(name),
        })
    }

    /// A static call by class name.
    #[cycle(number_expr)]
    #[tactic(auto, using(crate::proofs::Lists::lists))]
    fn class_call(
        &self,
        place: Place,
        class: u32,
        name: &[u8],
        args: &[tree::Expr],
    ) -> Result<Expr, Memory>
        ensures { IfOk result (λ y. expression_of y ≡ static_call place (static_method_named (site_of self.now) class name.now)
            (number_exps (site_of self.now) (exps (map exp_of args.now)))) }
    {
        let method = self.static_method(class, name);
        let args = self.exps(args)?;
        Ok(static_call(place, method, args))
    }

    #[cycle(number_expr)]
    fn boxed_expr(&self, expr: &tree::Expr) -> Result<Box<Expr>, Memory>
        ensures { IfOk result (λ y. expression_of y.value ≡ number_exp (site_of self.now) (exp_of expr.now)) }
    {
        let expr = self.exp(expr)?;
        Ok(Box::new(self.alloc, expr)?)
    }

    #[cycle(number_expr)]
    fn exps(&self, exprs: &[tree::Expr]) -> Result<Vec<Expr>, Memory>
        ensures { IfOk result (λ ys. map expression_of ys.items ≡ map (number_exp (site_of self.now)) (map exp_of exprs.now)) }
    {
        let mut ys = Vec::with_capacity(self.alloc, exprs.len())?;
        for expr in exprs {
            ys.push(self.exp(expr)?)?;
        }
        Ok(ys)
    }

    #[cycle(number_expr)]
    fn range(&self, range: &tree::Range) -> Result<Range, Memory>
        ensures { IfOk result (λ r. bound_of r ≡ number_range (site_of self.now) (range_of range.now)) }
    {
        match range {
            tree::Range::Plain { low, high } => Ok(Range::Plain {
                low: self.exp(low)?,
                high: self.exp(high)?,
            }),
            tree::Range::Stepped { low, high, step } => Ok(Range::Stepped {
                low: self.exp(low)?,
                high: self.exp(high)?,
                step: self.exp(step)?,
            }),
        }
    }

    /// Resolves ranges.
    #[cycle(number_expr)]
    pub fn ranges(&self, ranges: &[tree::Range]) -> Result<Vec<Range>, Memory>
        ensures { IfOk result (λ rs. map bound_of rs.items ≡ map (number_range (site_of self.now)) (map range_of ranges.now)) }
    {
        let mut found = Vec::with_capacity(self.alloc, ranges.len())?;
        for range in ranges {
            found.push(self.range(range)?)?;
        }
        Ok(found)
    }

    /// Resolves an expression.
    #[cycle(number_expr)]
    #[tactic(auto, using(ti_syntax::proofs::Lemmas::bridges, ti_lang::proofs::Lemmas::program_bridges, crate::proofs::Lists::lists))]
    pub fn exp(&self, expr: &tree::Expr) -> Result<Expr, Memory>
        ensures { IfOk result (λ y. expression_of y ≡ number_exp (site_of self.now) (exp_of expr.now)) }
    {
        match expr {
            tree::Expr::Int(place, number) => Ok(Expr::Int(*place, *number)),
            tree::Expr::Long(place, number) => Ok(Expr::Long(*place, *number)),
            tree::Expr::Bool(place, truth) => Ok(Expr::Bool(*place, *truth)),
            tree::Expr::Null(place) => Ok(Expr::Null(*place)),
            tree::Expr::This(place) => Ok(Expr::This(*place)),
            tree::Expr::Name(place, name) => self.name(*place, name.as_bytes()),
            tree::Expr::Call { place, name, args } => self.call(*place, name.as_bytes(), args),
            tree::Expr::ThisProc(place) => Ok(Expr::ThisProc(*place)),
            tree::Expr::NumProcs(place) => Ok(Expr::NumProcs(*place)),
            tree::Expr::Point(place, parts) => Ok(Expr::Point(*place, self.exps(parts)?)),
            tree::Expr::Rect(place, ranges) => Ok(Expr::Rect(*place, self.ranges(ranges)?)),
            tree::Expr::Unary {
                place,
                operator,
                operand,
            } => Ok(Expr::Unary {
                place: *place,
                operator: *operator,
                operand: self.boxed_expr(operand)?,
            }),
            tree::Expr::Binary {
                place,
                operator,
                left,
                right,
            } => Ok(Expr::Binary {
                place: *place,
                operator: *operator,
                left: self.boxed_expr(left)?,
                right: self.boxed_expr(right)?,
            }),
            tree::Expr::Cast { place, to, operand } => Ok(Expr::Cast {
                place: *place,
                to: Box::new(self.alloc, self.type_use(to)?)?,
                operand: self.boxed_expr(operand)?,
            }),
            tree::Expr::Select {
                place,
                receiver,
                name,
            } => self.select(*place, receiver, name.as_bytes()),
            tree::Expr::Member {
                place,
                receiver,
                name,
                args,
            } => match self.class_before_dot(receiver) {
                Some(class) => self.class_call(*place, class, name.as_bytes(), args),
                None => Ok(Expr::Member {
                    place: *place,
                    receiver: self.boxed_expr(receiver)?,
                    name: self.tables.name(name.as_bytes()),
                    args: self.exps(args)?,
                }),
            },
            tree::Expr::Index {
                place,
                receiver,
                indices,
            } => Ok(Expr::Index {
                place: *place,
                receiver: self.boxed_expr(receiver)?,
                indices: self.exps(indices)?,
            }),
        }
    }

    /// Resolves two expressions.
    pub fn expr_pair(&self, left: &tree::Expr, right: &tree::Expr) -> Result<(Expr, Expr), Memory>
        ensures first { IfOk result (λ p. expression_of p.0 ≡ number_exp (site_of self.now) (exp_of left.now)) }
        ensures second { IfOk result (λ p. expression_of p.1 ≡ number_exp (site_of self.now) (exp_of right.now)) }
    {
        let left = self.exp(left)?;
        Ok((left, self.exp(right)?))
    }

    /// Resolves an optional expression.
    pub fn maybe(&self, expr: &Option<tree::Expr>) -> Result<Option<Expr>, Memory>
        ensures { IfOk result (λ y. maybe_of expression_of y ≡ number_maybe (site_of self.now) (maybe_of exp_of expr.now)) }
    {
        match expr {
            Some(expr) => Ok(Some(self.exp(expr)?)),
            None => Ok(None),
        }
    }

    fn dims(&self, dims: &tree::Dims) -> Result<Dims, Memory>
        ensures { IfOk result (λ d. extent_of d ≡ number_dims (site_of self.now) (dims_of dims.now)) }
    {
        match dims {
            tree::Dims::Domain(x) => Ok(Dims::Domain(self.exp(x)?)),
            tree::Dims::Ranges(ranges) => Ok(Dims::Ranges(self.ranges(ranges)?)),
        }
    }

    /// The number of a class; 0 as a placeholder if there is none.
    fn class_number(&self, name: &[u8]) -> u32
        ensures { result ≡ unwrap_or (class_named (text_of_tables self.now.tables.now) name.now) 0 }
    {
        match self.tables.class(name) {
            Some(class) => class,
            None => 0,
        }
    }

    fn new_grid(
        &self,
        place: Place,
        region: &Option<tree::Expr>,
        element: &tree::TypeName,
        bracket: Place,
        dims: &tree::Dims,
    ) -> Result<Init, Memory>
        ensures { IfOk result (λ v. initial_of v ≡ number_init (site_of self.now)
            (s.NewGrid place (maybe_of exp_of region.now) (type_tree_of element.now) bracket (dims_of dims.now))) }
    {
        Ok(Init::NewGrid {
            place,
            region: self.maybe(region)?,
            element: self.type_use(element)?,
            bracket,
            dims: self.dims(dims)?,
        })
    }

    /// Resolves an initializer.
    pub fn init(&self, value: &tree::Init) -> Result<Init, Memory>
        ensures { IfOk result (λ v. initial_of v ≡ number_init (site_of self.now) (init_of value.now)) }
    {
        match value {
            tree::Init::Value(x) => Ok(Init::Value(self.exp(x)?)),
            tree::Init::NewRegion(place) => Ok(Init::NewRegion(*place)),
            tree::Init::NewObject {
                place,
                region,
                name_place: _,
                name,
            } => Ok(Init::NewObject {
                place: *place,
                region: self.maybe(region)?,
                class: self.class_number(name.as_bytes()),
            }),
            tree::Init::NewGrid {
                place,
                region,
                element,
                bracket,
                dims,
            } => self.new_grid(*place, region, element, *bracket, dims),
            tree::Init::Broadcast { place, value, root } => {
                let (value, root) = self.expr_pair(value, root)?;
                Ok(Init::Broadcast {
                    place: *place,
                    value,
                    root,
                })
            }
        }
    }
}
