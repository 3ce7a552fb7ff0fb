// Diagnostics: the first broken naming rule in types, expressions and initializers. Resolution itself (exprs.rt) reports nothing.

ghost use Rattle.std.specs.Prelude.{◌≡◌, ◌&&◌, ◌∷◌, [], if◌then◌else◌, map, is_none, is_some};
ghost use Rattle.ti_syntax.specs.Trees.Views.{exp_of, range_of, type_tree_of, dims_of, init_of, maybe_of};
ghost use Rattle.ti_syntax.specs.Trees.Expressions.{exps, ranges_tree};
ghost use Rattle.ti_lang.specs.Scopes.{variable_named, own_field_named, own_method_named, class_before_dot};
ghost use Rattle.ti_lang.specs.Nodes.{node, ClassUse, VariableName, base_nodes, type_nodes, exp_nodes, exps_nodes, range_nodes, ranges_nodes, maybe_nodes, dims_nodes, init_nodes};
ghost use Rattle.ti_rules.specs.declared.rule.Rule.TheVariants.{N1};
ghost use Rattle.ti_rules.specs.Refusals.{refused_if as refused_where};
ghost use Rattle.ti_rules.specs.Mirrors.First.{earliest};
ghost use Rattle.ti_rules.specs.BrokenNames.{lacks_method};
ghost use Rattle.ti_rules.specs.MainForm.{is_another};
ghost use Rattle.ti_names.specs.Found.{first_in};
ghost use Rattle.ti_names.specs.Seen.{site_of};

use crate::context::NameContext;
use ti_base::Place;
use ti_rules::{Refusal, Rule, earlier_of, refused_if};
use ti_syntax::{Spelled, tree};

/// The limit on the number of variables in scope.
const MOST_VARIABLES: usize = 200;

/// Whether a lookup found nothing or another number: then the declaration with this number isn't the first of its name.
pub fn is_another(found: Option<u32>, number: u32) -> bool
    ensures { result ≡ is_another found number }
{
    match found {
        Some(found) => found != number,
        None => true,
    }
}

impl<'t, 'a> NameContext<'t, 'a> {
    // ---- names

    /// The use of a class name. Error: N1 if there is no such class.
    #[tactic(auto, using(crate::proofs::Firsts::in_nodes))]
    pub fn check_class_use(&self, place: Place, name: &Spelled) -> Option<Refusal>
        ensures { result ≡ first_in (node (site_of self.now) (ClassUse place name.now) ∷ []) }
    {
        let class = self.tables.class(name.as_bytes());
        refused_if(class.is_none(), Rule::N1, place)
    }

    fn check_name(&self, place: Place, name: &[u8]) -> Option<Refusal>
        ensures { result ≡ earliest (refused_where (is_none (variable_named (site_of self.now) name.now) && is_none
            (own_field_named (site_of self.now) name.now)) N1 place) }
    {
        let unknown = self.variable(name).is_none() && self.own_field(name).is_none();
        refused_if(unknown, Rule::N1, place)
    }

    fn check_method_use(&self, place: Place, name: &[u8]) -> Option<Refusal>
        ensures { result ≡ earliest (refused_where (is_none (own_method_named (site_of self.now) name.now)) N1 place) }
    {
        let method = self.own_method(name);
        refused_if(method.is_none(), Rule::N1, place)
    }

    /// A static call: the method name after the class name. Error: N1 if the class has no such static method.
    fn check_static(&self, place: Place, class: Option<u32>, name: &[u8]) -> Option<Refusal>
        ensures { result ≡ earliest (refused_where (lacks_method (site_of self.now) class name.now) N1 place) }
    {
        let lacks = match class {
            Some(class) => self.static_method(class, name).is_none(),
            None => false,
        };
        refused_if(lacks, Rule::N1, place)
    }

    /// The declaration of a variable. Errors: N2 if the name is in scope already, N4 if too many variables are in scope.
    #[tactic(auto, using(crate::proofs::Firsts::in_nodes, crate::proofs::Lists::scopes, ti_rules::proofs::Lemmas::firsts))]
    pub fn check_variable(&self, place: Place, name: &Spelled) -> Option<Refusal>
        ensures { result ≡ first_in (node (site_of self.now) (VariableName place name.now) ∷ []) }
    {
        let is_known = self.variable(name.as_bytes()).is_some();
        let is_full = MOST_VARIABLES <= self.scope.len();
        earlier_of(
            refused_if(is_known, Rule::N2, place),
            refused_if(is_full, Rule::N4, place),
        )
    }

    // ---- types

    #[tactic(auto, using(crate::proofs::Firsts::in_nodes))]
    fn check_base(&self, base: &tree::Base) -> Option<Refusal>
        ensures { result ≡ first_in (base_nodes (site_of self.now) base.now) }
    {
        match base {
            tree::Base::Int(_)
            | tree::Base::Long(_)
            | tree::Base::Boolean(_)
            | tree::Base::Point(_, _)
            | tree::Base::RectDomain(_, _)
            | tree::Base::Domain(_, _)
            | tree::Base::SharedRegion(_) => None,
            tree::Base::Named(place, name) => self.check_class_use(*place, name),
        }
    }

    /// The class name in a type.
    pub fn check_type(&self, ty: &tree::TypeName) -> Option<Refusal>
        ensures { result ≡ first_in (type_nodes (site_of self.now) (type_tree_of ty.now)) }
    {
        self.check_base(&ty.base)
    }

    // ---- expressions

    #[cycle(check_expr)]
    #[tactic(auto, using(crate::proofs::Firsts::none_sooner))]
    fn check_exps(&self, exprs: &[tree::Expr]) -> Option<Refusal>
        ensures { result ≡ first_in (exps_nodes (site_of self.now) (exps (map exp_of exprs.now))) }
    {
        let mut found = None;
        for expr in exprs {
            found = earlier_of(found, self.check_exp(expr));
        }
        found
    }

    #[cycle(check_expr)]
    #[tactic(auto, using(crate::proofs::Firsts::in_nodes))]
    fn check_range(&self, range: &tree::Range) -> Option<Refusal>
        ensures { result ≡ first_in (range_nodes (site_of self.now) (range_of range.now)) }
    {
        match range {
            tree::Range::Plain { low, high } => earlier_of(
                self.check_exp(low),
                self.check_exp(high),
            ),
            tree::Range::Stepped { low, high, step } => {
                let bounds = earlier_of(self.check_exp(low), self.check_exp(high));
                earlier_of(bounds, self.check_exp(step))
            }
        }
    }

    #[cycle(check_expr)]
    #[tactic(auto, using(crate::proofs::Firsts::none_sooner))]
    fn check_ranges(&self, ranges: &[tree::Range]) -> Option<Refusal>
        ensures { result ≡ first_in (ranges_nodes (site_of self.now) (ranges_tree (map range_of ranges.now))) }
    {
        let mut found = None;
        for range in ranges {
            found = earlier_of(found, self.check_range(range));
        }
        found
    }

    /// The expression before a `.`; a class name there is no expression and isn't checked.
    #[cycle(check_expr)]
    #[tactic(auto, using(crate::proofs::Firsts::in_nodes))]
    fn check_receiver(&self, expr: &tree::Expr) -> Option<Refusal>
        ensures { result ≡ first_in (if is_some (class_before_dot (site_of self.now) (exp_of expr.now)) then [] else exp_nodes
            (site_of self.now) (exp_of expr.now)) }
    {
        if self.class_before_dot(expr).is_some() {
            None
        } else {
            self.check_exp(expr)
        }
    }

    /// The names in an expression.
    #[cycle(check_expr)]
    #[tactic(auto, using(ti_syntax::proofs::Lemmas::bridges, crate::proofs::Firsts::in_nodes, crate::proofs::Firsts::in_expressions))]
    pub fn check_exp(&self, expr: &tree::Expr) -> Option<Refusal>
        ensures { result ≡ first_in (exp_nodes (site_of self.now) (exp_of expr.now)) }
    {
        match expr {
            tree::Expr::Int(_, _)
            | tree::Expr::Long(_, _)
            | tree::Expr::Bool(_, _)
            | tree::Expr::Null(_)
            | tree::Expr::ThisProc(_)
            | tree::Expr::NumProcs(_) => None,
            tree::Expr::This(place) => refused_if(self.is_static, Rule::N1, *place),
            tree::Expr::Name(place, name) => self.check_name(*place, name.as_bytes()),
            tree::Expr::Call { place, name, args } => {
                let named = self.check_method_use(*place, name.as_bytes());
                earlier_of(named, self.check_exps(args))
            }
            tree::Expr::Point(_, parts) => self.check_exps(parts),
            tree::Expr::Rect(_, ranges) => self.check_ranges(ranges),
            tree::Expr::Unary { operand, .. } => self.check_exp(operand),
            tree::Expr::Binary { left, right, .. } => {
                earlier_of(self.check_exp(left), self.check_exp(right))
            }
            tree::Expr::Cast { to, operand, .. } => {
                earlier_of(self.check_type(to), self.check_exp(operand))
            }
            tree::Expr::Select {
                place,
                receiver,
                ..
            } => {
                let class = self.class_before_dot(receiver);
                let named = refused_if(class.is_some(), Rule::N1, *place);
                earlier_of(named, self.check_receiver(receiver))
            }
            tree::Expr::Member {
                place,
                receiver,
                name,
                args,
            } => {
                let class = self.class_before_dot(receiver);
                let named = self.check_static(*place, class, name.as_bytes());
                let called = earlier_of(named, self.check_receiver(receiver));
                earlier_of(called, self.check_exps(args))
            }
            tree::Expr::Index {
                receiver,
                indices,
                ..
            } => earlier_of(self.check_exp(receiver), self.check_exps(indices)),
        }
    }

    /// The names in an optional expression.
    #[tactic(auto, using(crate::proofs::Firsts::in_nodes))]
    pub fn check_maybe(&self, expr: &Option<tree::Expr>) -> Option<Refusal>
        ensures { result ≡ first_in (maybe_nodes (site_of self.now) (maybe_of exp_of expr.now)) }
    {
        match expr {
            Some(expr) => self.check_exp(expr),
            None => None,
        }
    }

    fn check_dims(&self, dims: &tree::Dims) -> Option<Refusal>
        ensures { result ≡ first_in (dims_nodes (site_of self.now) (dims_of dims.now)) }
    {
        match dims {
            tree::Dims::Domain(x) => self.check_exp(x),
            tree::Dims::Ranges(ranges) => self.check_ranges(ranges),
        }
    }

    /// The names in an initializer.
    #[tactic(auto, using(crate::proofs::Firsts::in_nodes))]
    pub fn check_init(&self, value: &tree::Init) -> Option<Refusal>
        ensures { result ≡ first_in (init_nodes (site_of self.now) (init_of value.now)) }
    {
        match value {
            tree::Init::Value(x) => self.check_exp(x),
            tree::Init::NewRegion(_) => None,
            tree::Init::NewObject {
                region,
                name_place,
                name,
                ..
            } => earlier_of(
                self.check_maybe(region),
                self.check_class_use(*name_place, name),
            ),
            tree::Init::NewGrid {
                region,
                element,
                dims,
                ..
            } => {
                let head = earlier_of(self.check_maybe(region), self.check_type(element));
                earlier_of(head, self.check_dims(dims))
            }
            tree::Init::Broadcast { value, root, .. } => {
                earlier_of(self.check_exp(value), self.check_exp(root))
            }
        }
    }
}
