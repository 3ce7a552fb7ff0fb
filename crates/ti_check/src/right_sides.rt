// Typing of initializers.
ghost use Rattle.std.specs.Prelude.{◌≡◌, ◌++◌, map, is_some, false};
ghost use Rattle.std.specs.Option.{option_map, option_map_or, option_and_then};
ghost use Rattle.ti_syntax.specs.Trees.Views.{maybe_of};
ghost use Rattle.ti_lang.specs.Program.Statements as st;
ghost use Rattle.ti_lang.specs.Program.Views.{expression_of, type_use_of, extent_of, initial_of};
ghost use Rattle.ti_lang.specs.Typing.Expressions.{and_then_both};
ghost use Rattle.ti_lang.specs.Typing.TyRef.{ty_view};
ghost use Rattle.ti_rules.specs.Mirrors.First.{earliest, earlier_of as sooner_of};
ghost use Rattle.ti_rules.specs.InitialTypes.{can_broadcast, broadcast_type, region_type, is_region_type, object_type, grid_over, dims_spread, new_grid_type, initial_type};
ghost use Rattle.ti_rules.specs.Broken.Refused.{judged, both_judged, operand_refusal as mistaken_at};
ghost use Rattle.ti_rules.specs.Broken.RightSides.{region_refusals, dims_refusals, one_dim_spread, initial_refusals};
ghost use Rattle.ti_types.specs.Results.{LiteralTypes, literal_of};
ghost use Rattle.ti_check.specs.Mirrors.RightSides.{is_rect_type, extent_summary, summary_grid_type, summary_fits_other_dims};
ghost use Rattle.ti_check.specs.Mirrors.Contexts.{program_at, scope_at};

use crate::context::CheckContext;
use crate::values::TypedValue;
use ti_base::Place;
use ti_lang::program::{Dims, Expr, Init, TypeUse};
use ti_lang::typing::TyRef;
use ti_rules::{Refusal, earlier_of};
use ti_single::deref_ranges;
use ti_types::{Literal, operand_refusal, type_words};

// ---- broadcasts

fn can_broadcast(ty: TyRef) -> bool
    ensures { result ≡ can_broadcast (ty_view ty.entry) }
{
    match ty {
        TyRef::Int | TyRef::Long | TyRef::Bool | TyRef::Pt(_) | TyRef::Rc(_) => true,
        _ => ty.is_reference(),
    }
}

// The type of a broadcast, if a value of type `ty` can be broadcast from a root of type `root`.
fn broadcast_type<'a>(ty: TyRef<'a>, root: TyRef<'a>) -> Option<TyRef<'a>>
    ensures { option_map ty_view result ≡ broadcast_type (ty_view ty.entry) (ty_view root.entry) }
{
    if can_broadcast(ty) && matches!(root, TyRef::Int) {
        Some(ty.with_local(false))
    } else {
        None
    }
}

fn maybe_broadcast<'a>(ty: Option<TyRef<'a>>, root: Option<TyRef<'a>>) -> Option<TyRef<'a>>
    ensures { option_map ty_view result ≡ and_then_both (option_map ty_view ty.entry) (option_map ty_view root.entry) broadcast_type }
{
    match (ty, root) {
        (Some(ty), Some(root)) => broadcast_type(ty, root),
        _ => None,
    }
}

#[tactic(auto, unfolding(ti_rules::specs::Mirrors::First::earliest))]
fn broadcast_refusal<'a>(
    place: Place,
    ty: Option<TyRef<'a>>,
    root: Option<TyRef<'a>>,
) -> Option<Refusal>
    ensures { result ≡ earliest (both_judged (option_map ty_view ty.entry) (option_map ty_view root.entry)
        (λ ty r. mistaken_at place (is_some (broadcast_type ty r)) false)) }
{
    match (ty, root) {
        (Some(ty), Some(root)) => operand_refusal(place, broadcast_type(ty, root).is_some(), false),
        _ => None,
    }
}

// ---- objects

fn is_region_type(ty: TyRef) -> bool
    ensures { result ≡ is_region_type (ty_view ty.entry) }
{
    matches!(ty, TyRef::Region)
}

// The type of a new object of a class, if `region` is the type of a region.
fn object_type<'a>(class: u32, region: Option<TyRef<'a>>) -> Option<TyRef<'a>>
    ensures { option_map ty_view result ≡ option_and_then (object_type class) (option_map ty_view region.entry) }
{
    match region {
        Some(region) => {
            if is_region_type(region) {
                Some(TyRef::Class { class, local: true })
            } else {
                None
            }
        }
        None => None,
    }
}

#[tactic(auto, unfolding(ti_rules::specs::Mirrors::First::earliest))]
fn region_mistaken(place: Place, region: Option<TyRef>) -> Option<Refusal>
    ensures { result ≡ earliest (judged (option_map ty_view region.entry) (λ r. mistaken_at place (is_region_type r) false)) }
{
    match region {
        Some(region) => operand_refusal(place, is_region_type(region), false),
        None => None,
    }
}

// ---- grids

// The typing result of a new grid's domain.
#[derive(Clone, Copy)]
struct GridExtent<'a> {
    /// The first type error in it.
    first: Option<Refusal>,
    /// Its type; None if a part of it has no type.
    types: Option<Literal<'a>>,
}

fn domain_literal<'a>(ty: Option<TyRef<'a>>) -> Option<Literal<'a>>
    ensures { option_map literal_of result ≡ option_map (λ ty. record { type = Some ty; fits_other_dims = is_rect_type ty }) (option_map ty_view ty.entry) }
{
    match ty {
        Some(ty) => Some(Literal {
            ty: Some(ty),
            fits_other_dims: matches!(ty, TyRef::Rc(_)),
        }),
        None => None,
    }
}

fn grid_over<'a>(element: &'a TypeUse, domain: Option<TyRef<'a>>) -> Option<TyRef<'a>>
    ensures { option_map ty_view result ≡ option_and_then (grid_over (type_use_of element.now).type) (option_map ty_view domain.entry) }
{
    match domain {
        Some(TyRef::Rc(dim)) => Some(TyRef::Grid {
            elem: &element.ty,
            any_dim: false,
            dim,
            local: true,
        }),
        _ => None,
    }
}

fn grid_type<'a>(element: &'a TypeUse, region: TyRef<'a>, spread: Literal<'a>) -> Option<TyRef<'a>>
    ensures { option_map ty_view result ≡ summary_grid_type (type_use_of element.now).type (ty_view region.entry) (literal_of spread.entry) }
{
    if is_region_type(region) {
        grid_over(element, spread.ty)
    } else {
        None
    }
}

fn maybe_grid<'a>(
    element: &'a TypeUse,
    region: Option<TyRef<'a>>,
    spread: Option<Literal<'a>>,
) -> Option<TyRef<'a>>
    ensures { option_map ty_view result ≡ and_then_both (option_map ty_view region.entry) (option_map literal_of spread.entry)
        (summary_grid_type (type_use_of element.now).type) }
{
    match (region, spread) {
        (Some(region), Some(spread)) => grid_type(element, region, spread),
        _ => None,
    }
}

fn grid_near(region: TyRef, spread: Literal) -> bool
    ensures { result ≡ summary_fits_other_dims (ty_view region.entry) (literal_of spread.entry) }
{
    is_region_type(region) && spread.fits_other_dims
}

#[tactic(auto, unfolding(ti_rules::specs::Mirrors::First::earliest))]
fn grid_refusal<'a>(
    place: Place,
    element: &'a TypeUse,
    region: Option<TyRef<'a>>,
    spread: Option<Literal<'a>>,
) -> Option<Refusal>
    ensures { result ≡ earliest (both_judged (option_map ty_view region.entry) (option_map literal_of spread.entry)
        (λ r (l : LiteralTypes). mistaken_at place (is_some (summary_grid_type (type_use_of element.now).type r l)) (summary_fits_other_dims r l))) }
{
    match (region, spread) {
        (Some(region), Some(spread)) => {
            let taken = grid_type(element, region, spread).is_some();
            operand_refusal(place, taken, grid_near(region, spread))
        }
        _ => None,
    }
}

// ---- initializers

impl<'a> CheckContext<'a> {
    /// The region of `new`. If none is given, it counts as a valid one.
    #[tactic(auto, unfolding(ti_rules::specs::Mirrors::First::earliest))]
    fn region(self, region: &'a Option<Expr>) -> TypedValue<'a>
        ensures ty { option_map ty_view result.ty ≡ region_type (program_at self.entry) (scope_at self.entry)
            (maybe_of expression_of region.now) }
        ensures first { result.first ≡ earliest (region_refusals (program_at self.entry) (scope_at self.entry)
            (maybe_of expression_of region.now)) }
    {
        match region {
            Some(e) => self.operand_value(e),
            None => TypedValue {
                ty: Some(TyRef::Region),
                first: None,
            },
        }
    }

    fn spread(self, dims: &'a Dims) -> GridExtent<'a>
        ensures first { result.first ≡ earliest (dims_refusals (program_at self.entry) (scope_at self.entry) (extent_of dims.now)) }
        ensures types { option_map literal_of result.types ≡ option_map extent_summary
            (dims_spread (program_at self.entry) (scope_at self.entry) (extent_of dims.now)) }
    {
        match dims {
            Dims::Domain(e) => {
                let domain = self.operand_value(e);
                GridExtent {
                    first: domain.first,
                    types: domain_literal(domain.ty),
                }
            }
            Dims::Ranges(ranges) => {
                let found = self.literal(deref_ranges(ranges));
                GridExtent {
                    first: found.first,
                    types: found.types,
                }
            }
        }
    }

    #[tactic(auto, using(ti_rules::proofs::Lemmas::firsts))]
    fn new_object(self, place: Place, region: &'a Option<Expr>, class: u32) -> TypedValue<'a>
        ensures ty { option_map ty_view result.ty ≡ initial_type (program_at self.entry) (scope_at self.entry)
            (st.NewObject place (maybe_of expression_of region.now) class) }
        ensures first { result.first ≡ earliest (initial_refusals (program_at self.entry) (scope_at self.entry)
            (st.NewObject place (maybe_of expression_of region.now) class)) }
    {
        let region = self.region(region);
        TypedValue {
            ty: object_type(class, region.ty),
            first: earlier_of(region.first, region_mistaken(place, region.ty)),
        }
    }

    #[tactic(auto, using(ti_rules::proofs::Lemmas::firsts))]
    fn new_grid(
        self,
        place: Place,
        region: &'a Option<Expr>,
        element: &'a TypeUse,
        bracket: Place,
        dims: &'a Dims,
    ) -> TypedValue<'a>
        ensures ty { option_map ty_view result.ty ≡ initial_type (program_at self.entry) (scope_at self.entry)
            (st.NewGrid place (maybe_of expression_of region.now) (type_use_of element.now) bracket (extent_of dims.now)) }
        ensures first { result.first ≡ earliest (initial_refusals (program_at self.entry) (scope_at self.entry)
            (st.NewGrid place (maybe_of expression_of region.now) (type_use_of element.now) bracket (extent_of dims.now))) }
    {
        // For the prover: only the contract uses `bracket`.
        let _ = bracket;
        let region = self.region(region);
        let spread = self.spread(dims);
        let words = earlier_of(region.first, type_words(false, element));
        let parts = earlier_of(words, spread.first);
        TypedValue {
            ty: maybe_grid(element, region.ty, spread.types),
            first: earlier_of(parts, grid_refusal(place, element, region.ty, spread.types)),
        }
    }

    #[tactic(auto, using(ti_rules::proofs::Lemmas::firsts))]
    fn broadcast(self, place: Place, value: &'a Expr, root: &'a Expr) -> TypedValue<'a>
        ensures ty { option_map ty_view result.ty ≡ initial_type (program_at self.entry) (scope_at self.entry)
            (st.Broadcast place (expression_of value.now) (expression_of root.now)) }
        ensures first { result.first ≡ earliest (initial_refusals (program_at self.entry) (scope_at self.entry)
            (st.Broadcast place (expression_of value.now) (expression_of root.now))) }
    {
        let value = self.operand_value(value);
        let root = self.operand_value(root);
        let parts = earlier_of(value.first, root.first);
        TypedValue {
            ty: maybe_broadcast(value.ty, root.ty),
            first: earlier_of(parts, broadcast_refusal(place, value.ty, root.ty)),
        }
    }

    /// The typing result of an initializer.
    #[tactic(auto, unfolding(ti_rules::specs::Mirrors::First::earliest))]
    pub fn initial(self, value: &'a Init) -> TypedValue<'a>
        ensures ty { option_map ty_view result.ty ≡ initial_type (program_at self.entry) (scope_at self.entry) (initial_of value.now) }
        ensures first { result.first ≡ earliest (initial_refusals (program_at self.entry) (scope_at self.entry) (initial_of value.now)) }
    {
        match value {
            Init::Value(e) => self.value(e),
            Init::NewRegion(_) => TypedValue {
                ty: Some(TyRef::Region),
                first: None,
            },
            Init::NewObject {
                place,
                region,
                class,
            } => self.new_object(*place, region, *class),
            Init::NewGrid {
                place,
                region,
                element,
                bracket,
                dims,
            } => self.new_grid(*place, region, element, *bracket, dims),
            Init::Broadcast { place, value, root } => self.broadcast(*place, value, root),
        }
    }
}
