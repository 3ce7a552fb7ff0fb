// Parsing of full expressions and of initializers (the right-hand sides of declarations and assignments).

ghost use Rattle.std.specs.Prelude.{[], ◌∷◌, ◌≡◌};
ghost use Rattle.ti_syntax.specs.Trees.Views.{dims_of, exp_of, init_of, maybe_of, range_of, ranges_of};
ghost use Rattle.ti_parse.specs.Mirrors.Parts as spec;
ghost use Rattle.ti_parse.specs.Mirrors.Pieces as pieces;
ghost use Rattle.ti_parse.specs.Mirrors.Pieces.{boxed_init, sizes_of};
ghost use Rattle.ti_parse.specs.Mirrors.ParserParams.{language_params};
ghost use Rattle.ti_parse_expr.specs.Mirrors.Input.{ParsesAs};
ghost use Rattle.ti_parse_expr.specs.declared.parse.Form.TheVariants as form;

use crate::parser::{TextParser, then_expect};
use ti_base::Place;
use ti_parse_expr::full::full_expr;
use ti_parse_expr::types::{base, grids, qualifiers};
use ti_parse_expr::{Form, ParseStop, Tokens};
use ti_syntax::tree::{Base, Brackets, Dims, Expr, Init, Range, TypeName};
use ti_syntax::{Spelled, TokenKind};

/// The bracketed part of `new T [D] ..`: the domain, and the grid brackets after it.
#[derive(Drop)]
pub struct Sizes {
    /// The position of the opening bracket.
    pub bracket: Place,
    /// The domain of the new grid.
    pub dims: Dims,
    /// The grid brackets of its element type.
    pub grids: Vec<Brackets>,
}

impl TextParser {
    /// Any full expression.
    pub fn expr(self, tokens: &mut Tokens<'_>) -> Result<Expr, ParseStop>
        ensures { ParsesAs exp_of (language_params.full form.Whole tokens.old) result tokens.new }
    {
        full_expr(self.alloc, tokens, Form::Whole)
    }

    /// The rest of a range, after its lower bound.
    #[tactic(auto, unfolding(crate::specs::Mirrors::Parts::range_from))]
    fn range_from(self, tokens: &mut Tokens<'_>, low: Expr) -> Result<Range, ParseStop>
        ensures { ParsesAs range_of (spec.range_from language_params self.fuel (exp_of low) tokens.old) result tokens.new }
    {
        tokens.expect(TokenKind::Colon)?;
        let high = self.expr(tokens)?;
        self.range_behind(tokens, low, high)
    }

    /// The rest of a range, after both bounds.
    fn range_behind(
        self,
        tokens: &mut Tokens<'_>,
        low: Expr,
        high: Expr,
    ) -> Result<Range, ParseStop>
        ensures { ParsesAs range_of (spec.range_behind language_params self.fuel (exp_of low) (exp_of high) tokens.old) result tokens.new }
    {
        if !tokens.next_is(TokenKind::Colon) {
            return Ok(Range::Plain { low, high });
        }
        tokens.bump();
        let step = self.expr(tokens)?;
        Ok(Range::Stepped { low, high, step })
    }

    /// At most `room` more ranges, added to `found`.
    #[tactic(auto, unfolding(crate::specs::Mirrors::Parts::more_ranges))]
    fn more_ranges(
        self,
        tokens: &mut Tokens<'_>,
        room: usize,
        found: Vec<Range>,
    ) -> Result<Vec<Range>, ParseStop>
        ensures { ParsesAs ranges_of (spec.more_ranges language_params self.fuel room (ranges_of found) tokens.old) result tokens.new }
    {
        let mut found = found;
        for _turn in 0..room {
            if !tokens.next_is(TokenKind::Comma) {
                return Ok(found);
            }
            tokens.bump();
            let low = self.expr(tokens)?;
            found.push(self.range_from(tokens, low)?)?;
        }
        Ok(found)
    }

    /// A domain expression, or one to three ranges.
    #[tactic(auto, unfolding(crate::specs::Mirrors::Parts::dims))]
    fn dims(self, tokens: &mut Tokens<'_>) -> Result<Dims, ParseStop>
        ensures { ParsesAs dims_of (spec.dims language_params self.fuel tokens.old) result tokens.new }
    {
        let first = self.expr(tokens)?;
        if !tokens.next_is(TokenKind::Colon) {
            return Ok(Dims::Domain(first));
        }
        let mut found = Vec::new(self.alloc);
        found.push(self.range_from(tokens, first)?)?;
        Ok(Dims::Ranges(self.more_ranges(tokens, 2, found)?))
    }

    /// The optional `(r)` after `new`.
    #[tactic(auto, unfolding(crate::specs::Mirrors::Parts::region))]
    fn region(self, tokens: &mut Tokens<'_>) -> Result<Option<Expr>, ParseStop>
        ensures { ParsesAs (maybe_of exp_of) (spec.region language_params self.fuel tokens.old) result tokens.new }
    {
        if !tokens.next_is(TokenKind::LeftParen) {
            return Ok(None);
        }
        tokens.bump();
        let region = self.expr(tokens)?;
        Ok(Some(then_expect(tokens, TokenKind::RightParen, region)?))
    }

    /// The domain of a new grid in its brackets, and the grid brackets of its element type.
    #[tactic(auto, unfolding(crate::specs::Mirrors::Pieces::sizes))]
    fn sizes(self, tokens: &mut Tokens<'_>) -> Result<Sizes, ParseStop>
        ensures { ParsesAs sizes_of (pieces.sizes language_params self.fuel tokens.old) result tokens.new }
    {
        let bracket = tokens.place();
        tokens.expect(TokenKind::LeftBracket)?;
        let dims = self.dims(tokens)?;
        let dims = then_expect(tokens, TokenKind::RightBracket, dims)?;
        let grids = grids(self.alloc, tokens, self.fuel, 2, Vec::new(self.alloc))?;
        Ok(Sizes {
            bracket,
            dims,
            grids,
        })
    }

    /// A new grid, after the base of its element type.
    #[tactic(auto, unfolding(crate::specs::Mirrors::Parts::new_grid))]
    fn new_grid(
        self,
        tokens: &mut Tokens<'_>,
        place: Place,
        region: Option<Expr>,
        base: Base,
    ) -> Result<Init, ParseStop>
        ensures { ParsesAs init_of (spec.new_grid language_params self.fuel place (maybe_of exp_of region) base tokens.old) result tokens.new }
    {
        let qualifiers = qualifiers(self.alloc, tokens, self.fuel)?;
        let sizes = self.sizes(tokens)?;
        let element = TypeName {
            base,
            qualifiers,
            grids: sizes.grids,
        };
        Ok(Init::NewGrid {
            place,
            region,
            element,
            bracket: sizes.bracket,
            dims: sizes.dims,
        })
    }

    /// A new object, or a new grid of a class, after the class name.
    #[tactic(auto, unfolding(crate::specs::Mirrors::Parts::new_named))]
    fn new_named(
        self,
        tokens: &mut Tokens<'_>,
        place: Place,
        region: Option<Expr>,
        name_place: Place,
        name: Spelled,
    ) -> Result<Init, ParseStop>
        ensures { ParsesAs init_of (spec.new_named language_params self.fuel place (maybe_of exp_of region) name_place name tokens.old) result
            tokens.new }
    {
        if !tokens.next_is(TokenKind::LeftParen) {
            return self.new_grid(tokens, place, region, Base::Named(name_place, name));
        }
        tokens.bump();
        tokens.expect(TokenKind::RightParen)?;
        Ok(Init::NewObject {
            place,
            region,
            name_place,
            name,
        })
    }

    /// A new object or grid, after `new` and the optional region.
    #[tactic(auto, unfolding(crate::specs::Mirrors::Parts::new_object_or_grid))]
    fn new_object_or_grid(
        self,
        tokens: &mut Tokens<'_>,
        place: Place,
        region: Option<Expr>,
    ) -> Result<Init, ParseStop>
        ensures { ParsesAs init_of (spec.new_object_or_grid language_params self.fuel place (maybe_of exp_of region) tokens.old) result tokens.new }
    {
        match tokens.peek() {
            TokenKind::Name(name) => {
                let name_place = tokens.place();
                let name = name.copy(self.alloc)?;
                tokens.bump();
                self.new_named(tokens, place, region, name_place, name)
            }
            _ => {
                let base = base(self.alloc, tokens)?;
                self.new_grid(tokens, place, region, base)
            }
        }
    }

    /// A new region, object or grid, after `new`.
    #[tactic(auto, unfolding(crate::specs::Mirrors::Parts::new_thing))]
    fn new_thing(self, tokens: &mut Tokens<'_>, place: Place) -> Result<Init, ParseStop>
        ensures { ParsesAs init_of (spec.new_thing language_params self.fuel place tokens.old) result tokens.new }
    {
        match tokens.peek() {
            TokenKind::KeywordSharedRegion => {
                tokens.bump();
                tokens.expect(TokenKind::LeftParen)?;
                tokens.expect(TokenKind::RightParen)?;
                Ok(Init::NewRegion(place))
            }
            _ => {
                let region = self.region(tokens)?;
                self.new_object_or_grid(tokens, place, region)
            }
        }
    }

    /// A broadcast, after its keyword.
    #[tactic(auto, unfolding(crate::specs::Mirrors::Parts::broadcast))]
    fn broadcast(self, tokens: &mut Tokens<'_>, place: Place) -> Result<Init, ParseStop>
        ensures { ParsesAs init_of (spec.broadcast language_params self.fuel place tokens.old) result tokens.new }
    {
        let value = self.expr(tokens)?;
        tokens.expect_word(b"from")?;
        let root = self.expr(tokens)?;
        Ok(Init::Broadcast { place, value, root })
    }

    /// A new region, object or grid, after `new`, in a box.
    fn boxed_new(self, tokens: &mut Tokens<'_>, place: Place) -> Result<Box<Init>, ParseStop>
        ensures { ParsesAs boxed_init (spec.new_thing language_params self.fuel place tokens.old) result tokens.new }
    {
        Ok(Box::new(self.alloc, self.new_thing(tokens, place)?)?)
    }

    /// A broadcast, after its keyword, in a box.
    fn boxed_broadcast(self, tokens: &mut Tokens<'_>, place: Place) -> Result<Box<Init>, ParseStop>
        ensures { ParsesAs boxed_init (spec.broadcast language_params self.fuel place tokens.old) result tokens.new }
    {
        Ok(Box::new(self.alloc, self.broadcast(tokens, place)?)?)
    }

    /// An initializer, in a box.
    #[tactic(auto, unfolding(crate::specs::Mirrors::Parts::initial))]
    pub fn boxed_initial(self, tokens: &mut Tokens<'_>) -> Result<Box<Init>, ParseStop>
        ensures { ParsesAs boxed_init (spec.initial language_params self.fuel tokens.old) result tokens.new }
    {
        let place = tokens.place();
        match tokens.peek() {
            TokenKind::KeywordNew => {
                tokens.bump();
                self.boxed_new(tokens, place)
            }
            TokenKind::KeywordBroadcast => {
                tokens.bump();
                self.boxed_broadcast(tokens, place)
            }
            _ => {
                let value = self.expr(tokens)?;
                Ok(Box::new(self.alloc, Init::Value(value))?)
            }
        }
    }
}
