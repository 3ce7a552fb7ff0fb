// The type parser, with one token of lookahead.

ghost use Rattle.std.specs.Prelude.{[], ◌∷◌, ◌++◌, ◌≡◌, ◌≤◌};
ghost use Rattle.ti_syntax.specs.Trees.Views.{grid_of, type_tree_of};
ghost use Rattle.ti_parse_expr.specs.Mirrors.Input.{Parses, ParsesAs};
ghost use Rattle.ti_parse_expr.specs.Mirrors.Types as spec;
ghost use Rattle.ti_parse_expr.specs.Mirrors.Seen.{grids_of, qualifiers_of};

use crate::operators::qualifier_of;
use crate::parse_stop::ParseStop;
use crate::tokens::Tokens;
use std::alloc::Global;
use ti_syntax::TokenKind;
use ti_syntax::tree::{Base, Brackets, Qualifier, TypeName};

/// The number of dimensions, if it is from 1 to 3.
fn dim_from_int(number: i32) -> Option<u8>
    ensures { result ≡ spec.dim_from_int number }
{
    if 1 <= number && number <= 3 {
        Some(number as u8)
    } else {
        None
    }
}

/// Consumes the next token if its number of dimensions is valid.
fn dimension_if(tokens: &mut Tokens<'_>, dim: Option<u8>) -> Result<u8, ParseStop>
    ensures { Parses (spec.dimension_if dim tokens.old) result tokens.new }
{
    match dim {
        Some(dim) => {
            tokens.bump();
            Ok(dim)
        }
        None => Err(ParseStop::Refused),
    }
}

fn dimension(tokens: &mut Tokens<'_>) -> Result<u8, ParseStop>
    ensures { Parses (spec.arity_number tokens.old) result tokens.new }
{
    match tokens.peek() {
        TokenKind::Int(n) => dimension_if(tokens, dim_from_int(*n)),
        _ => Err(ParseStop::Refused),
    }
}

/// An arity: `<` n `>`.
#[tactic(auto, unfolding(crate::specs::Mirrors::Types::arity))]
pub fn arity(tokens: &mut Tokens<'_>) -> Result<u8, ParseStop>
    ensures { Parses (spec.arity tokens.old) result tokens.new }
{
    tokens.expect(TokenKind::Less)?;
    let dim = dimension(tokens)?;
    tokens.expect(TokenKind::Greater)?;
    Ok(dim)
}

/// The base of a field's type.
#[tactic(auto, unfolding(crate::specs::Mirrors::Types::base))]
pub fn base(alloc: Global, tokens: &mut Tokens<'_>) -> Result<Base, ParseStop>
    ensures { Parses (spec.base tokens.old) result tokens.new }
{
    let place = tokens.place();
    match tokens.peek() {
        TokenKind::KeywordInt => {
            tokens.bump();
            Ok(Base::Int(place))
        }
        TokenKind::KeywordLong => {
            tokens.bump();
            Ok(Base::Long(place))
        }
        TokenKind::KeywordBoolean => {
            tokens.bump();
            Ok(Base::Boolean(place))
        }
        TokenKind::KeywordPoint => {
            tokens.bump();
            Ok(Base::Point(place, arity(tokens)?))
        }
        TokenKind::KeywordRectDomain => {
            tokens.bump();
            Ok(Base::RectDomain(place, arity(tokens)?))
        }
        TokenKind::Name(name) => {
            let name = name.copy(alloc)?;
            tokens.bump();
            Ok(Base::Named(place, name))
        }
        _ => Err(ParseStop::Refused),
    }
}

/// All qualifiers that follow. `fuel` is fuel.
#[tactic(auto, unfolding(crate::specs::Mirrors::Types::qualifiers))]
pub fn qualifiers(
    alloc: Global,
    tokens: &mut Tokens<'_>,
    fuel: usize,
) -> Result<Vec<Qualifier>, ParseStop>
    ensures { ParsesAs qualifiers_of (spec.qualifiers fuel [] tokens.old) result tokens.new }
{
    let mut found = Vec::new(alloc);
    for _turn in 0..fuel {
        let Some(word) = qualifier_of(tokens.peek()) else {
            return Ok(found);
        };
        let place = tokens.place();
        tokens.bump();
        found.push(Qualifier { word, place })?;
    }
    Err(ParseStop::OutOfFuel)
}

/// The number of dimensions of a grid.
fn grid_dimension(tokens: &mut Tokens<'_>) -> Result<u8, ParseStop>
    ensures { Parses (spec.grid_dimension tokens.old) result tokens.new }
{
    match tokens.peek() {
        TokenKind::Dim(n) => dimension_if(tokens, dim_from_int(i32::from(*n))),
        _ => Err(ParseStop::Refused),
    }
}

/// Grid brackets with their qualifiers, after the `[`.
#[tactic(auto, unfolding(crate::specs::Mirrors::Types::grid))]
pub fn grid(alloc: Global, tokens: &mut Tokens<'_>, fuel: usize) -> Result<Brackets, ParseStop>
    ensures { ParsesAs grid_of (spec.grid fuel tokens.old) result tokens.new }
{
    let dim = grid_dimension(tokens)?;
    tokens.expect(TokenKind::RightBracket)?;
    let qualifiers = qualifiers(alloc, tokens, fuel)?;
    Ok(Brackets { dim, qualifiers })
}

/// At most `room` more grid brackets, added to `found`.
#[tactic(auto, unfolding(crate::specs::Mirrors::Types::grids))]
pub fn grids(
    alloc: Global,
    tokens: &mut Tokens<'_>,
    fuel: usize,
    room: usize,
    found: Vec<Brackets>,
) -> Result<Vec<Brackets>, ParseStop>
    ensures { ParsesAs grids_of (spec.grids fuel room (grids_of found) tokens.old) result tokens.new }
{
    let mut found = found;
    for _turn in 0..room {
        if !tokens.next_is(TokenKind::LeftBracket) {
            return Ok(found);
        }
        tokens.bump();
        found.push(grid(alloc, tokens, fuel)?)?;
    }
    Ok(found)
}

/// The type of a field, after its base.
#[tactic(auto, unfolding(crate::specs::Mirrors::Types::field_type))]
pub fn field_type(
    alloc: Global,
    tokens: &mut Tokens<'_>,
    fuel: usize,
    base: Base,
) -> Result<TypeName, ParseStop>
    ensures { ParsesAs type_tree_of (spec.field_type fuel base tokens.old) result tokens.new }
{
    let qualifiers = qualifiers(alloc, tokens, fuel)?;
    let grids = grids(alloc, tokens, fuel, 3, Vec::new(alloc))?;
    Ok(TypeName {
        base,
        qualifiers,
        grids,
    })
}
