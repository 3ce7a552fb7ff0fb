// Parsing of types, with one token of lookahead.

ghost use Rattle.std.specs.Prelude.{[], ◌≡◌};
ghost use Rattle.ti_syntax.specs.Trees.Views.{type_tree_of};
ghost use Rattle.ti_parse.specs.Mirrors.Parts as spec;
ghost use Rattle.ti_parse.specs.Mirrors.ParserParams.{language_params};
ghost use Rattle.ti_parse_expr.specs.Mirrors.Input.{ParsesAs};

use crate::parser::TextParser;
use crate::words::is_wide;
use ti_parse_expr::types::{arity, base, field_type, qualifiers};
use ti_parse_expr::{ParseStop, Tokens};
use ti_syntax::TokenKind;
use ti_syntax::tree::{Base, TypeName};

impl TextParser {
    /// A domain or region type: types that fields and elements can't have.
    #[tactic(auto, unfolding(crate::specs::Mirrors::Parts::wide))]
    pub fn wide_type(self, tokens: &mut Tokens<'_>) -> Result<TypeName, ParseStop>
        ensures { ParsesAs type_tree_of (spec.wide language_params self.fuel tokens.old) result tokens.new }
    {
        let place = tokens.place();
        let base = match tokens.peek() {
            TokenKind::KeywordDomain => {
                tokens.bump();
                Base::Domain(place, arity(tokens)?)
            }
            TokenKind::KeywordSharedRegion => {
                tokens.bump();
                Base::SharedRegion(place)
            }
            _ => return Err(ParseStop::Refused),
        };
        let qualifiers = qualifiers(self.alloc, tokens, self.fuel)?;
        Ok(TypeName {
            base,
            qualifiers,
            grids: Vec::new(self.alloc),
        })
    }

    /// The type of a field.
    #[tactic(auto, unfolding(crate::specs::Mirrors::Parts::field))]
    pub fn field(self, tokens: &mut Tokens<'_>) -> Result<TypeName, ParseStop>
        ensures { ParsesAs type_tree_of (spec.field language_params self.fuel tokens.old) result tokens.new }
    {
        let base = base(self.alloc, tokens)?;
        field_type(self.alloc, tokens, self.fuel, base)
    }

    /// Any type.
    #[tactic(auto, unfolding(crate::specs::Mirrors::Parts::any_type))]
    pub fn any_type(self, tokens: &mut Tokens<'_>) -> Result<TypeName, ParseStop>
        ensures { ParsesAs type_tree_of (spec.any_type language_params self.fuel tokens.old) result tokens.new }
    {
        if is_wide(tokens.peek()) {
            self.wide_type(tokens)
        } else {
            self.field(tokens)
        }
    }
}
