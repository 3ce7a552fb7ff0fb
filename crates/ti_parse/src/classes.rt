// Parsing of classes and their members.

ghost use Rattle.std.specs.Prelude.{[], ◌≡◌};
ghost use Rattle.ti_syntax.specs.Trees.Views.{class_of, member_of, params_of, result_of, type_tree_of};
ghost use Rattle.ti_parse.specs.Mirrors.Classes as spec;
ghost use Rattle.ti_parse.specs.Mirrors.Pieces as pieces;
ghost use Rattle.ti_parse.specs.Mirrors.Pieces.{method_body_of};
ghost use Rattle.ti_parse.specs.Mirrors.Seen.{classes_of, members_of, modifiers_of, param_list_of, modifier_word_of};
ghost use Rattle.ti_parse.specs.Mirrors.ParserParams.{language_params};
ghost use Rattle.ti_parse_expr.specs.Mirrors.Input.{ParsesAs};

use crate::parser::{TextParser, then_expect};
use crate::words::{Modified, modifier_of};
use ti_base::Place;
use ti_parse_expr::{ParseStop, Tokens};
use ti_syntax::tree::{
    Class, Field, Member, Method, Modifier, ParamDecl, Params, ResultDecl, Stmt, TypeName,
};
use ti_syntax::{Spelled, TokenKind};

/// A method body, with the position of its closing brace.
#[derive(Drop)]
pub struct MethodBody {
    pub body: Vec<Stmt>,
    pub end: Place,
}

impl TextParser {
    // ---- methods

    /// One or more parameters.
    #[tactic(auto, unfolding(crate::specs::Mirrors::Classes::more_params))]
    fn more_params(self, tokens: &mut Tokens<'_>) -> Result<Vec<ParamDecl>, ParseStop>
        ensures { ParsesAs param_list_of (spec.more_params language_params self.fuel self.fuel [] tokens.old) result tokens.new }
    {
        let mut found = Vec::new(self.alloc);
        for _turn in 0..self.fuel {
            let ty = self.any_type(tokens)?;
            let place = tokens.place();
            let name = tokens.name(self.alloc)?;
            found.push(ParamDecl { ty, place, name })?;
            if !tokens.next_is(TokenKind::Comma) {
                return Ok(found);
            }
            tokens.bump();
        }
        Err(ParseStop::OutOfFuel)
    }

    /// The parameter `String[] x`, after `String`.
    #[tactic(auto, unfolding(crate::specs::Mirrors::Classes::words))]
    fn words(self, tokens: &mut Tokens<'_>) -> Result<Params, ParseStop>
        ensures { ParsesAs params_of (spec.words language_params self.fuel tokens.old) result tokens.new }
    {
        tokens.expect(TokenKind::LeftBracket)?;
        tokens.expect(TokenKind::RightBracket)?;
        let place = tokens.place();
        let name = tokens.name(self.alloc)?;
        Ok(Params::MainArgs(place, name))
    }

    /// A method's parameter list, without its parentheses.
    #[tactic(auto, unfolding(crate::specs::Mirrors::Classes::params))]
    fn params(self, tokens: &mut Tokens<'_>) -> Result<Params, ParseStop>
        ensures { ParsesAs params_of (spec.params language_params self.fuel tokens.old) result tokens.new }
    {
        match tokens.peek() {
            TokenKind::RightParen => Ok(Params::Typed(Vec::new(self.alloc))),
            TokenKind::KeywordString => {
                tokens.bump();
                self.words(tokens)
            }
            _ => Ok(Params::Typed(self.more_params(tokens)?)),
        }
    }

    /// A method's parameter list, with its parentheses.
    #[tactic(auto, unfolding(crate::specs::Mirrors::Pieces::signature))]
    fn signature(self, tokens: &mut Tokens<'_>) -> Result<Params, ParseStop>
        ensures { ParsesAs params_of (pieces.signature language_params self.fuel tokens.old) result tokens.new }
    {
        tokens.expect(TokenKind::LeftParen)?;
        let params = self.params(tokens)?;
        then_expect(tokens, TokenKind::RightParen, params)
    }

    /// A method body in its braces.
    #[tactic(auto, unfolding(crate::specs::Mirrors::Pieces::method_body))]
    fn method_body(self, tokens: &mut Tokens<'_>) -> Result<MethodBody, ParseStop>
        ensures { ParsesAs method_body_of (pieces.method_body language_params self.fuel tokens.old) result tokens.new }
    {
        tokens.expect(TokenKind::LeftBrace)?;
        let body = self.body(tokens)?;
        let end = tokens.place();
        tokens.expect(TokenKind::RightBrace)?;
        Ok(MethodBody { body, end })
    }

    /// A method, after its name. Its modifiers, result, name and the name's position are passed in.
    #[tactic(auto, unfolding(crate::specs::Mirrors::Classes::method))]
    fn method(
        self,
        tokens: &mut Tokens<'_>,
        modifiers: Vec<Modifier>,
        result_type: ResultDecl,
        place: Place,
        name: Spelled,
    ) -> Result<Member, ParseStop>
        ensures { ParsesAs member_of (spec.method language_params self.fuel modifiers.items (result_of result_type) place name tokens.old) result
            tokens.new }
    {
        let params = self.signature(tokens)?;
        let braced = self.method_body(tokens)?;
        Ok(Member::Method(Method {
            modifiers,
            result: result_type,
            place,
            name,
            params,
            body: braced.body,
            end: braced.end,
        }))
    }

    // ---- members

    /// A method, after its result type.
    #[tactic(auto, unfolding(crate::specs::Mirrors::Classes::method_named))]
    fn method_named(
        self,
        tokens: &mut Tokens<'_>,
        modifiers: Vec<Modifier>,
        result_type: ResultDecl,
    ) -> Result<Member, ParseStop>
        ensures { ParsesAs member_of (spec.method_named language_params self.fuel modifiers.items (result_of result_type) tokens.old) result
            tokens.new }
    {
        let place = tokens.place();
        let name = tokens.name(self.alloc)?;
        self.method(tokens, modifiers, result_type, place, name)
    }

    /// A field or a method, after the type.
    #[tactic(auto, unfolding(crate::specs::Mirrors::Classes::field_or_method))]
    fn field_or_method(
        self,
        tokens: &mut Tokens<'_>,
        modifiers: Vec<Modifier>,
        ty: TypeName,
    ) -> Result<Member, ParseStop>
        ensures { ParsesAs member_of (spec.field_or_method language_params self.fuel modifiers.items (type_tree_of ty) tokens.old) result tokens.new }
    {
        let place = tokens.place();
        let name = tokens.name(self.alloc)?;
        if !tokens.next_is(TokenKind::Semicolon) {
            return self.method(tokens, modifiers, ResultDecl::Typed(ty), place, name);
        }
        tokens.bump();
        Ok(Member::Field(Field {
            modifiers,
            ty,
            place,
            name,
        }))
    }

    /// A member, after its modifiers.
    #[tactic(auto, unfolding(crate::specs::Mirrors::Classes::member_from))]
    fn member_from(
        self,
        tokens: &mut Tokens<'_>,
        modifiers: Vec<Modifier>,
    ) -> Result<Member, ParseStop>
        ensures { ParsesAs member_of (spec.member_from language_params self.fuel modifiers.items tokens.old) result tokens.new }
    {
        match tokens.peek() {
            TokenKind::KeywordVoid => {
                let place = tokens.place();
                tokens.bump();
                self.method_named(tokens, modifiers, ResultDecl::Void(place))
            }
            TokenKind::KeywordDomain | TokenKind::KeywordSharedRegion => {
                let ty = self.wide_type(tokens)?;
                self.method_named(tokens, modifiers, ResultDecl::Typed(ty))
            }
            _ => {
                let ty = self.field(tokens)?;
                self.field_or_method(tokens, modifiers, ty)
            }
        }
    }

    /// All modifiers that follow, as allowed on a class or a member.
    #[tactic(auto, unfolding(crate::specs::Mirrors::Classes::modifiers))]
    fn modifiers(
        self,
        tokens: &mut Tokens<'_>,
        modified: Modified,
    ) -> Result<Vec<Modifier>, ParseStop>
        ensures { ParsesAs modifiers_of (spec.modifiers language_params self.fuel (modifier_word_of modified) self.fuel [] tokens.old) result tokens.new }
    {
        let mut found = Vec::new(self.alloc);
        for _turn in 0..self.fuel {
            let Some(word) = modifier_of(modified, tokens.peek()) else {
                return Ok(found);
            };
            let place = tokens.place();
            tokens.bump();
            found.push(Modifier { word, place })?;
        }
        Err(ParseStop::OutOfFuel)
    }

    #[tactic(auto, unfolding(crate::specs::Mirrors::Classes::member))]
    fn member(self, tokens: &mut Tokens<'_>) -> Result<Member, ParseStop>
        ensures { ParsesAs member_of (spec.member language_params self.fuel tokens.old) result tokens.new }
    {
        let modifiers = self.modifiers(tokens, Modified::Member)?;
        self.member_from(tokens, modifiers)
    }

    /// All members up to the `}` of the class, which isn't consumed.
    #[tactic(auto, unfolding(crate::specs::Mirrors::Classes::members))]
    fn members(self, tokens: &mut Tokens<'_>) -> Result<Vec<Member>, ParseStop>
        ensures { ParsesAs members_of (spec.members language_params self.fuel self.fuel [] tokens.old) result tokens.new }
    {
        let mut found = Vec::new(self.alloc);
        for _turn in 0..self.fuel {
            if tokens.next_is(TokenKind::RightBrace) {
                return Ok(found);
            }
            found.push(self.member(tokens)?)?;
        }
        Err(ParseStop::OutOfFuel)
    }

    // ---- classes

    /// A class, after its modifiers.
    #[tactic(auto, unfolding(crate::specs::Mirrors::Classes::class_from))]
    fn class_from(
        self,
        tokens: &mut Tokens<'_>,
        modifiers: Vec<Modifier>,
    ) -> Result<Class, ParseStop>
        ensures { ParsesAs class_of (spec.class_from language_params self.fuel modifiers.items tokens.old) result tokens.new }
    {
        let word = tokens.place();
        tokens.expect(TokenKind::KeywordClass)?;
        let place = tokens.place();
        let name = tokens.name(self.alloc)?;
        tokens.expect(TokenKind::LeftBrace)?;
        let members = self.members(tokens)?;
        tokens.expect(TokenKind::RightBrace)?;
        Ok(Class {
            modifiers,
            word,
            place,
            name,
            members,
        })
    }

    #[tactic(auto, unfolding(crate::specs::Mirrors::Classes::class))]
    fn class(self, tokens: &mut Tokens<'_>) -> Result<Class, ParseStop>
        ensures { ParsesAs class_of (spec.class language_params self.fuel tokens.old) result tokens.new }
    {
        let modifiers = self.modifiers(tokens, Modified::Class)?;
        self.class_from(tokens, modifiers)
    }

    /// All classes up to End, which isn't consumed.
    #[tactic(auto, unfolding(crate::specs::Mirrors::Classes::classes))]
    pub fn classes(self, tokens: &mut Tokens<'_>) -> Result<Vec<Class>, ParseStop>
        ensures { ParsesAs classes_of (spec.classes language_params self.fuel self.fuel [] tokens.old) result tokens.new }
    {
        let mut found = Vec::new(self.alloc);
        for _turn in 0..self.fuel {
            if tokens.next_is(TokenKind::End) {
                return Ok(found);
            }
            found.push(self.class(tokens)?)?;
        }
        Err(ParseStop::OutOfFuel)
    }
}
