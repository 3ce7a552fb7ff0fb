// Parsing of simple statements: those without statements in them.

ghost use Rattle.std.specs.Prelude.{◌≡◌, false};
ghost use Rattle.ti_syntax.specs.Trees.Views.{exp_of, print_of, type_tree_of};
ghost use Rattle.ti_syntax.specs.Spelling.Expressions.{Target};
ghost use Rattle.ti_parse.specs.Mirrors.Parts as spec;
ghost use Rattle.ti_syntax.specs.declared.token.TokenKind.TheVariants.{KeywordPrintln};
ghost use Rattle.ti_parse.specs.Mirrors.Seen.{name_start_of, before_semicolon, boxed_stm};
ghost use Rattle.ti_parse.specs.Mirrors.ParserParams.{language_params};
ghost use Rattle.ti_parse_expr.specs.Mirrors.Input.{Parses, ParsesAs};
ghost use Rattle.ti_parse_expr.specs.Mirrors.Seen.{operand_of};

use crate::parser::{TextParser, then_expect};
use crate::words::{is_dim_token, starts, step_of, update_of};
use ti_base::Place;
use ti_parse_expr::full::{full_behind_bracket, full_behind_name, full_expr, full_operand};
use ti_parse_expr::operators::qualifier_of;
use ti_parse_expr::types::{field_type, grid, grids};
use ti_parse_expr::{Form, ParseStop, PostfixExpr, PostfixKind, Tokens};
use ti_syntax::tree::{Base, BinaryOperator, Expr, PrintArgument, Stmt, TypeName};
use ti_syntax::{Spelled, TokenKind};

/// The start of a statement that begins with a name.
#[derive(Drop)]
pub enum NameStart {
    /// The type of a declaration.
    DeclaredType(TypeName),
    /// The Postfix of an assignment or a call.
    PostfixStart(PostfixExpr),
}

impl TextParser {
    // ---- declarations, changes and calls

    /// A declaration without its semicolon, after its type.
    #[tactic(auto, unfolding(crate::specs::Mirrors::Parts::declared))]
    pub fn declaration(self, tokens: &mut Tokens<'_>, ty: TypeName) -> Result<Box<Stmt>, ParseStop>
        ensures { ParsesAs boxed_stm (spec.declared language_params self.fuel (type_tree_of ty) tokens.old) result tokens.new }
    {
        let place = tokens.place();
        let name = tokens.name(self.alloc)?;
        tokens.expect(TokenKind::Assign)?;
        let value = self.boxed_initial(tokens)?;
        let whole = Stmt::Declare {
            place,
            ty,
            name,
            value,
        };
        Ok(Box::new(self.alloc, whole)?)
    }

    /// A declaration with its semicolon, after its type.
    pub fn declaration_stmt(
        self,
        tokens: &mut Tokens<'_>,
        ty: TypeName,
    ) -> Result<Box<Stmt>, ParseStop>
        ensures { ParsesAs boxed_stm (before_semicolon (spec.declared language_params self.fuel (type_tree_of ty)) tokens.old) result tokens.new }
    {
        let declared = self.declaration(tokens, ty)?;
        then_expect(tokens, TokenKind::Semicolon, declared)
    }

    /// An assignment, after its `=`.
    fn assignment(
        self,
        tokens: &mut Tokens<'_>,
        place: Place,
        target: Expr,
    ) -> Result<Box<Stmt>, ParseStop>
        ensures { ParsesAs boxed_stm (spec.assignment language_params self.fuel place (exp_of target) tokens.old) result tokens.new }
    {
        let value = self.boxed_initial(tokens)?;
        let whole = Stmt::Assign {
            place,
            target,
            value,
        };
        Ok(Box::new(self.alloc, whole)?)
    }

    /// A compound assignment, after its operator.
    fn compound_assignment(
        self,
        tokens: &mut Tokens<'_>,
        place: Place,
        operator: BinaryOperator,
        target: Expr,
    ) -> Result<Box<Stmt>, ParseStop>
        ensures { ParsesAs boxed_stm (spec.compound_assignment language_params self.fuel place operator (exp_of target) tokens.old) result tokens.new }
    {
        let value = self.expr(tokens)?;
        let whole = Stmt::Update {
            place,
            operator,
            target,
            value,
        };
        Ok(Box::new(self.alloc, whole)?)
    }

    /// An assignment, a compound assignment or a step, after its target.
    fn change_of_target(self, tokens: &mut Tokens<'_>, target: Expr) -> Result<Box<Stmt>, ParseStop>
        ensures { ParsesAs boxed_stm (spec.change_of_if language_params self.fuel (exp_of target) Target tokens.old) result tokens.new }
    {
        let place = tokens.place();
        if tokens.next_is(TokenKind::Assign) {
            tokens.bump();
            return self.assignment(tokens, place, target);
        }
        if let Some(operator) = update_of(tokens.peek()) {
            tokens.bump();
            return self.compound_assignment(tokens, place, operator, target);
        }
        match step_of(tokens.peek()) {
            Some(op) => {
                tokens.bump();
                let whole = Stmt::Step {
                    place,
                    operator: op,
                    target,
                };
                Ok(Box::new(self.alloc, whole)?)
            }
            None => Err(ParseStop::Refused),
        }
    }

    /// A change (an assignment, a compound assignment or a step), after its Postfix, which must be a valid target.
    #[tactic(auto, unfolding(crate::specs::Mirrors::Parts::change_of))]
    pub fn change_of(
        self,
        tokens: &mut Tokens<'_>,
        operand: PostfixExpr,
    ) -> Result<Box<Stmt>, ParseStop>
        ensures { ParsesAs boxed_stm (spec.change_of language_params self.fuel (operand_of operand) tokens.old) result tokens.new }
    {
        match operand.kind {
            PostfixKind::Target => self.change_of_target(tokens, operand.expr),
            PostfixKind::Call | PostfixKind::Other => Err(ParseStop::Refused),
        }
    }

    /// A change with its semicolon, after its Postfix.
    fn change_stmt(
        self,
        tokens: &mut Tokens<'_>,
        operand: PostfixExpr,
    ) -> Result<Box<Stmt>, ParseStop>
        ensures { ParsesAs boxed_stm (spec.expr_stmt_if language_params self.fuel (operand_of operand) false tokens.old) result tokens.new }
    {
        let changed = self.change_of(tokens, operand)?;
        then_expect(tokens, TokenKind::Semicolon, changed)
    }

    /// A call or a change with its semicolon, after its Postfix.
    #[tactic(auto, unfolding(crate::specs::Mirrors::Parts::expr_stmt))]
    pub fn expr_stmt(
        self,
        tokens: &mut Tokens<'_>,
        operand: PostfixExpr,
    ) -> Result<Box<Stmt>, ParseStop>
        ensures { ParsesAs boxed_stm (spec.expr_stmt language_params self.fuel (operand_of operand) tokens.old) result tokens.new }
    {
        if matches!(operand.kind, PostfixKind::Call) && tokens.next_is(TokenKind::Semicolon) {
            tokens.bump();
            return Ok(Box::new(self.alloc, Stmt::Call(operand.expr))?);
        }
        self.change_stmt(tokens, operand)
    }

    /// A change.
    #[tactic(auto, unfolding(crate::specs::Mirrors::Parts::change))]
    pub fn change(self, tokens: &mut Tokens<'_>) -> Result<Box<Stmt>, ParseStop>
        ensures { ParsesAs boxed_stm (spec.change language_params self.fuel tokens.old) result tokens.new }
    {
        if !starts(tokens.peek()) {
            return Err(ParseStop::Refused);
        }
        let operand = full_operand(self.alloc, tokens)?;
        self.change_of(tokens, operand)
    }

    // ---- statements that begin with a name

    /// The start of a statement, after its name and `[`: a type if a dimension follows, else a Postfix.
    #[tactic(auto, unfolding(crate::specs::Mirrors::Parts::bracket_start))]
    fn bracket_start(
        self,
        tokens: &mut Tokens<'_>,
        place: Place,
        name: Spelled,
        bracket: Place,
    ) -> Result<NameStart, ParseStop>
        ensures { ParsesAs name_start_of (spec.bracket_start language_params self.fuel place name bracket tokens.old) result tokens.new }
    {
        if !is_dim_token(tokens.peek()) {
            let operand = full_behind_bracket(self.alloc, tokens, bracket, place, name)?;
            return Ok(NameStart::PostfixStart(operand));
        }
        let mut found = Vec::new(self.alloc);
        found.push(grid(self.alloc, tokens, self.fuel)?)?;
        let grids = grids(self.alloc, tokens, self.fuel, 2, found)?;
        Ok(NameStart::DeclaredType(TypeName {
            base: Base::Named(place, name),
            qualifiers: Vec::new(self.alloc),
            grids,
        }))
    }

    /// The start of a statement, after its name.
    #[tactic(auto, unfolding(crate::specs::Mirrors::Parts::name_start))]
    pub fn name_start(
        self,
        tokens: &mut Tokens<'_>,
        place: Place,
        name: Spelled,
    ) -> Result<NameStart, ParseStop>
        ensures { ParsesAs name_start_of (spec.name_start language_params self.fuel place name tokens.old) result tokens.new }
    {
        match tokens.peek() {
            TokenKind::Name(_) => Ok(NameStart::DeclaredType(TypeName {
                base: Base::Named(place, name),
                qualifiers: Vec::new(self.alloc),
                grids: Vec::new(self.alloc),
            })),
            TokenKind::LeftBracket => {
                let bracket = tokens.place();
                tokens.bump();
                self.bracket_start(tokens, place, name, bracket)
            }
            kind => {
                if qualifier_of(kind).is_some() {
                    let base = Base::Named(place, name);
                    let ty = field_type(self.alloc, tokens, self.fuel, base)?;
                    return Ok(NameStart::DeclaredType(ty));
                }
                let operand = full_behind_name(self.alloc, tokens, place, name)?;
                Ok(NameStart::PostfixStart(operand))
            }
        }
    }

    // ---- prints and barriers

    /// Reads `println` and returns its position.
    fn println(self, tokens: &mut Tokens<'_>) -> Result<Place, ParseStop>
        ensures { Parses (spec.printer_by language_params self.fuel KeywordPrintln tokens.old) result tokens.new }
    {
        let place = tokens.place();
        tokens.expect(TokenKind::KeywordPrintln)?;
        Ok(place)
    }

    /// Reads `println` or `System.out.println` and returns the position of `println`.
    #[tactic(auto, unfolding(crate::specs::Mirrors::Parts::printer))]
    fn printer(self, tokens: &mut Tokens<'_>) -> Result<Place, ParseStop>
        ensures { Parses (spec.printer language_params self.fuel tokens.old) result tokens.new }
    {
        match tokens.peek() {
            TokenKind::KeywordSystem => {
                tokens.bump();
                tokens.expect(TokenKind::Dot)?;
                tokens.expect_word(b"out")?;
                tokens.expect(TokenKind::Dot)?;
                self.println(tokens)
            }
            _ => self.println(tokens),
        }
    }

    /// The argument of a print, after its string literal.
    #[tactic(auto, unfolding(crate::specs::Mirrors::Parts::print_text_argument))]
    fn print_text_argument(
        self,
        tokens: &mut Tokens<'_>,
        text: Spelled,
    ) -> Result<PrintArgument, ParseStop>
        ensures { ParsesAs print_of (spec.print_text_argument language_params self.fuel text tokens.old) result tokens.new }
    {
        if !tokens.next_is(TokenKind::Plus) {
            return Ok(PrintArgument::Text(text));
        }
        tokens.bump();
        let value = full_expr(self.alloc, tokens, Form::Mul)?;
        Ok(PrintArgument::TextAndValue(text, value))
    }

    /// The argument of a print, without its parentheses.
    #[tactic(auto, unfolding(crate::specs::Mirrors::Parts::print_argument))]
    fn print_argument(self, tokens: &mut Tokens<'_>) -> Result<PrintArgument, ParseStop>
        ensures { ParsesAs print_of (spec.print_argument language_params self.fuel tokens.old) result tokens.new }
    {
        match tokens.peek() {
            TokenKind::RightParen => Ok(PrintArgument::Nothing),
            TokenKind::Str(text) => {
                let text = text.copy(self.alloc)?;
                tokens.bump();
                self.print_text_argument(tokens, text)
            }
            _ => Ok(PrintArgument::Value(self.expr(tokens)?)),
        }
    }

    /// A print statement.
    #[tactic(auto, unfolding(crate::specs::Mirrors::Parts::print))]
    pub fn print(self, tokens: &mut Tokens<'_>) -> Result<Box<Stmt>, ParseStop>
        ensures { ParsesAs boxed_stm (spec.print language_params self.fuel tokens.old) result tokens.new }
    {
        let place = self.printer(tokens)?;
        tokens.expect(TokenKind::LeftParen)?;
        let printed = self.print_argument(tokens)?;
        let printed = then_expect(tokens, TokenKind::RightParen, printed)?;
        let printed = then_expect(tokens, TokenKind::Semicolon, printed)?;
        Ok(Box::new(self.alloc, Stmt::Print(place, printed))?)
    }

    /// A barrier statement, after `Ti`.
    #[tactic(auto, unfolding(crate::specs::Mirrors::Parts::barrier))]
    pub fn barrier(self, tokens: &mut Tokens<'_>) -> Result<Box<Stmt>, ParseStop>
        ensures { ParsesAs boxed_stm (spec.barrier language_params self.fuel tokens.old) result tokens.new }
    {
        tokens.expect(TokenKind::Dot)?;
        let place = tokens.place();
        tokens.expect_word(b"barrier")?;
        tokens.expect(TokenKind::LeftParen)?;
        tokens.expect(TokenKind::RightParen)?;
        tokens.expect(TokenKind::Semicolon)?;
        Ok(Box::new(self.alloc, Stmt::Barrier(place))?)
    }

    // ---- jumps, from their keywords on

    /// `break;`
    #[tactic(auto, unfolding(crate::specs::Mirrors::Parts::break_out))]
    pub fn break_out(self, tokens: &mut Tokens<'_>) -> Result<Box<Stmt>, ParseStop>
        ensures { ParsesAs boxed_stm (spec.break_out language_params self.fuel tokens.old) result tokens.new }
    {
        let place = tokens.place();
        tokens.bump();
        tokens.expect(TokenKind::Semicolon)?;
        Ok(Box::new(self.alloc, Stmt::Break(place))?)
    }

    /// `continue;`
    #[tactic(auto, unfolding(crate::specs::Mirrors::Parts::continue_on))]
    pub fn continue_on(self, tokens: &mut Tokens<'_>) -> Result<Box<Stmt>, ParseStop>
        ensures { ParsesAs boxed_stm (spec.continue_on language_params self.fuel tokens.old) result tokens.new }
    {
        let place = tokens.place();
        tokens.bump();
        tokens.expect(TokenKind::Semicolon)?;
        Ok(Box::new(self.alloc, Stmt::Continue(place))?)
    }

    /// `return;` or `return e;`
    #[tactic(auto, unfolding(crate::specs::Mirrors::Parts::return_from))]
    pub fn return_from(self, tokens: &mut Tokens<'_>) -> Result<Box<Stmt>, ParseStop>
        ensures { ParsesAs boxed_stm (spec.return_from language_params self.fuel tokens.old) result tokens.new }
    {
        let place = tokens.place();
        tokens.bump();
        let value = self.optional_expr(tokens)?;
        let value = then_expect(tokens, TokenKind::Semicolon, value)?;
        Ok(Box::new(self.alloc, Stmt::Return(place, value))?)
    }
}
