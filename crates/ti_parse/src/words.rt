// Operators and modifiers by token, and the tokens that can begin each kind of phrase.

ghost use Rattle.std.specs.Prelude.{◌≡◌};
ghost use Rattle.ti_syntax.specs.Spelling.Operators as operators;
ghost use Rattle.ti_syntax.specs.Spelling.Statements.{starts as starts_spec};
ghost use Rattle.ti_parse.specs.Mirrors.Parts as parts;
ghost use Rattle.ti_parse.specs.Mirrors.Seen.{modifier_word_of};
ghost use Rattle.ti_parse.specs.Mirrors.Statements as statements;
ghost use Rattle.ti_parse_expr.specs.Mirrors.Exprs.{is_dim_token as is_dim_spec};

use ti_syntax::TokenKind;
use ti_syntax::tree::{BinaryOperator, ModifierWord, StepOperator};

/// The operator of the compound assignment `t op= e` that the token denotes.
pub fn update_of(kind: &TokenKind) -> Option<BinaryOperator>
    ensures { result ≡ operators.update_of kind.now }
{
    match kind {
        TokenKind::PlusAssign => Some(BinaryOperator::Add),
        TokenKind::MinusAssign => Some(BinaryOperator::Subtract),
        TokenKind::StarAssign => Some(BinaryOperator::Multiply),
        TokenKind::SlashAssign => Some(BinaryOperator::Divide),
        TokenKind::PercentAssign => Some(BinaryOperator::Remainder),
        TokenKind::AmpersandAssign => Some(BinaryOperator::And),
        TokenKind::BarAssign => Some(BinaryOperator::Or),
        TokenKind::CaretAssign => Some(BinaryOperator::Xor),
        TokenKind::ShiftLeftAssign => Some(BinaryOperator::ShiftLeft),
        TokenKind::ShiftRightAssign => Some(BinaryOperator::ShiftRight),
        TokenKind::UnsignedShiftRightAssign => Some(BinaryOperator::UnsignedShiftRight),
        _ => None,
    }
}

/// The step operator that the token denotes: `++` or `--`.
pub fn step_of(kind: &TokenKind) -> Option<StepOperator>
    ensures { result ≡ operators.step_of kind.now }
{
    match kind {
        TokenKind::PlusPlus => Some(StepOperator::Increment),
        TokenKind::MinusMinus => Some(StepOperator::Decrement),
        _ => None,
    }
}

/// What is modified: classes and members allow different modifiers.
#[derive(Clone, Copy)]
pub enum Modified {
    Class,
    Member,
}

/// The modifier that the token denotes, if it is allowed on a class or member.
pub fn modifier_of(modified: Modified, kind: &TokenKind) -> Option<ModifierWord>
    ensures { result ≡ modifier_word_of modified kind.now }
{
    match modified {
        Modified::Class => class_modifier_of(kind),
        Modified::Member => member_modifier_of(kind),
    }
}

fn class_modifier_of(kind: &TokenKind) -> Option<ModifierWord>
    ensures { result ≡ operators.class_modifier_of kind.now }
{
    match kind {
        TokenKind::KeywordPublic => Some(ModifierWord::Public),
        TokenKind::KeywordFinal => Some(ModifierWord::Final),
        _ => None,
    }
}

fn member_modifier_of(kind: &TokenKind) -> Option<ModifierWord>
    ensures { result ≡ operators.modifier_of kind.now }
{
    match kind {
        TokenKind::KeywordPublic => Some(ModifierWord::Public),
        TokenKind::KeywordPrivate => Some(ModifierWord::Private),
        TokenKind::KeywordProtected => Some(ModifierWord::Protected),
        TokenKind::KeywordStatic => Some(ModifierWord::Static),
        TokenKind::KeywordFinal => Some(ModifierWord::Final),
        TokenKind::KeywordSingle => Some(ModifierWord::Single),
        _ => None,
    }
}

/// Whether the token begins a type that fields and elements can't have.
pub fn is_wide(kind: &TokenKind) -> bool
    ensures { result ≡ parts.is_wide kind.now }
{
    matches!(
        kind,
        TokenKind::KeywordDomain | TokenKind::KeywordSharedRegion
    )
}

/// Whether the token is a keyword that can begin a declaration.
pub fn begins_declaration(kind: &TokenKind) -> bool
    ensures { result ≡ parts.begins_declaration kind.now }
{
    match kind {
        TokenKind::KeywordInt | TokenKind::KeywordLong | TokenKind::KeywordBoolean => true,
        TokenKind::KeywordPoint | TokenKind::KeywordRectDomain => true,
        _ => is_wide(kind),
    }
}

/// Whether the token can begin a Postfix at the start of a statement.
pub fn starts(kind: &TokenKind) -> bool
    ensures { result ≡ starts_spec kind.now }
{
    matches!(
        kind,
        TokenKind::Name(_) | TokenKind::KeywordThis | TokenKind::LeftParen
    )
}

/// Whether the token is a dimension, as `1d`.
pub fn is_dim_token(kind: &TokenKind) -> bool
    ensures { result ≡ is_dim_spec kind.now }
{
    matches!(kind, TokenKind::Dim(_))
}

/// Whether the token begins a compound statement.
pub fn is_compound(kind: &TokenKind) -> bool
    ensures { result ≡ statements.is_compound kind.now }
{
    match kind {
        TokenKind::LeftBrace | TokenKind::KeywordIf => true,
        TokenKind::KeywordWhile | TokenKind::KeywordFor | TokenKind::KeywordForeach => true,
        _ => false,
    }
}
