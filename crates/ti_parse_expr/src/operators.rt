// Operators and qualifiers by token, and the weights of tokens.

ghost use Rattle.std.specs.Prelude.{◌≡◌};
ghost use Rattle.ti_syntax.specs.Spelling.Operators as spec;
ghost use Rattle.ti_syntax.specs.Spelling.Weights.{counts as counts_spec, arity_behind as arity_behind_spec};

use ti_syntax::TokenKind;
use ti_syntax::tree::{BinaryOperator, QualifierWord, UnaryOperator};

/// The unary operator that the token denotes.
pub fn prefix_of(kind: &TokenKind) -> Option<UnaryOperator>
    ensures { result ≡ spec.prefix_of kind.now }
{
    match kind {
        TokenKind::Minus => Some(UnaryOperator::Minus),
        TokenKind::Plus => Some(UnaryOperator::Plus),
        TokenKind::Exclamation => Some(UnaryOperator::Not),
        TokenKind::Tilde => Some(UnaryOperator::Complement),
        _ => None,
    }
}

/// The binary operator that the token denotes.
pub fn infix_of(kind: &TokenKind) -> Option<BinaryOperator>
    ensures { result ≡ spec.infix_of kind.now }
{
    match kind {
        TokenKind::OrOr => Some(BinaryOperator::OrElse),
        TokenKind::AndAnd => Some(BinaryOperator::AndThen),
        TokenKind::Bar => Some(BinaryOperator::Or),
        TokenKind::Caret => Some(BinaryOperator::Xor),
        TokenKind::Ampersand => Some(BinaryOperator::And),
        TokenKind::Equal => Some(BinaryOperator::Equal),
        TokenKind::NotEqual => Some(BinaryOperator::NotEqual),
        TokenKind::Less => Some(BinaryOperator::Less),
        TokenKind::LessEqual => Some(BinaryOperator::LessEqual),
        TokenKind::Greater => Some(BinaryOperator::Greater),
        TokenKind::GreaterEqual => Some(BinaryOperator::GreaterEqual),
        TokenKind::ShiftLeft => Some(BinaryOperator::ShiftLeft),
        TokenKind::ShiftRight => Some(BinaryOperator::ShiftRight),
        TokenKind::UnsignedShiftRight => Some(BinaryOperator::UnsignedShiftRight),
        TokenKind::Plus => Some(BinaryOperator::Add),
        TokenKind::Minus => Some(BinaryOperator::Subtract),
        TokenKind::Star => Some(BinaryOperator::Multiply),
        TokenKind::Slash => Some(BinaryOperator::Divide),
        TokenKind::Percent => Some(BinaryOperator::Remainder),
        _ => None,
    }
}

/// The precedence level of a binary operator, from 1 (loosest) to 10.
pub fn precedence(operator: BinaryOperator) -> u8
    ensures { result ≡ spec.strength operator }
{
    match operator {
        BinaryOperator::OrElse => 1,
        BinaryOperator::AndThen => 2,
        BinaryOperator::Or => 3,
        BinaryOperator::Xor => 4,
        BinaryOperator::And => 5,
        BinaryOperator::Equal => 6,
        BinaryOperator::NotEqual => 6,
        BinaryOperator::Less => 7,
        BinaryOperator::LessEqual => 7,
        BinaryOperator::Greater => 7,
        BinaryOperator::GreaterEqual => 7,
        BinaryOperator::ShiftLeft => 8,
        BinaryOperator::ShiftRight => 8,
        BinaryOperator::UnsignedShiftRight => 8,
        BinaryOperator::Add => 9,
        BinaryOperator::Subtract => 9,
        BinaryOperator::Multiply => 10,
        BinaryOperator::Divide => 10,
        BinaryOperator::Remainder => 10,
    }
}

/// The type qualifier that the token denotes.
pub fn qualifier_of(kind: &TokenKind) -> Option<QualifierWord>
    ensures { result ≡ spec.qualifier_of kind.now }
{
    match kind {
        TokenKind::KeywordSingle => Some(QualifierWord::Single),
        TokenKind::KeywordLocal => Some(QualifierWord::Local),
        _ => None,
    }
}

/// Whether the token is counted in weights: `(`, `[`, `.` and the operators.
pub fn counts(kind: &TokenKind) -> bool
    ensures { result ≡ counts_spec kind.now }
{
    match kind {
        TokenKind::LeftParen | TokenKind::LeftBracket | TokenKind::Dot => true,
        TokenKind::Exclamation | TokenKind::Tilde => true,
        _ => infix_of(kind).is_some(),
    }
}

/// The number of tokens after this one that are an arity.
pub fn arity_behind(kind: &TokenKind) -> u32
    ensures { result ≡ arity_behind_spec kind.now }
{
    match kind {
        TokenKind::KeywordPoint | TokenKind::KeywordRectDomain => 3,
        _ => 0,
    }
}
