// Tokens, as the lexer produces them.
ghost use Rattle.std.specs.Prelude.{◌≡◌};
ghost use Rattle.ti_syntax.specs.Tokens.{code, same_kind};

use crate::Spelled;
use ti_base::Place;

/// The kind of a token, with the value of a literal or name.
///
/// Each reserved word, operator and punctuation mark has its own variant.
#[derive(Debug, Drop)]
pub enum TokenKind {
    /// `boolean`
    KeywordBoolean,
    /// `break`
    KeywordBreak,
    /// `broadcast`
    KeywordBroadcast,
    /// `class`
    KeywordClass,
    /// `continue`
    KeywordContinue,
    /// `Domain`
    KeywordDomain,
    /// `else`
    KeywordElse,
    /// `false`
    KeywordFalse,
    /// `final`
    KeywordFinal,
    /// `for`
    KeywordFor,
    /// `foreach`
    KeywordForeach,
    /// `if`
    KeywordIf,
    /// `int`
    KeywordInt,
    /// `local`
    KeywordLocal,
    /// `long`
    KeywordLong,
    /// `new`
    KeywordNew,
    /// `null`
    KeywordNull,
    /// `Point`
    KeywordPoint,
    /// `println`
    KeywordPrintln,
    /// `private`
    KeywordPrivate,
    /// `protected`
    KeywordProtected,
    /// `public`
    KeywordPublic,
    /// `RectDomain`
    KeywordRectDomain,
    /// `return`
    KeywordReturn,
    /// `SharedRegion`
    KeywordSharedRegion,
    /// `single`
    KeywordSingle,
    /// `static`
    KeywordStatic,
    /// `String`
    KeywordString,
    /// `System`
    KeywordSystem,
    /// `this`
    KeywordThis,
    /// `Ti`
    KeywordTi,
    /// `true`
    KeywordTrue,
    /// `void`
    KeywordVoid,
    /// `while`
    KeywordWhile,
    /// `+`
    Plus,
    /// `-`
    Minus,
    /// `*`
    Star,
    /// `/`
    Slash,
    /// `%`
    Percent,
    /// `<<`
    ShiftLeft,
    /// `>>`
    ShiftRight,
    /// `>>>`
    UnsignedShiftRight,
    /// `<`
    Less,
    /// `<=`
    LessEqual,
    /// `>`
    Greater,
    /// `>=`
    GreaterEqual,
    /// `==`
    Equal,
    /// `!=`
    NotEqual,
    /// `&`
    Ampersand,
    /// `|`
    Bar,
    /// `^`
    Caret,
    /// `~`
    Tilde,
    /// `!`
    Exclamation,
    /// `&&`
    AndAnd,
    /// `||`
    OrOr,
    /// `=`
    Assign,
    /// `+=`
    PlusAssign,
    /// `-=`
    MinusAssign,
    /// `*=`
    StarAssign,
    /// `/=`
    SlashAssign,
    /// `%=`
    PercentAssign,
    /// `&=`
    AmpersandAssign,
    /// `|=`
    BarAssign,
    /// `^=`
    CaretAssign,
    /// `<<=`
    ShiftLeftAssign,
    /// `>>=`
    ShiftRightAssign,
    /// `>>>=`
    UnsignedShiftRightAssign,
    /// `++`
    PlusPlus,
    /// `--`
    MinusMinus,
    /// `(`
    LeftParen,
    /// `)`
    RightParen,
    /// `[`
    LeftBracket,
    /// `]`
    RightBracket,
    /// `{`
    LeftBrace,
    /// `}`
    RightBrace,
    /// `;`
    Semicolon,
    /// `,`
    Comma,
    /// `.`
    Dot,
    /// `:`
    Colon,
    /// The end of the source.
    End,
    /// An identifier.
    Name(Spelled),
    /// `1d`, `2d` or `3d`, by its number of dimensions.
    Dim(u8),
    /// An `int` literal, from 0 to 2147483647.
    Int(i32),
    /// A `long` literal, from 0 to 9223372036854775807; it is written with a final `L` or `l`.
    LongInt(i64),
    /// A string literal, with its escapes `\n`, `\t`, `\"` and `\\` replaced.
    Str(Spelled),
}

/// A token, at the source position of its first byte.
///
/// The End token is at the position just after the last byte.
#[derive(Debug, Drop)]
pub struct Token {
    pub kind: TokenKind,
    pub place: Place,
}

impl TokenKind {
    /// The index of the variant, unique among the variants.
    pub fn number(&self) -> u8
        ensures { result ≡ code self.now }
    {
        match self {
            TokenKind::KeywordBoolean => 0,
            TokenKind::KeywordBreak => 1,
            TokenKind::KeywordBroadcast => 2,
            TokenKind::KeywordClass => 3,
            TokenKind::KeywordContinue => 4,
            TokenKind::KeywordDomain => 5,
            TokenKind::KeywordElse => 6,
            TokenKind::KeywordFalse => 7,
            TokenKind::KeywordFinal => 8,
            TokenKind::KeywordFor => 9,
            TokenKind::KeywordForeach => 10,
            TokenKind::KeywordIf => 11,
            TokenKind::KeywordInt => 12,
            TokenKind::KeywordLocal => 13,
            TokenKind::KeywordLong => 14,
            TokenKind::KeywordNew => 15,
            TokenKind::KeywordNull => 16,
            TokenKind::KeywordPoint => 17,
            TokenKind::KeywordPrintln => 18,
            TokenKind::KeywordPrivate => 19,
            TokenKind::KeywordProtected => 20,
            TokenKind::KeywordPublic => 21,
            TokenKind::KeywordRectDomain => 22,
            TokenKind::KeywordReturn => 23,
            TokenKind::KeywordSharedRegion => 24,
            TokenKind::KeywordSingle => 25,
            TokenKind::KeywordStatic => 26,
            TokenKind::KeywordString => 27,
            TokenKind::KeywordSystem => 28,
            TokenKind::KeywordThis => 29,
            TokenKind::KeywordTi => 30,
            TokenKind::KeywordTrue => 31,
            TokenKind::KeywordVoid => 32,
            TokenKind::KeywordWhile => 33,
            TokenKind::Plus => 34,
            TokenKind::Minus => 35,
            TokenKind::Star => 36,
            TokenKind::Slash => 37,
            TokenKind::Percent => 38,
            TokenKind::ShiftLeft => 39,
            TokenKind::ShiftRight => 40,
            TokenKind::UnsignedShiftRight => 41,
            TokenKind::Less => 42,
            TokenKind::LessEqual => 43,
            TokenKind::Greater => 44,
            TokenKind::GreaterEqual => 45,
            TokenKind::Equal => 46,
            TokenKind::NotEqual => 47,
            TokenKind::Ampersand => 48,
            TokenKind::Bar => 49,
            TokenKind::Caret => 50,
            TokenKind::Tilde => 51,
            TokenKind::Exclamation => 52,
            TokenKind::AndAnd => 53,
            TokenKind::OrOr => 54,
            TokenKind::Assign => 55,
            TokenKind::PlusAssign => 56,
            TokenKind::MinusAssign => 57,
            TokenKind::StarAssign => 58,
            TokenKind::SlashAssign => 59,
            TokenKind::PercentAssign => 60,
            TokenKind::AmpersandAssign => 61,
            TokenKind::BarAssign => 62,
            TokenKind::CaretAssign => 63,
            TokenKind::ShiftLeftAssign => 64,
            TokenKind::ShiftRightAssign => 65,
            TokenKind::UnsignedShiftRightAssign => 66,
            TokenKind::PlusPlus => 67,
            TokenKind::MinusMinus => 68,
            TokenKind::LeftParen => 69,
            TokenKind::RightParen => 70,
            TokenKind::LeftBracket => 71,
            TokenKind::RightBracket => 72,
            TokenKind::LeftBrace => 73,
            TokenKind::RightBrace => 74,
            TokenKind::Semicolon => 75,
            TokenKind::Comma => 76,
            TokenKind::Dot => 77,
            TokenKind::Colon => 78,
            TokenKind::End => 79,
            TokenKind::Name(_) => 80,
            TokenKind::Dim(_) => 81,
            TokenKind::Int(_) => 82,
            TokenKind::LongInt(_) => 83,
            TokenKind::Str(_) => 84,
        }
    }

    /// Whether both are the same variant, whatever their values.
    pub fn same_kind(&self, other: &Self) -> bool
        ensures { result ≡ same_kind self.now other.now }
    {
        self.number() == other.number()
    }
}
