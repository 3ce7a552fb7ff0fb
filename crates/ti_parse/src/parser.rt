// The parser's context, and a helper for closing tokens.

ghost use Rattle.std.specs.Prelude.{◌≡◌};
ghost use Rattle.ti_parse.specs.Mirrors.Seen.{ReturnsAfter};
ghost use Rattle.ti_parse_expr.specs.Mirrors.Input.{expect};

use std::alloc::Global;
use ti_parse_expr::{ParseStop, Tokens};
use ti_syntax::TokenKind;

/// The parser's context: allocator and fuel. Its methods are the grammar rules.
#[derive(Clone, Copy)]
pub struct TextParser {
    /// The allocator of the tree's boxes, vectors and names.
    pub alloc: Global,
    /// Fuel: a bound on the iterations of each loop. It suffices if it is more than the number of tokens.
    pub fuel: usize,
}

/// Consumes a token of this kind and returns `read`.
pub fn then_expect<T: Drop>(
    tokens: &mut Tokens<'_>,
    kind: TokenKind,
    read: T,
) -> Result<T, ParseStop>
    ensures { ReturnsAfter read (expect kind tokens.old) result tokens.new }
{
    match tokens.expect(kind) {
        Ok(()) => Ok(read),
        Err(stop) => Err(stop),
    }
}
