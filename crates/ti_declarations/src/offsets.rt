// The offsets at which tokens begin.
ghost use Rattle.std.specs.Prelude.{◌+◌, ◌<◌, ◌^◌, length};

use std::alloc::Global;
use ti_base::{Memory, Place};
use ti_syntax::Token;

/// The offsets at which the tokens of a text begin, except for the last one.
///
/// Requires that no line or column of the text exceeds 32 bits.
pub fn token_offsets(alloc: Global, text: &[u8], tokens: &[Token]) -> Result<Vec<usize>, Memory>
    requires { length text.now + 2 < 2 ^ 32 }
{
    let mut offsets = Vec::new(alloc);
    let mut at = Place::first();
    for (index, byte) in text.iter().enumerate() {
        if let Some(token) = tokens.get(offsets.len()) {
            if token.place == at {
                offsets.push(index)?;
            }
        }
        at = at.after(*byte);
    }
    Ok(offsets)
}
