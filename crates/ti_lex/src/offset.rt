// Offsets of source positions.
ghost use Rattle.std.specs.Prelude.{◌≡◌, ◌≤◌, ◌<◌, ◌^◌, ◌+◌, true, false, length, IfSome, None};
ghost use Rattle.ti_base.specs.Places.{place_of};
ghost use Rattle.ti_rules.specs.LexicalRefusals.{most_bytes};
ghost use Rattle.ti_lex.specs.TokenSpans.{IsNoPosition};

use crate::lexer::MOST_BYTES;
use ti_base::Place;

// Whether two positions are equal.
#[tactic(auto, using(crate::proofs::Offsets::same_decides))]
fn is_same(p: Place, q: Place) -> bool
    ensures same { result ≡ true → p ≡ q }
    ensures other { result ≡ false → p ≡ q → ⊥ }
{
    p.line == q.line && p.col == q.col
}

/// The offset of a position of a text: of a byte, or of the end. None if it isn't one, or if the text is longer than a source may be.
#[tactic(auto, using(crate::proofs::Offsets::none_before, crate::proofs::Offsets::one_more, crate::proofs::Offsets::no_position))]
pub fn offset_of(text: &[u8], place: Place) -> Option<usize>
    ensures within { IfSome result (λ k. k ≤ length text.now) }
    ensures found { IfSome result (λ k. place_of text.now k ≡ place) }
    ensures none { result ≡ None → length text.now ≤ most_bytes → IsNoPosition text.now place }
{
    if text.len() > MOST_BYTES {
        return None;
    }
    let mut at = Place::first();
    let mut k = 0;
    'bytes: while k < text.len() {
        if is_same(at, place) {
            return Some(k);
        }
        at = at.after(text[k]);
        k += 1;
    }
    if is_same(at, place) { Some(k) } else { None }
}
