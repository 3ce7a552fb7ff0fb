// Help for bytes and tokens that don't fit the grammar, for what is written otherwise in Java.

use crate::expectation::is_expected;
use crate::tokens::{line_of, token_at};
use ti_explain::Explanation;

// Whether only blanks are before the position on its line.
fn begins_line(text: &[u8], explanation: &Explanation) -> bool {
    let place = explanation.refusal.place;
    let before = place.col.saturating_sub(1) as usize;
    for byte in line_of(text, place.line).iter().take(before) {
        if !byte.is_ascii_whitespace() {
            return false;
        }
    }
    true
}

fn is_dimension(token: &[u8]) -> bool {
    token == "1d".as_bytes() || token == "2d".as_bytes() || token == "3d".as_bytes()
}

/// A line of help for an unexpected token, by the tokens that are expected in its place; empty if there is none.
pub fn grammar_help(text: &[u8], explanation: &Explanation) -> &'static str {
    let reasons = explanation.reasons.as_slice();
    let token = token_at(text, explanation.refusal.place, explanation.len);
    if is_expected(reasons, "1d") {
        "the type of a grid has its number of dimensions, as in `int [1d] a`"
    } else if is_dimension(token) && is_expected(reasons, "0") {
        "the bounds of a new grid come before the type of its elements: `new int [0:n - 1] [1d]`"
    } else if token == "+".as_bytes() && is_expected(reasons, ")") {
        "`println` takes a string and one value; print the rest by another `println`"
    } else if token == "=".as_bytes() && is_expected(reasons, "(") {
        "a field is declared without a value: it is 0, `false` or `null` at first; a method can assign it"
    } else if token == "(".as_bytes() && is_expected(reasons, "local") {
        "there are no constructors; a method, as `void init(int n)`, can assign the fields after `new`"
    } else if is_expected(reasons, ";") && begins_line(text, explanation) {
        "a `;` may be missing at the end of the line before"
    } else {
        ""
    }
}

/// A line of help for a byte outside the language; empty if there is none for this byte.
pub fn byte_help(text: &[u8], explanation: &Explanation) -> &'static str {
    let token = token_at(text, explanation.refusal.place, 1);
    if token == "?".as_bytes() {
        "there is no `? :`: write an `if` with an `else`, and assign or return the value in each"
    } else if token == "'".as_bytes() {
        "there are no characters: write a number, or a string in `println`"
    } else if token == "@".as_bytes() {
        "there are no annotations: remove it"
    } else {
        ""
    }
}
