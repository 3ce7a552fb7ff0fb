// The number of the process that a line names, read from the line's start alone.
ghost use Rattle.std.specs.Prelude.{◌≡◌, ◌+◌, ◌<◌, ◌≤◌, ℕ, List, ◌∷◌, ◌++◌, length, Some, codes, decimal};

use ti_watch::Line;

// The value of a decimal digit.
fn digit(byte: u8) -> u32
    ensures value { (d : ℕ) → byte ≡ 48 + d → result ≡ d }
    ensures small { result < 256 }
{
    if byte >= b'0' {
        (byte - b'0') as u32
    } else {
        0
    }
}

// The number of one or two digits at the start of a line, if a space follows it.
fn small_number(text: &[u8]) -> Option<u32>
    ensures { (n : ℕ) (more : List ℕ) → n < 100 → text.now ≡ decimal n ++ 32 ∷ more → result ≡ Some n }
{
    if text.len() < 2 {
        return None;
    }
    let first = digit(text[0]);
    if text[1] == b' ' {
        return Some(first);
    }
    Some(first * 10 + digit(text[1]))
}

/// The number of the process that a line names, if that is below 100. The clause `short` says nothing of the result: it is a fact about the
/// line's index, from which callers know that no line of an entry is too long to be held.
pub fn process_in(number: usize, line: &[u8]) -> Option<u32>
    ensures names { (p : ℕ) (more : List ℕ) → p < 100 → line.now ≡ decimal number ++ codes " p" ++ decimal p ++ 32 ∷ more → result
        ≡ Some p }
    ensures short { length (decimal number) ≤ 20 }
{
    let mut head = Line::new();
    head.number(number);
    head.text(b" p");
    small_number(line.strip_prefix(head.as_slice())?)
}
