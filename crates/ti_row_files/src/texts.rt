// Decodes the inputs of rows, which have a notation for repetitions and for unprintable bytes, and embeds them in a context.

use crate::error::RowErr;
use std::alloc::{AllocError, Global};
use std::fs;
use std::rt::Files;

/// What a context puts before and after each input.
#[derive(Clone, Copy)]
struct SourceFrame {
    before: &'static str,
    after: &'static str,
}

/// No context: the input is a whole source file.
const WHOLE: SourceFrame = SourceFrame {
    before: "",
    after: "",
};

/// The input is statements of a method; it begins in line 2.
const STATEMENTS: SourceFrame = SourceFrame {
    before: "class C { void f() {\n",
    after: "\n} }",
};

/// The input is statements of `main`; it begins in column 62.
const MAIN: SourceFrame = SourceFrame {
    before: "class Main { public static single void main(String[] args) { ",
    after: " } }",
};

/// The input is an expression; it begins in column 100. An `int` variable `x` and a null grid variable `a` are in scope.
const PRINTED: SourceFrame = SourceFrame {
    before: "class Main { public static single void main(String[] args) { int x = 5; int [1d] a = null; println(",
    after: "); } }",
};

/// The input is classes; the class `Main` follows them.
const WITH_MAIN: SourceFrame = SourceFrame {
    before: "",
    after: " class Main { public static single void main(String[] args) {  } }",
};

/// The input is members of the class `Main`; it begins in column 14. A `main` that prints 7 follows them.
const WITH_METHOD: SourceFrame = SourceFrame {
    before: "class Main { ",
    after: " public static single void main(String[] args) { println(7); } }",
};

/// The input is statements of `main` after a class with two fields; it begins in column 95.
const WITH_CLASS: SourceFrame = SourceFrame {
    before: "class C { int v; C local near; } class Main { public static single void main(String[] args) { ",
    after: " } }",
};

/// The context with this name.
fn ends_of(frame: &str) -> Option<SourceFrame> {
    match frame {
        "whole" => Some(WHOLE),
        "statements" => Some(STATEMENTS),
        "main" => Some(MAIN),
        "printed" => Some(PRINTED),
        "with-main" => Some(WITH_MAIN),
        "with-method" => Some(WITH_METHOD),
        "with-class" => Some(WITH_CLASS),
        _ => None,
    }
}

/// Appends a string `count` times.
fn push_all(text: &mut String, piece: &str, count: usize) -> Result<(), AllocError> {
    for _ in 0..count {
        text.push_str(piece)?;
    }
    Ok(())
}

/// Appends 0, 1, 2 and so on, each between these two strings, `count` numbers in all.
fn push_numbers(
    text: &mut String,
    before: &str,
    after: &str,
    count: usize,
) -> Result<(), AllocError> {
    for number in 0..count {
        write!(text, "{before}{number}{after}")?;
    }
    Ok(())
}

/// Appends a string `count` times, with its first `$` replaced by 0, 1, 2 and so on.
fn repeat(text: &mut String, piece: &str, count: usize) -> Result<(), AllocError> {
    match piece.split_once('$') {
        Some((before, after)) => push_numbers(text, before, after, count),
        None => push_all(text, piece, count),
    }
}

/// Appends the contents of two backquotes: `N#S` is the string `S` repeated `N` times.
fn push_repeated(text: &mut String, part: &str) -> Result<(), RowErr> {
    let Some((count, piece)) = part.split_once('#') else {
        return Err(RowErr::Row);
    };
    match count.parse::<usize>() {
        Ok(count) => Ok(repeat(text, piece, count)?),
        Err(_) => Err(RowErr::Row),
    }
}

/// Appends the parts of an input between backquotes; every other one is a repetition.
fn push_parts(text: &mut String, spelled: &str) -> Result<(), RowErr> {
    let mut is_repeated = false;
    for part in spelled.split('`') {
        if is_repeated {
            push_repeated(text, part)?;
        } else {
            text.push_str(part)?;
        }
        is_repeated = !is_repeated;
    }
    Ok(())
}

/// The state of the decoder of escapes.
#[derive(Clone, Copy)]
enum Reads {
    Plain,
    /// After a backslash.
    Escape,
    /// After a backslash and `x`.
    High,
    /// After a backslash, `x` and the first digit, which has this value.
    Low(u8),
}

/// The byte that a backslash and this byte denote.
fn meant(byte: u8) -> Option<u8> {
    match byte {
        b'n' => Some(b'\n'),
        b't' => Some(b'\t'),
        b'r' => Some(b'\r'),
        b'f' => Some(b'\x0c'),
        b'\\' => Some(b'\\'),
        _ => None,
    }
}

/// The value of a lower-case hexadecimal digit.
fn digit(byte: u8) -> Option<u8> {
    match byte {
        b'0'..=b'9' => Some(byte.wrapping_sub(b'0')),
        b'a'..=b'f' => Some(byte.wrapping_sub(b'a').wrapping_add(10)),
        _ => None,
    }
}

/// The state after one more byte, and the decoded byte that it completes, if any. `None` for an invalid escape.
fn read_byte(reads: Reads, byte: u8) -> Option<(Reads, Option<u8>)> {
    match (reads, byte) {
        (Reads::Plain, b'\\') => Some((Reads::Escape, None)),
        (Reads::Plain, _) => Some((Reads::Plain, Some(byte))),
        (Reads::Escape, b'x') => Some((Reads::High, None)),
        (Reads::Escape, _) => Some((Reads::Plain, Some(meant(byte)?))),
        (Reads::High, _) => Some((Reads::Low(digit(byte)?), None)),
        (Reads::Low(high), _) => {
            let low = digit(byte)?;
            Some((Reads::Plain, Some(high.wrapping_mul(16).wrapping_add(low))))
        }
    }
}

/// Appends the bytes that a string with escapes denotes.
fn push_unescaped(bytes: &mut Vec<u8>, spelled: &[u8]) -> Result<(), RowErr> {
    let mut reads = Reads::Plain;
    for byte in spelled {
        let Some((next, read)) = read_byte(reads, *byte) else {
            return Err(RowErr::Row);
        };
        if let Some(read) = read {
            bytes.push(read)?;
        }
        reads = next;
    }
    Ok(())
}

/// Appends the bytes that a row's notation denotes.
fn push_bytes(alloc: Global, bytes: &mut Vec<u8>, spelled: &str) -> Result<(), RowErr> {
    let mut text = String::new(alloc);
    push_parts(&mut text, spelled)?;
    push_unescaped(bytes, text.as_bytes())
}

/// The bytes that a row's notation denotes: repetitions are expanded first, then escapes are decoded.
pub fn bytes_of(alloc: Global, spelled: &str) -> Result<Vec<u8>, RowErr> {
    let mut bytes = Vec::new(alloc);
    push_bytes(alloc, &mut bytes, spelled)?;
    Ok(bytes)
}

/// An input in its context.
fn in_frame(alloc: Global, ends: SourceFrame, spelled: &str) -> Result<Vec<u8>, RowErr> {
    let mut bytes = Vec::new(alloc);
    bytes.extend_from_slice(ends.before.as_bytes())?;
    push_bytes(alloc, &mut bytes, spelled)?;
    bytes.extend_from_slice(ends.after.as_bytes())?;
    Ok(bytes)
}

/// The bytes of an input in the named context; in the context `file`, the contents of the file that the input names.
pub(crate) fn text_of<R: Files + AllocGlobal>(
    rt: &R,
    frame: &str,
    spelled: &str,
) -> Result<Vec<u8>, RowErr> {
    if frame == "file" {
        return match fs::read(rt, spelled) {
            Ok(text) => Ok(text),
            Err(_) => Err(RowErr::Row),
        };
    }
    match ends_of(frame) {
        Some(ends) => in_frame(rt.alloc(), ends, spelled),
        None => Err(RowErr::Heading),
    }
}

/// Appends a byte in the notation of rows.
fn push_escaped(text: &mut String, byte: u8) -> Result<(), AllocError> {
    match byte {
        b'\n' => text.push_str("\\n"),
        b'\\' => text.push_str("\\\\"),
        b' '..=b'~' => text.push(char::from(byte)),
        _ => write!(text, "\\x{byte:02x}"),
    }
}

/// Bytes in the notation of rows.
pub(crate) fn row_text(alloc: Global, bytes: &[u8]) -> Result<String, AllocError> {
    let mut text = String::new(alloc);
    for byte in bytes {
        push_escaped(&mut text, *byte)?;
    }
    Ok(text)
}
