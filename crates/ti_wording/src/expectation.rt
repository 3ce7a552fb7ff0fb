// The tokens that could stand in the place of an unexpected one, in a few words.

use crate::memory::NoMemory;
use std::alloc::{AllocError, Global};
use ti_explain::{ReasonKind, ReasonSpan};

// The largest number of texts that are listed.
const MOST_TEXTS: usize = 8;

// Groups of texts that are said by one name.
#[derive(Clone, Copy)]
enum Group {
    Statement,
    Expression,
    Type,
    Operator,
    Assignment,
    // Names with a meaning of their own, which aren't listed where any name can stand.
    Names,
}

const GROUPS: [Group; 6] = [
    Group::Names,
    Group::Statement,
    Group::Expression,
    Group::Type,
    Group::Operator,
    Group::Assignment,
];

impl Group {
    fn name(self) -> &'static str {
        match self {
            Group::Statement => "a statement",
            Group::Expression => "an expression",
            Group::Type => "a type",
            Group::Operator => "an operator",
            Group::Assignment => "an assignment",
            Group::Names => "",
        }
    }

    // The group is said where all of these could stand.
    fn keys(self) -> &'static str {
        match self {
            Group::Statement => "if while return",
            Group::Expression => "0 name (",
            Group::Type => "int boolean Point",
            Group::Operator => "+ * <",
            Group::Assignment => "= += ++",
            Group::Names => "name",
        }
    }

    // The texts that needn't be listed then.
    fn members(self) -> &'static str {
        match self {
            Group::Statement => {
                "{ ; if while for foreach break continue return println System Ti this name ( \
                 boolean int long Point RectDomain Domain SharedRegion String"
            }
            Group::Expression => "0 0L true false null this name ( [ + - ~ ! Ti",
            Group::Type => "boolean int long Point RectDomain Domain SharedRegion name",
            Group::Operator => "+ - * / % << >> >>> < <= > >= == != & | ^ && ||",
            Group::Assignment => "= += -= *= /= %= &= |= ^= <<= >>= >>>= ++ --",
            Group::Names => "barrier from in numProcs out thisProc",
        }
    }

    fn applies(self, reasons: &[ReasonSpan]) -> bool {
        for key in self.keys().split(' ') {
            if !is_expected(reasons, key) {
                return false;
            }
        }
        true
    }

    fn has(self, text: &[u8]) -> bool {
        for member in self.members().split(' ') {
            if member.as_bytes() == text {
                return true;
            }
        }
        false
    }
}

fn text_of(reason: &ReasonSpan) -> &[u8] {
    match &reason.kind {
        ReasonKind::Expected(text) => text.as_bytes(),
        _ => b"",
    }
}

/// Whether a token of this text could stand at the position of the error.
pub fn is_expected(reasons: &[ReasonSpan], text: &str) -> bool {
    for reason in reasons {
        if text_of(reason) == text.as_bytes() {
            return true;
        }
    }
    false
}

// Whether a group that is said has this text.
fn is_covered(reasons: &[ReasonSpan], text: &[u8]) -> bool {
    for group in &GROUPS {
        if group.has(text) && group.applies(reasons) {
            return true;
        }
    }
    false
}

// Appends how a text is listed: the sample of a kind of token by the name of the kind, any other one by itself.
fn push_text(out: &mut String, text: &[u8]) -> Result<(), AllocError> {
    if text == "name".as_bytes() {
        out.push_str("a name")
    } else if text == "0".as_bytes() {
        out.push_str("an int literal")
    } else if text == "0L".as_bytes() {
        out.push_str("a long literal")
    } else if text == "\"\"".as_bytes() {
        out.push_str("a string")
    } else {
        out.push('`')?;
        for byte in text {
            out.push(char::from(*byte))?;
        }
        out.push('`')
    }
}

// The names of the groups that are said, then the texts that no group has, then the end of the source.
fn items_of(alloc: Global, reasons: &[ReasonSpan]) -> Result<Vec<String>, NoMemory> {
    let mut items = Vec::new(alloc);
    for group in &GROUPS {
        if !group.name().is_empty() && group.applies(reasons) {
            let mut item = String::new(alloc);
            item.push_str(group.name())?;
            items.push(item)?;
        }
    }
    for reason in reasons {
        let text = text_of(reason);
        if !text.is_empty() && !is_covered(reasons, text) {
            let mut item = String::new(alloc);
            push_text(&mut item, text)?;
            items.push(item)?;
        }
        if let ReasonKind::ExpectedEnd = &reason.kind {
            items.push(String::from_str(alloc, "the end of the source")?)?;
        }
    }
    Ok(items)
}

/// What is expected in place of the token, as `expected A, B or C, found D`; empty if the reasons don't say. The end of the source is an empty
/// token.
pub fn expectation(alloc: Global, reasons: &[ReasonSpan], token: &str) -> Result<String, NoMemory> {
    let items = items_of(alloc, reasons)?;
    let mut out = String::new(alloc);
    let shown = items.len().min(MOST_TEXTS);
    for (i, item) in items.iter().enumerate() {
        if i >= shown {
            break;
        }
        out.push_str(if i == 0 {
            "expected "
        } else if i.saturating_add(1) == items.len() {
            " or "
        } else {
            ", "
        })?;
        out.push_str(item.as_str())?;
    }
    if shown == 0 {
        return Ok(out);
    }
    if shown < items.len() {
        out.push_str(" and others")?;
    }
    if token.is_empty() {
        out.push_str(", found the end of the source")?;
    } else {
        out.push_str(", found `")?;
        out.push_str(token)?;
        out.push('`')?;
    }
    Ok(out)
}
