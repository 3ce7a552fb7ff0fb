// The words for reasons of the rules of types and qualifiers. An operand of the wrong type (Y1) is reported at a token that tells the form of
// the expression or statement: the name of a member, the `[` of an index or a literal, the `(` of a cast, or a keyword.

use crate::tokens::token_at;
use std::alloc::AllocError;
use ti_explain::{
    Explanation, ReasonKind, ReasonSpan, TargetDefect, TypeReason, ValueDefect, WordDefect,
};
use ti_rules::Rule;
use ti_syntax::Spelled;

// ---- what is wrong

fn value_words(defect: ValueDefect) -> &'static str {
    match defect {
        ValueDefect::InnerCall => {
            "a call of a declared method must be a statement, or all that is right of a `=`"
        }
        ValueDefect::NoValue => "this call gives no value",
        ValueDefect::ReturnsNothing => "the method has a result, so it must return a value",
        ValueDefect::ReturnsValue => "the method is `void`, so it can't return a value",
        ValueDefect::NoLastReturn => {
            "this method has a result, so its last statement must be a `return`"
        }
    }
}

fn value_help(defect: ValueDefect) -> &'static str {
    match defect {
        ValueDefect::InnerCall => {
            "store what it gives in a variable, as `int x = f(..);`, and use that; a `void` call stands alone"
        }
        ValueDefect::NoValue =>
            "write the call as a statement of its own, or let the method return a value",
        ValueDefect::ReturnsNothing =>
            "write the value after `return`, or declare the method `void`",
        ValueDefect::ReturnsValue =>
            "declare the type of the value in place of `void`, or write `return;`",
        ValueDefect::NoLastReturn => {
            "for `if (..) return a; else return b;` write `if (..) return a; return b;`; \
             after a loop append a `return`"
        }
    }
}

fn word_words(defect: WordDefect) -> &'static str {
    match defect {
        WordDefect::Once => "this keyword can be here only once",
        WordDefect::SingleField => "no field is `single`",
        WordDefect::StaticField => "no field is `static`",
        WordDefect::SingleInstance => "only a static method can be single",
        WordDefect::SingleReference => "no type of objects or grids is `single`",
        WordDefect::SingleThere => {
            "`single` can be in the type of a variable, of a result, and of a parameter of a single method"
        }
        WordDefect::LocalValue => "only types of objects and grids can be `local`",
    }
}

fn word_help(defect: WordDefect) -> &'static str {
    match defect {
        WordDefect::Once | WordDefect::LocalValue | WordDefect::SingleReference => "remove it",
        WordDefect::SingleField => "remove it: a field may differ between processes",
        WordDefect::StaticField => {
            "remove it: each object has its own fields, so pass a common value as an argument"
        }
        WordDefect::SingleInstance => {
            "declare the method `static single`, and pass the object as an argument"
        }
        WordDefect::SingleThere => "remove it; for a parameter, declare the method `static single`",
    }
}

fn target_words(defect: TargetDefect) -> &'static str {
    match defect {
        TargetDefect::Coordinate => "this is a coordinate of a point, and points can't change",
        TargetDefect::ForeachVariable => "this is the variable of a `foreach`, which can't change",
        TargetDefect::HiddenLocal => {
            "this is of a local type, and reached through a global reference"
        }
    }
}

fn target_help(defect: TargetDefect) -> &'static str {
    match defect {
        TargetDefect::Coordinate => "make a new point, as `p + [1, 0]`",
        TargetDefect::ForeachVariable =>
            "declare a variable in the loop, and give it the value of the point",
        TargetDefect::HiddenLocal => "",
    }
}

// ---- one reason

fn push_spelled(label: &mut String, spelled: &Spelled) -> Result<(), AllocError> {
    label.push('`')?;
    for byte in spelled.as_bytes() {
        label.push(char::from(*byte))?;
    }
    label.push('`')
}

fn is_void(ty: &Spelled) -> bool {
    ty.as_bytes() == "void".as_bytes()
}

fn push_count(label: &mut String, count: usize) -> Result<(), AllocError> {
    match count {
        0 => label.push_str("no arguments"),
        1 => label.push_str("1 argument"),
        2 => label.push_str("2 arguments"),
        3 => label.push_str("3 arguments"),
        4 => label.push_str("4 arguments"),
        _ => label.push_str("more arguments than 4"),
    }
}

// The label of a reason of the rules of types; `token` is the token at its position.
pub(crate) fn push_type_reason(
    label: &mut String,
    reason: &TypeReason,
    token: &str,
) -> Result<(), AllocError> {
    match reason {
        TypeReason::Has(ty) => {
            label.push_str("this is ")?;
            push_spelled(label, ty)
        }
        TypeReason::Wants(ty) if is_void(ty) => label.push_str("no value is wanted here"),
        TypeReason::Wants(ty) => {
            label.push_str("a value of type ")?;
            push_spelled(label, ty)?;
            label.push_str(" is wanted here")
        }
        TypeReason::Takes(count) => {
            label.push('`')?;
            label.push_str(token)?;
            label.push_str("` takes ")?;
            push_count(label, *count)
        }
        TypeReason::Member => {
            label.push('`')?;
            label.push_str(token)?;
            label.push_str("` is a member")
        }
        TypeReason::Value(defect) => label.push_str(value_words(*defect)),
        TypeReason::Word(defect) => label.push_str(word_words(*defect)),
        TypeReason::Target(defect) => label.push_str(target_words(*defect)),
    }
}

// ---- the position of the error

// What is at the position of an operand of the wrong type.
#[derive(Clone, Copy)]
enum OperandForm {
    Size,
    Member,
    Index,
    Cast,
    New,
    Foreach,
    Broadcast,
    Printed,
    Operator,
}

impl OperandForm {
    fn at(token: &[u8]) -> OperandForm {
        if token == "length".as_bytes() || token == "size".as_bytes() {
            OperandForm::Size
        } else if token == "new".as_bytes() {
            OperandForm::New
        } else if token == "foreach".as_bytes() {
            OperandForm::Foreach
        } else if token == "broadcast".as_bytes() {
            OperandForm::Broadcast
        } else if token == "println".as_bytes() {
            OperandForm::Printed
        } else {
            OperandForm::by_first(token)
        }
    }

    fn by_first(token: &[u8]) -> OperandForm {
        match token.first() {
            Some(b'[') => OperandForm::Index,
            Some(b'(') => OperandForm::Cast,
            Some(first) if first.is_ascii_alphabetic() => OperandForm::Member,
            _ => OperandForm::Operator,
        }
    }

    fn label(self) -> &'static str {
        match self {
            OperandForm::Size | OperandForm::Member => {
                "this type has no such member, or not for these arguments"
            }
            OperandForm::Index =>
                "only grids and points have an index, and all indices and bounds are `int` values or points",
            OperandForm::Cast => "no cast leads from the type of the operand to this one",
            OperandForm::New => {
                "a grid is made by its bounds or by a domain, and its region is a region"
            }
            OperandForm::Foreach => "a `foreach` goes over a domain, and this isn't one",
            OperandForm::Broadcast => "what is sent, or from where, is of the wrong type",
            OperandForm::Printed => "no value of this type can be printed",
            OperandForm::Operator => "this operator doesn't accept operands of these types",
        }
    }

    fn help(self) -> &'static str {
        match self {
            OperandForm::Size => "the number of elements of a grid `a` is `a.domain().size()`",
            OperandForm::Member => {
                "look for the member in the list of those of its type; a field or method must be declared in its class"
            }
            OperandForm::Index =>
                "an `int` index counts from 0 for a point, and from the first bound for a grid",
            OperandForm::Cast =>
                "numbers can be cast to `int` and `long`, and references to local ones of their type",
            OperandForm::New =>
                "write the first and the last index: `new int [0:n - 1]` has `n` elements",
            OperandForm::Foreach => {
                "write `a.domain()` for a grid `a`; the variable is a point, and `a[p]` the element there"
            }
            OperandForm::Broadcast => {
                "broadcast a number, a boolean, a point, a rectangular domain or a reference, from an `int`"
            }
            OperandForm::Printed =>
                "only numbers, booleans and points can be printed: print the parts one by one",
            OperandForm::Operator => {
                "use operands of one type; no number is a `boolean`, and no object a number"
            }
        }
    }
}

// The first reason that says what is wrong with a value, a target or a keyword.
fn first_defect(reasons: &[ReasonSpan]) -> Option<&TypeReason> {
    for span in reasons {
        if let ReasonKind::Typing(reason) = &span.kind {
            match reason {
                TypeReason::Value(_) | TypeReason::Target(_) | TypeReason::Word(_) => {
                    return Some(reason);
                }
                _ => {}
            }
        }
    }
    None
}

fn defect_label(reason: &TypeReason, rule: Rule) -> &'static str {
    match reason {
        TypeReason::Value(defect) => value_words(*defect),
        TypeReason::Word(defect) => word_words(*defect),
        TypeReason::Target(_) if rule != Rule::Q2 => "nothing can be stored here",
        _ => "",
    }
}

fn defect_help(reason: &TypeReason) -> &'static str {
    match reason {
        TypeReason::Value(defect) => value_help(*defect),
        TypeReason::Word(defect) => word_help(*defect),
        TypeReason::Target(defect) => target_help(*defect),
        _ => "",
    }
}

fn form_of(text: &[u8], explanation: &Explanation) -> OperandForm {
    OperandForm::at(token_at(text, explanation.refusal.place, explanation.len))
}

/// What is wrong at the position of an error by the rules of types; empty if the label of its rule says as much.
pub(crate) fn type_label(text: &[u8], explanation: &Explanation) -> &'static str {
    let rule = explanation.refusal.rule;
    match first_defect(&explanation.reasons) {
        Some(reason) => defect_label(reason, rule),
        None => if rule == Rule::Y1 {
            form_of(text, explanation).label()
        } else {
            ""
        },
    }
}

/// A line of help for an error by the rules of types; empty if that for its rule says as much.
pub(crate) fn type_help(text: &[u8], explanation: &Explanation) -> &'static str {
    match first_defect(&explanation.reasons) {
        Some(reason) => defect_help(reason),
        None => if explanation.refusal.rule == Rule::Y1 {
            form_of(text, explanation).help()
        } else {
            ""
        },
    }
}

// Whether the reason is at the position of the error, whose label then says it.
fn is_there(explanation: &Explanation, reason: &ReasonSpan) -> bool {
    reason.place == explanation.refusal.place
}

/// Whether the label of the error says what the reason does, so that it needs no mark: a reason of the rules of types at the same position.
pub fn is_said(explanation: &Explanation, reason: &ReasonSpan) -> bool {
    matches!(&reason.kind, ReasonKind::Typing(_)) && is_there(explanation, reason)
}

fn push_own(label: &mut String, reason: &TypeReason) -> Result<(), AllocError> {
    match reason {
        TypeReason::Has(ty) => {
            label.push_str(": this is ")?;
            push_spelled(label, ty)
        }
        TypeReason::Wants(ty) => {
            label.push_str(": ")?;
            push_spelled(label, ty)?;
            label.push_str(" is wanted")
        }
        TypeReason::Takes(count) => {
            label.push_str(": this takes ")?;
            push_count(label, *count)
        }
        _ => Ok(()),
    }
}

/// Adds what the reasons of the rules of types say of the position of the error itself.
pub(crate) fn push_own_types(
    label: &mut String,
    explanation: &Explanation,
) -> Result<(), AllocError> {
    for span in &explanation.reasons {
        if let ReasonKind::Typing(reason) = &span.kind {
            if is_there(explanation, span) {
                push_own(label, reason)?;
            }
        }
    }
    Ok(())
}
