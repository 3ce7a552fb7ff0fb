// The words for reasons of the rules of names.

use std::alloc::AllocError;
use ti_explain::{MainDefect, NameReason, ReasonKind, SoughtName};
use ti_syntax::Spelled;

fn sought_words(sought: SoughtName) -> &'static str {
    match sought {
        SoughtName::Variable => "no variable of this name is in scope here",
        SoughtName::BeforeDot => "this is neither a variable in scope nor a class",
        SoughtName::Method => "this class has no method of this name that can be called here",
        SoughtName::StaticMethod => { "the class before the dot has no static method of this name" }
        SoughtName::StaticField =>
            "only objects have fields, and this is after the name of a class",
        SoughtName::Class => "there is no class of this name",
        SoughtName::This => "a static method has no `this`",
    }
}

fn defect_words(defect: MainDefect) -> &'static str {
    match defect {
        MainDefect::NoClass => "the program has no class `Main`",
        MainDefect::NoMethod => "class `Main` has no method `main`",
        MainDefect::NotPublic => "`public` is missing",
        MainDefect::NotStatic => "`static` is missing",
        MainDefect::NotSingle => "`single` is missing",
        MainDefect::OtherModifiers => {
            "there is a modifier beside `public`, `static` and `single`, or one of them twice"
        }
        MainDefect::HasResult => "its result must be `void`",
        MainDefect::OtherParameters => "its parameters must be `String[] args`",
        MainDefect::TextParameter => "no other method can have a `String[]` parameter",
    }
}

/// What a reason says of the position of the refusal itself, in place of the label of its rule; empty if it says nothing of it.
pub(crate) fn own_label(kind: &ReasonKind) -> &'static str {
    match kind {
        ReasonKind::Name(NameReason::Sought(sought)) => sought_words(*sought),
        ReasonKind::Name(NameReason::Main(MainDefect::NoClass)) => {
            defect_words(MainDefect::NoClass)
        }
        ReasonKind::Name(NameReason::Main(MainDefect::NoMethod)) => {
            defect_words(MainDefect::NoMethod)
        }
        ReasonKind::Name(NameReason::Main(MainDefect::TextParameter)) => {
            "this is not the method `main` of class `Main`"
        }
        ReasonKind::NestBegins => "this statement is the 65th level, and 64 are possible",
        ReasonKind::WeightBegins => {
            "this is the 257th bracket, dot or operator of the expression, and 256 are possible"
        }
        _ => "",
    }
}

/// Whether a reason of this kind says no more than the label of the error does, so that it needs no mark.
pub fn is_own(kind: &ReasonKind) -> bool {
    match kind {
        ReasonKind::Expected(_) | ReasonKind::ExpectedEnd => true,
        ReasonKind::Name(NameReason::Sought(_)) => true,
        ReasonKind::Name(NameReason::Main(MainDefect::NoClass)) => true,
        ReasonKind::Name(NameReason::Main(MainDefect::NoMethod)) => true,
        _ => false,
    }
}

fn push_spelled(label: &mut String, spelled: &Spelled) -> Result<(), AllocError> {
    label.push('`')?;
    for byte in spelled.as_bytes() {
        label.push(char::from(*byte))?;
    }
    label.push('`')
}

// A token and what is said of it, and then a class.
fn push_of_class(
    label: &mut String,
    token: &str,
    words: &str,
    class: &Spelled,
) -> Result<(), AllocError> {
    push_said(label, token, words)?;
    push_spelled(label, class)
}

// A token and what is said of it.
fn push_said(label: &mut String, token: &str, words: &str) -> Result<(), AllocError> {
    label.push('`')?;
    label.push_str(token)?;
    label.push_str(words)
}

// The label of a reason of the rules of names; `token` is the token at its position.
pub(crate) fn push_name_reason(
    label: &mut String,
    reason: &NameReason,
    token: &str,
) -> Result<(), AllocError> {
    match reason {
        NameReason::Sought(sought) => label.push_str(sought_words(*sought)),
        NameReason::DeclaredLater => push_said(
            label,
            token,
            "` is declared only here, after its use",
        ),
        NameReason::OutOfScope => push_said(
            label,
            token,
            "` is declared here, and can be used only after that, up to the end of its block",
        ),
        NameReason::MainParameter => {
            push_said(
                label,
                token,
                "` is the parameter of `main`, which can't be used",
            )
        }
        NameReason::FieldOf(class) => {
            push_of_class(label, token, "` is a field of the objects of class ", class)
        }
        NameReason::MethodOf(class) => {
            push_of_class(
                label,
                token,
                "` is a method of the objects of class ",
                class,
            )
        }
        NameReason::StaticMethodOf(class) => {
            push_of_class(label, token, "` is a static method of class ", class)
        }
        NameReason::StaticAround => push_said(label, token, "` is static, so it has no `this`"),
        NameReason::NearSpelling(_) => push_said(label, token, "` is spelled nearly the same"),
        NameReason::FirstDeclaration => push_said(label, token, "` is declared here first"),
        NameReason::FirstInScope => {
            push_said(
                label,
                token,
                "` is the first of the 200 variables in scope there",
            )
        }
        NameReason::Main(defect) => label.push_str(defect_words(*defect)),
    }
}

// The help for a reason of the rules of names; empty where the rule's own is enough.
pub(crate) fn name_help(reason: &NameReason) -> &'static str {
    match reason {
        NameReason::Sought(sought) => match sought {
            SoughtName::Variable => "declare a variable of this name before its use",
            SoughtName::BeforeDot => {
                "declare the variable before its use, or the class; classes of Java's library aren't there"
            }
            SoughtName::Method => "declare the method in this class",
            SoughtName::StaticMethod => "declare the static method in the class before the dot",
            SoughtName::StaticField => "make an object with `new`, and put it before the dot",
            SoughtName::Class =>
                "declare the class, or use `int`, `long` or `boolean`; types and classes of Java's library aren't there",
            SoughtName::This => "make an object with `new`, or leave `static` out",
        },
        NameReason::DeclaredLater => "declare the variable before its use",
        NameReason::OutOfScope =>
            "use it after its declaration, or declare it earlier, in a block that holds its use too",
        NameReason::MainParameter => "a program has no arguments: give a variable its value",
        NameReason::FieldOf(_) => {
            "make an object with `new`, and put it and a dot before the name of the field"
        }
        NameReason::MethodOf(_) => "declare the method `static`, or call it on an object",
        NameReason::StaticMethodOf(_) => "put the name of its class and a dot before it",
        NameReason::StaticAround => "make an object with `new`, or leave `static` out",
        NameReason::NearSpelling(_) => "correct the spelling, or declare the name",
        NameReason::FirstDeclaration => "",
        NameReason::FirstInScope => "",
        NameReason::Main(_) => "",
    }
}
