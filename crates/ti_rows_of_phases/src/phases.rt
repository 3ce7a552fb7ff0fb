// Runs single phases of the compiler on the source of a row and prints the result: tokens, trees, programs, scopes, types, or that the
// phase accepts it. Each kind of row is the name of a phase and of what is printed.

ghost use Rattle.std.specs.Prelude.{IfOk};
ghost use Rattle.ti_parse_expr.specs.Answers.{EndsAtEnd};

use crate::debug_text::debug_text;
use crate::no_result::{NO_ROW, NoResult};
use crate::program_text::ProgramNode;
use crate::tree_text::TreeNode;
use crate::typing::type_printed;
use std::alloc::{AllocError, Global};
use ti_base::Place;
use ti_check::check;
use ti_lang::program::{Program, ProgramData, Scope, Ty};
use ti_lex::lex;
use ti_names::resolve;
use ti_parse::parse;
use ti_parse_expr::{Form, parse_expr};
use ti_row_files::RowErr;
use ti_rules::{Checked, Refusal, Rule};
use ti_syntax::Token;
use ti_syntax::tree::{Class, Expr, Member, Tree};

/// Lexes a source. The last token is the end of the source.
fn tokens(alloc: Global, text: &[u8]) -> Result<Vec<Token>, NoResult>
    ensures { IfOk result (λ list. EndsAtEnd list.items) }
{
    Ok(lex(alloc, text)?)
}

/// Lexes and parses a source.
fn parse_source(alloc: Global, text: &[u8]) -> Result<Tree, NoResult> {
    let list = tokens(alloc, text)?;
    Ok(parse(alloc, &list)?)
}

/// Compiles a source up to name resolution.
pub(crate) fn resolve_source(alloc: Global, text: &[u8]) -> Result<Program, NoResult> {
    let tree = parse_source(alloc, text)?;
    Ok(resolve(alloc, &tree)?)
}

/// Compiles a source up to name resolution and checks all further rules.
pub(crate) fn check_source(alloc: Global, text: &[u8]) -> Result<Checked, NoResult> {
    let program = resolve_source(alloc, text)?;
    Ok(check(alloc, program)?)
}

/// Appends `place=kind` of a token, after a space unless it is the first.
fn push_token(alloc: Global, listed: &mut String, token: &Token) -> Result<(), AllocError> {
    let space = if listed.is_empty() { "" } else { " " };
    listed.push_str(&format!(in alloc; "{space}{:?}={:?}", token.place, token.kind)?)
}

/// Tokens with their places, in order, separated by spaces.
fn tokens_text(alloc: Global, tokens: &[Token]) -> Result<String, AllocError> {
    let mut listed = String::new(alloc);
    for token in tokens {
        push_token(alloc, &mut listed, token)?;
    }
    Ok(listed)
}

/// Row kind `tokens`: the tokens of a source with their places.
fn token_list(alloc: Global, text: &[u8]) -> Result<String, NoResult> {
    let list = tokens(alloc, text)?;
    Ok(tokens_text(alloc, &list)?)
}

/// Parses the longest expression of a form that starts at token `at`, with `weight` used before it. Returns its tree, the index of the
/// token after it, and the weight used up to there. `NO_ROW` if there is no token `at`.
fn read_expr(
    alloc: Global,
    text: &[u8],
    form: Form,
    at: usize,
    weight: u32,
) -> Result<(Expr, usize, u32), NoResult> {
    let list = tokens(alloc, text)?;
    if at < list.len() {
        Ok(parse_expr(alloc, &list, at, form, weight)?)
    } else {
        Err(NO_ROW)
    }
}

/// Appends to a result the index of the token after the expression, as `tokens`, and the weight used up to there.
fn with_weight(alloc: Global, text: &str, behind: usize, used: u32) -> Result<String, AllocError> {
    format!(in alloc; "{text}, {behind} tokens, weight {used}")
}

/// The tree of the longest expression of a form at the start of a source, with the number of its tokens and the weight used.
fn expression(alloc: Global, text: &[u8], form: Form, weight: u32) -> Result<String, NoResult> {
    let (tree, behind, used) = read_expr(alloc, text, form, 0, weight)?;
    let text = debug_text(alloc, TreeNode::Expr(&tree))?;
    Ok(with_weight(alloc, text.as_str(), behind, used)?)
}

/// The place of the longest expression that starts at token `at`, with the index of the token after it and the weight used.
fn extent(alloc: Global, text: &[u8], at: usize, weight: u32) -> Result<String, NoResult> {
    let (tree, behind, used) = read_expr(alloc, text, Form::Whole, at, weight)?;
    let place = format!(in alloc; "{:?}", tree.place())?;
    Ok(with_weight(alloc, place.as_str(), behind, used)?)
}

/// The statements of the only member of the only class, if that is a method; else nothing.
fn body(alloc: Global, tree: &Tree) -> Result<String, AllocError> {
    let [Class { members, .. }] = tree.classes.as_slice() else {
        return Ok(String::new(alloc));
    };
    let [Member::Method(method)] = members.as_slice() else {
        return Ok(String::new(alloc));
    };
    debug_text(alloc, TreeNode::Stmts(&method.body))
}

/// Row kind `statements`: the trees of the statements of a source whose only class has one method and no other member.
fn statements(alloc: Global, text: &[u8]) -> Result<String, NoResult> {
    let tree = parse_source(alloc, text)?;
    Ok(body(alloc, &tree)?)
}

/// Row kind `tree`: the syntax tree of a source.
fn tree(alloc: Global, text: &[u8]) -> Result<String, NoResult> {
    let tree = parse_source(alloc, text)?;
    let classes = debug_text(alloc, TreeNode::Classes(&tree.classes))?;
    Ok(format!(in alloc; "Tree {{ classes: {classes} }}")?)
}

/// Row kind `program`: the parts of a program after name resolution.
fn program(alloc: Global, text: &[u8]) -> Result<String, NoResult> {
    let program = resolve_source(alloc, text)?;
    Ok(debug_text(alloc, ProgramNode::ProgramData(&program.parts))?)
}

/// Compares a copy with its original as they are printed: `the same`, or else the printed copy.
fn compare_copy(
    alloc: Global,
    parts: &ProgramData,
    copy: &ProgramData,
) -> Result<String, AllocError> {
    let original = debug_text(alloc, ProgramNode::ProgramData(parts))?;
    let copied = debug_text(alloc, ProgramNode::ProgramData(copy))?;
    if copied == original {
        String::from_str(alloc, "the same")
    } else {
        Ok(copied)
    }
}

/// Row kind `copy`: whether a copy of a resolved program is printed like the original.
fn copy(alloc: Global, text: &[u8]) -> Result<String, NoResult> {
    let program = resolve_source(alloc, text)?;
    let copy = program.copy(alloc)?;
    Ok(compare_copy(alloc, &program.parts, &copy.parts)?)
}

/// `accepted` if a phase succeeded; else its error.
fn phase_result<T: Drop>(alloc: Global, answer: Result<T, NoResult>) -> Result<String, NoResult> {
    answer?;
    Ok(String::from_str(alloc, "accepted")?)
}

/// The error with which the lexer or parser rejects a source; `None` if they accept it.
fn refusal_of(alloc: Global, text: &[u8]) -> Result<Option<Refusal>, NoResult> {
    match parse_source(alloc, text) {
        Ok(_) => Ok(None),
        Err(NoResult::Refused(refusal)) => Ok(Some(refusal)),
        Err(stopped) => Err(stopped),
    }
}

/// The place of the byte after one at `place`: a newline starts a line, any other byte is one column wide.
fn place_behind(place: Place, byte: u8) -> Place {
    let (line, col) = match byte {
        b'\n' => (place.line.saturating_add(1), 1),
        _ => (place.line, place.col.saturating_add(1)),
    };
    Place { line, col }
}

/// Whether a prefix that ends at `end` may be rejected only because it ends there: for an unexpected token or an open string, at `end` or
/// before it.
fn stands_by(refusal: Refusal, end: Place) -> bool {
    matches!(refusal.rule, Rule::G1 | Rule::X3) && !end.is_before(refusal.place)
}

/// Appends the length of a prefix if it is accepted, and the length after `!` if it is rejected for something other than its end at `end`.
fn push_front(
    alloc: Global,
    fronts: &mut String,
    count: usize,
    refusal: Option<Refusal>,
    end: Place,
) -> Result<(), AllocError> {
    match refusal {
        None => fronts.push_str(&format!(in alloc; " {count}")?),
        Some(refusal) if stands_by(refusal, end) => Ok(()),
        Some(_) => fronts.push_str(&format!(in alloc; " !{count}")?),
    }
}

/// Row kind `fronts`: checks every prefix of a source, from the empty one to the whole, by the grammar. Lists the lengths in bytes of those
/// that are accepted and, after `!`, of those that are rejected for something other than their end.
fn fronts(alloc: Global, text: &[u8]) -> Result<String, NoResult> {
    let mut fronts = String::from_str(alloc, "accepted")?;
    let mut end = Place::first();
    for count in 0..=text.len() {
        let refusal = refusal_of(alloc, &text[..count])?;
        push_front(alloc, &mut fronts, count, refusal, end)?;
        if let Some(byte) = text.get(count) {
            end = place_behind(end, *byte);
        }
    }
    Ok(fronts)
}

/// The scope at the first statement of the first method. `NO_ROW` if the program has no method.
pub(crate) fn scope_of(alloc: Global, program: &Program) -> Result<Scope, NoResult> {
    if program.parts.methods.is_empty() {
        Err(NO_ROW)
    } else {
        Ok(Scope::begin(alloc, program, 0)?)
    }
}

/// The scope at the first statement of the first method of a source.
fn first_scope(alloc: Global, text: &[u8]) -> Result<Scope, NoResult> {
    let program = resolve_source(alloc, text)?;
    scope_of(alloc, &program)
}

/// Adds variable 2, a boolean that isn't single, and prints the scope.
fn grown(alloc: Global, scope: &mut Scope) -> Result<String, NoResult> {
    scope.push(2, Ty::Bool, false)?;
    Ok(debug_text(alloc, ProgramNode::Scope(scope))?)
}

/// Truncates a scope to its first variable, sets an innermost loop and resets it. Appends to `grown` the scope after that, the previous
/// loops that both calls of `set_loop` return, and the loop that remains.
fn cut(alloc: Global, scope: &mut Scope, grown: &str) -> Result<String, AllocError> {
    scope.cut(1);
    let none = scope.set_loop(Some(Place { line: 2, col: 3 }));
    let set = scope.set_loop(None);
    let left = debug_text(alloc, ProgramNode::Scope(scope))?;
    format!(in alloc;
        "{grown}; {left}; {none:?} {set:?} {:?}",
        scope.innermost_loop
    )
}

/// Row kind `scope`: the scope at the first method's first statement, after a variable is added, and after that is undone.
fn scope(alloc: Global, text: &[u8]) -> Result<String, NoResult> {
    let mut scope = first_scope(alloc, text)?;
    let grown = grown(alloc, &mut scope)?;
    Ok(cut(alloc, &mut scope, grown.as_str())?)
}

/// The form that a row kind parses, and the weight used before it: 255 for `expression-behind-255`. `None` for any other kind.
fn read_as(asked: &str) -> Option<(Form, u32)> {
    match asked {
        "expression" => Some((Form::Whole, 0)),
        "product" => Some((Form::Mul, 0)),
        "operand" => Some((Form::Postfix, 0)),
        "expression-behind-255" => Some((Form::Whole, 255)),
        "expression-behind-256" => Some((Form::Whole, 256)),
        "expression-behind-257" => Some((Form::Whole, 257)),
        _ => None,
    }
}

/// Runs a row kind that parses one expression. `RowErr::Heading` if there is no such kind.
fn shown_expression(alloc: Global, asked: &str, text: &[u8]) -> Result<String, NoResult> {
    match asked {
        "extent" => extent(alloc, text, 0, 0),
        "extent-at-2-behind-7" => extent(alloc, text, 2, 7),
        _ => match read_as(asked) {
            Some((form, weight)) => expression(alloc, text, form, weight),
            None => Err(NoResult::Row(RowErr::Heading)),
        },
    }
}

/// Runs a row kind that needs a resolved program, or one that parses one expression.
fn shown_program(alloc: Global, asked: &str, text: &[u8]) -> Result<String, NoResult> {
    match asked {
        "names" => phase_result(alloc, resolve_source(alloc, text)),
        "program" => program(alloc, text),
        "copy" => copy(alloc, text),
        "scope" => scope(alloc, text),
        "type" => type_printed(alloc, text),
        "rules" => phase_result(alloc, check_source(alloc, text)),
        _ => shown_expression(alloc, asked, text),
    }
}

/// Runs any row kind that only needs a source, such as `tokens`.
fn source_result(alloc: Global, asked: &str, text: &[u8]) -> Result<String, NoResult> {
    match asked {
        "tokens" => token_list(alloc, text),
        "tree" => tree(alloc, text),
        "statements" => statements(alloc, text),
        "grammar" => phase_result(alloc, parse_source(alloc, text)),
        "fronts" => fronts(alloc, text),
        _ => shown_program(alloc, asked, text),
    }
}

/// The result of the row kind `asked` on a source, as bytes. Stops at the first phase that rejects the source.
pub(crate) fn phase(alloc: Global, asked: &str, text: &[u8]) -> Result<Vec<u8>, NoResult> {
    Ok(source_result(alloc, asked, text)?.into_bytes())
}
