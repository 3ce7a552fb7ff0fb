// Chains such as `a[i].next.find(k)`: a name after a dot is that of a member of what is before the dot.

use crate::members::{
    MemberUse, class_around, class_named, has_this, is_static, member_named, use_of,
};
use crate::resolving::bare_name;
use crate::tokens::{after, close_of, is_before, is_kind, is_name, name_of, open_of};
use crate::variables::is_foreach;
use ti_syntax::{Token, TokenKind};

// What a part of a chain is: the class of an object, which is given by its name in its declaration, or a grid of that many dimensions of
// grids; or the class itself.
#[derive(Clone, Copy)]
enum Receiver {
    Object(usize),
    Grid(usize, usize),
    Class(usize),
}

// What has a type of this class, with this many brackets.
fn receiver_of(class: usize, brackets: usize) -> Receiver {
    if brackets == 0 {
        Receiver::Object(class)
    } else {
        Receiver::Grid(class, brackets)
    }
}

fn is_qualifier(tokens: &[Token], index: usize) -> bool {
    is_kind(tokens, index, &TokenKind::KeywordSingle)
        || is_kind(tokens, index, &TokenKind::KeywordLocal)
}

// The class of what is declared by the name at this index, if its type is of one.
fn declared_type(tokens: &[Token], index: usize) -> Option<Receiver> {
    if is_foreach(tokens, index) {
        return None;
    }
    let mut brackets = 0usize;
    for distance in 1..=index {
        let at = index.checked_sub(distance)?;
        if is_kind(tokens, at, &TokenKind::LeftBracket) {
            brackets = brackets.saturating_add(1);
        } else if let Some(name) = name_of(tokens, at) {
            return Some(receiver_of(class_named(tokens, name)?, brackets));
        } else if !is_type_rest(tokens, at) {
            return None;
        }
    }
    None
}

// Whether the token at this index may follow the base of a type, or be in its brackets.
fn is_type_rest(tokens: &[Token], index: usize) -> bool {
    is_qualifier(tokens, index)
        || is_kind(tokens, index, &TokenKind::RightBracket)
        || is_kind(tokens, index, &TokenKind::Dim(1))
}

// The member of this name and use that a receiver has.
fn member_in(tokens: &[Token], receiver: Receiver, name: &[u8], kind: MemberUse) -> Option<usize> {
    match receiver {
        Receiver::Object(class) => member_named(tokens, class, name, kind),
        Receiver::Grid(_, _) => None,
        Receiver::Class(class) => {
            let member = member_named(tokens, class, name, kind)?;
            if is_static(tokens, member) {
                Some(member)
            } else {
                None
            }
        }
    }
}

// The index of the last token of an operand without its brackets: that of its name, of `this`, or of what isn't known.
fn operand_end(tokens: &[Token], index: usize) -> Option<usize> {
    let mut at = index;
    for _ in 0..tokens.len() {
        let is_index = is_kind(tokens, at, &TokenKind::RightBracket);
        let is_call = is_kind(tokens, at, &TokenKind::RightParen);
        if !is_index && !is_call {
            return Some(at);
        }
        at = open_of(tokens, at)?.checked_sub(1)?;
        if is_call && !is_name(tokens, at) {
            return None;
        }
    }
    None
}

// The index of the first token of the chain that has the name at this index, which is after a dot.
fn chain_start(tokens: &[Token], index: usize) -> Option<usize> {
    let mut at = index;
    for _ in 0..tokens.len() {
        if !is_before(tokens, at, &TokenKind::Dot) {
            return Some(at);
        }
        at = operand_end(tokens, at.checked_sub(2)?)?;
    }
    None
}

// What the first part of a chain is.
fn first_receiver(tokens: &[Token], index: usize) -> Option<Receiver> {
    if is_kind(tokens, index, &TokenKind::KeywordThis) {
        return if has_this(tokens, index) {
            Some(Receiver::Object(class_around(tokens, index)?))
        } else {
            None
        };
    }
    let declared = bare_name(tokens, index)?;
    if is_before(tokens, declared, &TokenKind::KeywordClass) {
        Some(Receiver::Class(declared))
    } else {
        declared_type(tokens, declared)
    }
}

// The element of a grid after one index.
fn element_of(receiver: Receiver) -> Option<Receiver> {
    match receiver {
        Receiver::Grid(class, brackets) => { Some(receiver_of(class, brackets.saturating_sub(1))) }
        Receiver::Object(_) | Receiver::Class(_) => None,
    }
}

// A receiver, and the index of the token after it.
#[derive(Clone, Copy)]
struct Followed {
    receiver: Receiver,
    next: usize,
}

// The index after the name at this index and its arguments, if it has some.
fn after_name(tokens: &[Token], index: usize) -> Option<usize> {
    let next = after(index);
    match use_of(tokens, index) {
        MemberUse::Call => Some(after(close_of(tokens, next)?)),
        MemberUse::Field => Some(next),
    }
}

// The next part of a chain: an index, or a member.
fn next_part(tokens: &[Token], part: Followed) -> Option<Followed> {
    if is_kind(tokens, part.next, &TokenKind::LeftBracket) {
        return Some(Followed {
            receiver: element_of(part.receiver)?,
            next: after(close_of(tokens, part.next)?),
        });
    }
    let at = after(part.next);
    let name = name_of(tokens, at)?;
    let member = member_in(tokens, part.receiver, name, use_of(tokens, at))?;
    Some(Followed {
        receiver: declared_type(tokens, member)?,
        next: after_name(tokens, at)?,
    })
}

// What is before the dot at this index, in a chain that begins at another one.
fn receiver_before(tokens: &[Token], start: usize, dot: usize) -> Option<Receiver> {
    let mut part = Followed {
        receiver: first_receiver(tokens, start)?,
        next: after_name(tokens, start)?,
    };
    for _ in 0..tokens.len() {
        if part.next >= dot {
            return if part.next == dot {
                Some(part.receiver)
            } else {
                None
            };
        }
        part = next_part(tokens, part)?;
    }
    None
}

/// The declaration of the name at this index, which is after a dot.
pub fn member_at(tokens: &[Token], index: usize) -> Option<usize> {
    let name = name_of(tokens, index)?;
    let start = chain_start(tokens, index)?;
    let receiver = receiver_before(tokens, start, index.checked_sub(1)?)?;
    member_in(tokens, receiver, name, use_of(tokens, index))
}
