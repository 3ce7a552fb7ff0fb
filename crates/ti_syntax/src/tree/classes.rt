// Classes and their members, as parsed.

use super::stmts::Stmt;
use super::types::TypeName;
use crate::Spelled;
use ti_base::Place;

/// A modifier keyword of a class or a member.
#[derive(Clone, Copy, Debug, PartialEq, Eq)]
pub enum ModifierWord {
    Public,
    Private,
    Protected,
    Static,
    Final,
    Single,
}

/// An occurrence of a modifier, at the position of its keyword.
#[derive(Clone, Copy, Debug, PartialEq, Eq)]
pub struct Modifier {
    pub word: ModifierWord,
    pub place: Place,
}

/// A field declaration; `place` is the position of its name.
#[derive(Drop)]
pub struct Field {
    pub modifiers: Vec<Modifier>,
    pub ty: TypeName,
    pub place: Place,
    pub name: Spelled,
}

/// A parameter declaration; `place` is the position of its name.
#[derive(Drop)]
pub struct ParamDecl {
    pub ty: TypeName,
    pub place: Place,
    pub name: Spelled,
}

/// A method's parameter list.
#[derive(Drop)]
pub enum Params {
    /// `String[] x`, the parameter of `main`, at the name.
    MainArgs(Place, Spelled),
    Typed(Vec<ParamDecl>),
}

/// A method's declared result.
#[derive(Drop)]
pub enum ResultDecl {
    /// `void`, at its keyword.
    Void(Place),
    Typed(TypeName),
}

/// A method declaration; `place` is the position of its name, `end` that of its closing `}`.
#[derive(Drop)]
pub struct Method {
    pub modifiers: Vec<Modifier>,
    pub result: ResultDecl,
    pub place: Place,
    pub name: Spelled,
    pub params: Params,
    pub body: Vec<Stmt>,
    pub end: Place,
}

/// A member of a class.
#[derive(Drop)]
pub enum Member {
    Field(Field),
    Method(Method),
}

/// A class declaration; `place` is the position of its name, `word` that of the keyword `class`.
#[derive(Drop)]
pub struct Class {
    pub modifiers: Vec<Modifier>,
    pub word: Place,
    pub place: Place,
    pub name: Spelled,
    pub members: Vec<Member>,
}
