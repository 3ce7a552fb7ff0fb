// Types, and uses of variables.

use ti_syntax::tree::{Brackets, Qualifier};

/// A type, without `single`.
#[derive(Drop)]
#[cycle(ty)]
pub enum Ty {
    Int,
    Long,
    Bool,
    /// `Point<N>`
    Pt(u8),
    /// `RectDomain<N>`
    Rc(u8),
    /// `Domain<N>`
    Dm(u8),
    /// `SharedRegion`
    Region,
    /// An object of the class of this number.
    Class { class: u32, local: bool },
    /// `T [Nd]`, local or global.
    Grid { elem: Box<Ty>, dim: u8, local: bool },
    /// The type of `null`.
    Null,
    /// The type of a call of a method without a result.
    Void,
}

/// A type as it is written, with its qualifiers.
#[derive(Drop)]
pub struct TypeUse {
    pub ty: Ty,
    /// Whether what has this type is single: initially, whether it is written `single`; inference of annotations changes it.
    pub single: bool,
    /// The qualifiers of the base, which follow it.
    pub qualifiers: Vec<Qualifier>,
    /// The brackets, from the outermost grid on, each with the qualifiers that follow it.
    pub grids: Vec<Brackets>,
}

/// The declaration of a variable.
#[derive(Drop)]
pub enum Declared {
    /// Its type, and whether it is single.
    Typed { single: bool, ty: Ty },
    /// A foreach variable, which is declared by its name only; it iterates over the points of a domain.
    Foreach,
}

/// A use of a variable: its number in its method, and its declaration.
#[derive(Drop)]
pub struct Variable {
    pub number: u32,
    pub declared: Declared,
}
