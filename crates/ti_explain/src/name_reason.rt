// Reasons for refusals by the rules of names, as data.

use ti_syntax::Spelled;

/// What a name would have to be where nothing of this name can be used.
#[derive(Clone, Copy, Debug)]
pub enum SoughtName {
    /// A variable in scope or a field of `this`.
    Variable,
    /// Before a dot: a variable in scope, a field of `this` or a class.
    BeforeDot,
    /// A method of the enclosing class.
    Method,
    /// A static method of the class before the dot.
    StaticMethod,
    /// A static field of the class before the dot: no class has one.
    StaticField,
    /// A class.
    Class,
    /// `this`, which a static method doesn't have.
    This,
}

/// What is wrong with `main`, or that there is none.
#[derive(Clone, Copy, Debug)]
pub enum MainDefect {
    /// There is no class `Main`.
    NoClass,
    /// Class `Main` has no method `main`.
    NoMethod,
    /// It isn't declared `public`.
    NotPublic,
    /// It isn't declared `static`.
    NotStatic,
    /// It isn't declared `single`.
    NotSingle,
    /// It has other modifiers than `public`, `static` and `single`, or one of these twice.
    OtherModifiers,
    /// Its result isn't `void`.
    HasResult,
    /// Its parameters aren't `String[] x`.
    OtherParameters,
    /// Another method than `main` has the parameter `String[] x`.
    TextParameter,
}

/// What a reason for a refusal by a rule of names says of its position.
#[derive(Debug, Drop)]
pub enum NameReason {
    /// What the name that is refused would have to be.
    Sought(SoughtName),
    /// A variable of this name is declared here, after the use.
    DeclaredLater,
    /// A variable of this name is declared here, and isn't in scope at the use.
    OutOfScope,
    /// The parameter of `main` has this name, and is no variable.
    MainParameter,
    /// A field of this name is declared here, in the class of that name.
    FieldOf(Spelled),
    /// An instance method of this name is declared here, in the class of that name.
    MethodOf(Spelled),
    /// A static method of this name is declared here, in the class of that name.
    StaticMethodOf(Spelled),
    /// The method around the use is static, so it has no `this`.
    StaticAround,
    /// A name of the kind that is sought is declared here, with nearly this spelling.
    NearSpelling(Spelled),
    /// The first declaration of a name that is declared again.
    FirstDeclaration,
    /// The first of the variables in scope, where there are too many.
    FirstInScope,
    /// What is wrong with `main`.
    Main(MainDefect),
}
