// The rules of the language, with their codes and messages.
ghost use Rattle.std.specs.Prelude.{◌≡◌};
ghost use Rattle.ti_rules.specs.Rules.{code_of, rule_number, text_of};

/// A rule of the language, named by its code in error messages.
///
/// The order of the variants is that of the rules: of two that are broken at one position, the one listed first is reported.
#[derive(Clone, Copy, Debug, PartialEq, Eq)]
pub enum Rule {
    /// A byte that begins no token, or that can't occur in a string.
    X1,
    /// A `/*` without `*/`.
    X2,
    /// A string whose line, or whose source, ends before its closing quote.
    X3,
    /// A number literal, with or without `L` or `l` after it, that is out of range or has a leading 0.
    X4,
    /// A source of more than 1048576 bytes.
    X5,
    /// A token that the grammar doesn't allow after those before it.
    G1,
    /// A token nested too deeply in statements or in an expression.
    G2,
    /// A name that refers to nothing, or `this` in a static method.
    N1,
    /// A name that is declared already.
    N2,
    /// No `public static single void main(String[] x)` in a class `Main`, or such a parameter in another method.
    N3,
    /// The 201st variable in scope.
    N4,
    /// Operands that the operator or form doesn't accept, or an unknown member.
    Y1,
    /// A value that doesn't fit its target, or an assignment to a foreach variable.
    Y2,
    /// A condition that isn't boolean.
    Y3,
    /// A wrong number of arguments.
    Y4,
    /// Operands or a value that would be accepted with other numbers of dimensions.
    Y5,
    /// A void value, a call where none is allowed, or a `return` that doesn't match its method.
    Y6,
    /// A qualifier or modifier where it isn't allowed, or a duplicate.
    Y7,
    /// A `break` or `continue` outside of the loops of its method.
    Y8,
    /// A global reference where a local one is expected.
    Q1,
    /// A store into a field or element of local type through a global reference.
    Q2,
    /// An exchange into elements of local type.
    Q3,
    /// An `if` with global effects and a plain condition, that is, one that isn't single.
    S1,
    /// A `while` or `for` with global effects and a plain condition.
    S2,
    /// A `foreach` with global effects and a plain domain.
    S3,
    /// A plain value for a single variable, in its declaration, an assignment or a compound assignment.
    S4,
    /// A plain argument for a single parameter.
    S5,
    /// Global effects in a method that isn't single.
    S6,
    /// A plain value returned by a method with a single result.
    S7,
    /// A plain root of a broadcast, or a plain region that is deleted.
    S8,
    /// A single result of a method that isn't single.
    S9,
    /// A collective that no assignment of `single` annotations aligns. S1 to S9 are the rules for the annotations in a source; this one is
    /// for a source whose annotations are to be inferred.
    B1,
}

impl Rule {
    /// The index of the rule in the order of the rules, from 0.
    pub fn number(self) -> u8
        ensures { result ≡ rule_number self }
    {
        self as u8
    }

    /// The code in an error message, such as `G1`.
    pub fn code(self) -> &'static str
        ensures { result.now ≡ code_of self }
    {
        match self {
            Rule::X1 => "X1",
            Rule::X2 => "X2",
            Rule::X3 => "X3",
            Rule::X4 => "X4",
            Rule::X5 => "X5",
            Rule::G1 => "G1",
            Rule::G2 => "G2",
            Rule::N1 => "N1",
            Rule::N2 => "N2",
            Rule::N3 => "N3",
            Rule::N4 => "N4",
            Rule::Y1 => "Y1",
            Rule::Y2 => "Y2",
            Rule::Y3 => "Y3",
            Rule::Y4 => "Y4",
            Rule::Y5 => "Y5",
            Rule::Y6 => "Y6",
            Rule::Y7 => "Y7",
            Rule::Y8 => "Y8",
            Rule::Q1 => "Q1",
            Rule::Q2 => "Q2",
            Rule::Q3 => "Q3",
            Rule::S1 => "S1",
            Rule::S2 => "S2",
            Rule::S3 => "S3",
            Rule::S4 => "S4",
            Rule::S5 => "S5",
            Rule::S6 => "S6",
            Rule::S7 => "S7",
            Rule::S8 => "S8",
            Rule::S9 => "S9",
            Rule::B1 => "B1",
        }
    }
}

/// The message after the rule's code.
pub fn rule_text(rule: Rule) -> &'static str
    ensures { result.now ≡ text_of rule }
{
    match rule {
        Rule::X1 => "a byte outside the language",
        Rule::X2 => "a comment without end",
        Rule::X3 => "a string without end",
        Rule::X4 => "a number literal out of range",
        Rule::X5 => "the source is too long",
        Rule::G1 => "an unexpected token",
        Rule::G2 => "nested too deeply",
        Rule::N1 => "an unknown name",
        Rule::N2 => "a name declared twice",
        Rule::N3 => "no method Main.main of the required form",
        Rule::N4 => "too many variables in scope",
        Rule::Y1 => "an operand of the wrong type",
        Rule::Y2 => "a value of the wrong type",
        Rule::Y3 => "a condition that isn't boolean",
        Rule::Y4 => "the wrong number of arguments",
        Rule::Y5 => "the wrong dimension",
        Rule::Y6 => "a value is missing or a call can't stand here",
        Rule::Y7 => "a qualifier can't stand here",
        Rule::Y8 => "a break or continue outside a loop",
        Rule::Q1 => "a global reference where local is wanted",
        Rule::Q2 => "a local part written through a global reference",
        Rule::Q3 => "an exchange into local elements",
        Rule::S1 => "an if with global effects needs a single condition",
        Rule::S2 => "a loop with global effects needs a single condition",
        Rule::S3 => "a foreach with global effects needs a single domain",
        Rule::S4 => "a plain value for a single variable",
        Rule::S5 => "a plain argument for a single parameter",
        Rule::S6 => "global effects in a method that isn't single",
        Rule::S7 => "a plain value returned as single",
        Rule::S8 => "a root or region that isn't single",
        Rule::S9 => "a single result of a method that isn't single",
        Rule::B1 => "no marking of single values aligns the collectives",
    }
}
