// Theorems about static types.
ghost use Rattle.std.specs.Prelude.{◌≡◌, ℕ, Bool, Option, Some};
ghost use Rattle.ti_lang.specs.Program.Types.{ValueType};
ghost use Rattle.ti_lang.specs.Program.Expressions.{NumberedExp};
ghost use Rattle.ti_lang.specs.Program.Classes.{ProgramView};
ghost use Rattle.ti_lang.specs.Typing.Kinds.{is_point_type, class_of_type};
ghost use Rattle.ti_lang.specs.Program.Scope.{ScopeContents};
ghost use Rattle.ti_lang.specs.Typing.Expressions.{expr_type};
ghost use Rattle.ti_lang.specs.Typing.TextTypes.{static_element_type, type_at, AreDims};

/// Whether an expression is a point, its class and its element type don't depend on the dimensions of foreach variables.
pub fn forms_have_no_dimensions()
    ensures points { (program : ProgramView) (this : Option ℕ) (dims other : ℕ → ℕ) (x : NumberedExp)
        → is_point_type (type_at program this dims x) ≡ is_point_type (type_at program this other x) }
    ensures classes { (program : ProgramView) (this : Option ℕ) (dims other : ℕ → ℕ) (x : NumberedExp)
        → class_of_type (type_at program this dims x) ≡ class_of_type (type_at program this other x) }
    ensures elements { (program : ProgramView) (this : Option ℕ) (dims other : ℕ → ℕ) (x : NumberedExp)
        → static_element_type (type_at program this dims x) ≡ static_element_type (type_at program this other x) }
{}

/// If the typing rules give an expression a type in a scope, it is its static type, with the dimensions that the scope gives the
/// foreach variables.
pub fn types_agree()
    ensures { (program : ProgramView) (s : ScopeContents) (dims : ℕ → ℕ) (x : NumberedExp) (type : ValueType) → AreDims s dims x
        → expr_type program s x ≡ Some type → type_at program s.this_class dims x ≡ type }
{}
