// The syntax tree of a complete program.

ghost use Rattle.ti_syntax.specs.Spelling.{IsSpelled};
ghost use Rattle.ti_syntax.specs.Trees.Views.{text_tree_of};

use super::classes::Class;

/// The tree of a program: its classes in source order. Invariant: some token list parses to it.
#[derive(Drop)]
pub struct Tree {
    pub classes: Vec<Class>,
    ghost spelled: { ∥ IsSpelled (text_tree_of classes) ∥₁ },
}
