// Removes `single` from classes.
ghost use Rattle.std.specs.Prelude.{◌≡◌, map};
ghost use Rattle.ti_lang.specs.Program.Views.{numbered_field_of, numbered_class_of};
ghost use Rattle.ti_infer.specs.Stripped.{plain_field, plain_class};

use crate::strip::lists::{Stripped, strip_each};
use crate::strip::types::{strip_modifiers, strip_type};
use ti_lang::program::{Class, Field};

impl Stripped for Field {
    ghost plain = { λ a b. numbered_field_of b ≡ plain_field (numbered_field_of a) };

    fn strip(&mut self) {
        strip_modifiers(&mut self.modifiers);
        strip_type(&mut self.ty);
    }
}

impl Stripped for Class {
    ghost plain = { λ a b. numbered_class_of b ≡ plain_class (numbered_class_of a) };

    #[tactic(auto, using(crate::proofs::PlainParts::plain_lists))]
    fn strip(&mut self) {
        strip_each(&mut self.fields);
    }
}

/// Removes `single` from the fields of each of these classes.
#[tactic(auto, using(crate::proofs::PlainParts::plain_lists))]
pub fn strip_classes(classes: &mut Vec<Class>)
    ensures { map numbered_class_of classes.new.items ≡ map plain_class (map numbered_class_of classes.old.items) }
{
    strip_each(classes);
}
