// The objects and grids to which values refer.

ghost use Rattle.std.specs.Prelude.{◌≡◌, slice_index_or};
ghost use Rattle.ti_lang.specs.Program.Types.{ValueType};
ghost use Rattle.ti_lang.specs.Meaning.Held.{no_value};
ghost use Rattle.ti_lang.specs.Meaning.Comp.{needed as needed_spec};
ghost use Rattle.ti_eval.specs.Comes.{ComesAs};
ghost use Rattle.ti_moves.specs.References.{typed_reference};

use ti_base::{FaultKind, Id, Place};
use ti_eval::{CanonicalAnswer, Interrupt, VarValue};

/// The object or grid to which a value refers. A null reference is a fault.
pub fn require_reference<'a>(
    place: Place,
    value: &VarValue,
    answers: &'a [CanonicalAnswer],
) -> Result<(Id, &'a [CanonicalAnswer]), Interrupt>
    ensures { (type : ValueType) → ComesAs (typed_reference type) result (needed_spec place type value.now answers.now) }
{
    match value.thing() {
        Some(id) => Ok((id, answers)),
        None => Err(Interrupt::Fault(FaultKind::NullRef, place)),
    }
}

/// The first of the values; `false` if there are none.
pub fn first_or_false(values: Vec<VarValue>) -> VarValue
    ensures { result ≡ slice_index_or values.items 0 no_value }
{
    let mut values = values;
    if values.is_empty() {
        VarValue::boolean(false)
    } else {
        values.swap_remove(0)
    }
}
