// Questions about a source by itself, for tools beside the command: whether it is rejected, and which annotations it could have.
ghost use Rattle.std.specs.Prelude.{◌≡◌, None, Ok, IfOk, IfSome};
ghost use Rattle.ti_rules.specs.RefusalOf.{HasNone, IsRefusal};
ghost use Rattle.ti_top.specs.Inference.{HasMarking};

use crate::compiling::{CompileErr, compile};
use crate::inferring::infer_marks;
use std::alloc::Global;
use ti_base::Memory;
use ti_infer::Marking;
use ti_rules::Refusal;

/// The error of a source that mode check reports, or none if it is accepted.
///
/// The only error of the call is that memory ran out.
pub fn refusal_of_text(alloc: Global, text: &[u8]) -> Result<Option<Refusal>, Memory>
    ensures some { IfOk result (λ o. IfSome o (IsRefusal text.now)) }
    ensures none { result ≡ Ok None → HasNone (IsRefusal text.now) }
{
    match compile(alloc, text) {
        Ok(_) => Ok(None),
        Err(CompileErr::Refused(refusal)) => Ok(Some(refusal)),
        Err(CompileErr::Memory) => Err(Memory),
    }
}

/// The greatest marking of a source, which mode infer reports, or none if mode infer rejects the source.
///
/// The only error of the call is that memory ran out.
pub fn marking_of_text(alloc: Global, text: &[u8]) -> Result<Option<Marking>, Memory>
    ensures some { IfOk result (λ o. IfSome o (HasMarking text.now)) }
{
    match infer_marks(alloc, text) {
        Ok(marking) => Ok(Some(marking)),
        Err(CompileErr::Refused(_)) => Ok(None),
        Err(CompileErr::Memory) => Err(Memory),
    }
}
