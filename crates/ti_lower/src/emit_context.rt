// The context in which an expression of a statement is generated. Temporaries have slots after those of variables, and the context counts
// them.

ghost use Rattle.std.specs.Prelude.{◌≡◌, ◌+◌, ◌^◌, ◌≤◌, IfOk, IfErr, length};
ghost use Rattle.ti_lower.specs.Mirrors.Positions.{where_of, with_temporary};

use ti_base::Memory;
use ti_lower_expr::{LoweringContext, u32_sum};

/// The context in which code is generated: the site, and how many temporaries are in slots after those of the site.
#[derive(Clone, Copy)]
pub struct EmitContext<'s, 'p> {
    pub site: LoweringContext<'s, 'p>,
    pub temporaries: usize,
}

/// How many slots there are, temporaries included; out of memory iff the number doesn't fit.
#[tactic(auto, using(crate::proofs::Hiding::hidden_slots))]
pub fn slot_count(context: &EmitContext) -> Result<usize, Memory>
    ensures value { IfOk result (λ n. n ≡ length (where_of context.now).names) }
    ensures large { IfErr result (λ _. 2 ^ 64 ≤ length (where_of context.now).names) }
{
    match context.site.slots.len().checked_add(context.temporaries) {
        Some(n) => Ok(n),
        None => Err(Memory),
    }
}

/// The slot `more` after the last one; out of memory iff its number doesn't fit into 32 bits.
pub fn slot_after(context: &EmitContext, more: usize) -> Result<u32, Memory>
    ensures value { IfOk result (λ n. n ≡ length (where_of context.now).names + more) }
    ensures large { IfErr result (λ _. 2 ^ 32 ≤ length (where_of context.now).names + more) }
{
    u32_sum(slot_count(context)?, more)
}

/// The context with one more temporary; out of memory iff they can't be counted.
pub fn with_temporary<'s, 'context>(
    context: &EmitContext<'s, 'context>,
) -> Result<EmitContext<'s, 'context>, Memory>
    ensures value { IfOk result (λ q. where_of q ≡ with_temporary (where_of context.now)) }
    ensures large { IfErr result (λ _. 2 ^ 64 ≤ context.now.temporaries + 1) }
{
    match context.temporaries.checked_add(1) {
        Some(temporaries) => Ok(EmitContext {
            site: context.site,
            temporaries,
        }),
        None => Err(Memory),
    }
}
