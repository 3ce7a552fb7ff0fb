// The difference of two ranges, as ranges.
//
// If few numbers are removed, the gaps between them remain as ranges; if many are, the numbers with each of the other residues modulo the
// stride. So there are never more ranges than about the square root of the count of numbers.

ghost use Rattle.std.specs.Prelude.{◌≡◌, ◌↔◌, ◌+◌, ◌*◌, ◌<◌, ◌^◌, ℤ, pos, ◌+ℤ◌, ◌≤ℤ◌, ◌<ℤ◌, IfOk};
ghost use Rattle.ti_base.specs.Ranges.{IsOn, IsRange, IsTidy};
ghost use Rattle.ti_rect.specs.Axes.{range};
ghost use Rattle.ti_rect.specs.Parts.{IsOff, IsBetween, residue_of, AreParts, with_part};

use crate::axis::{Axis, NONE, distance, next_above, nth_above, range_up_to};
use std::alloc::Global;
use ti_base::Memory;

/// The smaller of `high` and the number before `to`.
fn last_below(low: i32, high: i32, to: i64) -> i32
    requires { low <ℤ to }
    ensures first { result ≤ℤ high }
    ensures second { result <ℤ to }
    ensures reached { (z : ℤ) → z ≤ℤ high → z <ℤ to → z ≤ℤ result }
{
    if i64::from(high) < to {
        high
    } else {
        (to - 1) as i32
    }
}

/// The numbers of `axis` from `low` on that are below `to`.
fn stretch(axis: Axis, low: i32, to: i64) -> Axis
    requires form { IsRange (range axis) }
    requires on { IsOn (range axis) low }
    ensures form { IsTidy (range result) }
    ensures same { (x : ℤ) → IsOn (range result) x ↔ (IsOn (range axis) x × (low ≤ℤ x) × (x <ℤ to)) }
{
    if to <= i64::from(low) {
        return NONE;
    }
    let high = last_below(low, axis.high, to);
    range_up_to(low, high, axis.step)
}

/// The numbers of `axis` above `from` and below `to`.
fn range_between(axis: Axis, from: i64, to: i64) -> Axis
    requires { IsRange (range axis) }
    ensures form { IsTidy (range result) }
    ensures same { (x : ℤ) → IsOn (range result) x ↔ IsBetween (range axis) from to x }
{
    match next_above(axis, from) {
        Some(low) => stretch(axis, low, to),
        None => NONE,
    }
}

/// The numbers of `axis` below all those of `cut`.
fn range_below(axis: Axis, cut: Axis) -> Axis
    requires { IsRange (range axis) }
    ensures form { IsTidy (range result) }
    ensures same { (x : ℤ) → IsOn (range result) x ↔ (IsOn (range axis) x × (x <ℤ cut.low)) }
{
    range_between(axis, i64::from(axis.low) - 1, i64::from(cut.low))
}

/// The numbers of `axis` above all those of `cut`.
fn range_above(axis: Axis, cut: Axis) -> Axis
    requires { IsRange (range axis) }
    ensures form { IsTidy (range result) }
    ensures same { (x : ℤ) → IsOn (range result) x ↔ (IsOn (range axis) x × (cut.high <ℤ x)) }
{
    range_between(axis, i64::from(cut.high), i64::from(axis.high) + 1)
}

/// The numbers of `axis` between the number with `index` of `cut`, counted from 0, and the next.
fn gap(axis: Axis, cut: Axis, index: u64) -> Axis
    requires form { IsRange (range axis) }
    requires few { index < 2 ^ 32 }
    requires room { (cut.low +ℤ pos ((index + 1) * cut.step)) ≤ℤ cut.high }
    ensures form { IsTidy (range result) }
    ensures same { (x : ℤ) → IsOn (range result) x ↔ IsBetween (range axis) (cut.low +ℤ pos (index * cut.step)) (cut.low +ℤ pos ((index + 1) * cut.step)) x }
{
    let here = nth_above(cut.low, index, cut.step, cut.high);
    let next = nth_above(cut.low, index + 1, cut.step, cut.high);
    range_between(axis, i64::from(here), i64::from(next))
}

/// The numbers that are `offset` steps of `axis` above one of `cut`, up to the last of `cut`.
fn residue(axis: Axis, cut: Axis, offset: u32) -> Axis
    requires forward { 0 < cut.step }
    requires room { (cut.low +ℤ pos (offset * axis.step)) ≤ℤ cut.high }
    ensures form { IsRange (range result) }
    ensures same { (x : ℤ) → IsOn (range result) x ↔ IsOn (residue_of (range axis) (range cut) offset) x }
{
    let low = nth_above(cut.low, u64::from(offset), axis.step, cut.high);
    range_up_to(low, cut.high, cut.step)
}

/// The ranges, with `part` appended if it has a number.
fn push_part(mut parts: Vec<Axis>, part: Axis) -> Result<Vec<Axis>, Memory>
    ensures { IfOk result (λ v. v.items ≡ with_part parts.items part) }
{
    if part.low <= part.high {
        parts.push(part)?;
    }
    Ok(parts)
}

/// How many steps there are from the first number to the last.
fn step_count(cut: Axis) -> u64
    requires { IsRange (range cut) }
    ensures number { cut.high ≡ cut.low +ℤ pos (result * cut.step) }
    ensures bound { result < 2 ^ 32 }
{
    distance(cut.low, i64::from(cut.high)) / u64::from(cut.step)
}

/// The difference as gaps: below, between and above the numbers of `cut`, each gap one range.
fn gaps(alloc: Global, axis: Axis, cut: Axis, steps: u64) -> Result<Vec<Axis>, Memory>
    requires first { IsRange (range axis) }
    requires second { IsRange (range cut) }
    requires inside { (x : ℤ) → IsOn (range cut) x → IsOn (range axis) x }
    requires number { cut.high ≡ cut.low +ℤ pos (steps * cut.step) }
    requires bound { steps < 2 ^ 32 }
    ensures { IfOk result (λ v. AreParts v.items (IsOff (range axis) (range cut))) }
{
    let mut parts = push_part(Vec::new(alloc), range_below(axis, cut))?;
    for t in 0..steps {
        parts = push_part(parts, gap(axis, cut, t))?;
    }
    push_part(parts, range_above(axis, cut))
}

/// The difference as residues: what is below and above `cut`, and between its ends a range for each residue modulo the stride except its
/// own.
fn residues(alloc: Global, axis: Axis, cut: Axis, ratio: u32) -> Result<Vec<Axis>, Memory>
    requires first { IsRange (range axis) }
    requires second { IsRange (range cut) }
    requires inside { (x : ℤ) → IsOn (range cut) x → IsOn (range axis) x }
    requires ratio { cut.step ≡ ratio * axis.step }
    requires room { (cut.low +ℤ pos cut.step) ≤ℤ cut.high }
    ensures { IfOk result (λ v. AreParts v.items (IsOff (range axis) (range cut))) }
{
    let below = push_part(Vec::new(alloc), range_below(axis, cut))?;
    let mut parts = push_part(below, range_above(axis, cut))?;
    for j in 1..ratio {
        parts = push_part(parts, residue(axis, cut, j))?;
    }
    Ok(parts)
}

/// The numbers of `axis` that aren't on `cut`, all of whose numbers are on `axis`: as gaps if `cut` has at most as many steps as there are
/// steps of `axis` in one of `cut`, otherwise as residues.
pub fn complement(alloc: Global, axis: Axis, cut: Axis) -> Result<Vec<Axis>, Memory>
    requires first { IsRange (range axis) }
    requires second { IsRange (range cut) }
    requires inside { (x : ℤ) → IsOn (range cut) x → IsOn (range axis) x }
    ensures { IfOk result (λ v. AreParts v.items (IsOff (range axis) (range cut))) }
{
    let steps = step_count(cut);
    let ratio = cut.step / axis.step;
    if steps <= u64::from(ratio) {
        gaps(alloc, axis, cut, steps)
    } else {
        residues(alloc, axis, cut, ratio)
    }
}
