// Passes with their numbers.
ghost use Rattle.std.specs.Prelude.{◌≡◌, ◌<◌, length, All, IfOk};
ghost use Rattle.ti_turnstile.specs.Turnstiles.{identity_of, passes_of, turnstile_of, number_of, AreNew};

use super::pairs::Pairs;
use std::alloc::Global;
use std::sync::Wait;
use std::thread;
use std::thread::Threads;
use ti_base::Memory;
use ti_turnstile::{Pass, Turnstile};

/// A pass with its number.
#[derive(Drop)]
pub struct NumberedPass {
    number: u32,
    pass: Pass<Pairs>,
    ghost same: { number_of pass ≡ number },
}

/// A member for each pass; that of the last pass comes first.
pub fn members_of(
    alloc: Global,
    turnstile: &Turnstile<Pairs>,
    mut passes: Vec<Pass<Pairs>>,
    n: u32,
) -> Result<Vec<NumberedPass>, Memory>
    requires count { length passes.items ≡ n }
    requires new { AreNew (identity_of turnstile.now) passes.items }
    ensures count { IfOk result (λ ms. length ms.items ≡ n) }
    ensures turnstile { IfOk result (λ ms. All (λ m. turnstile_of m.pass ≡ identity_of turnstile.now) ms.items) }
{
    let mut members = Vec::with_capacity(alloc, n as usize)?;
    let mut number = n;
    while let Some(pass) = passes.pop() {
        number -= 1;
        members.push(NumberedPass { number, pass })?;
    }
    Ok(members)
}

/// Enters the turnstile, appends an item, and leaves.
fn add_one<R: Wait>(
    rt: &R,
    turnstile: &Turnstile<Pairs>,
    member: NumberedPass,
    item: u32,
) -> NumberedPass
    requires { turnstile_of member.pass ≡ identity_of turnstile.now }
    ensures { turnstile_of result.pass ≡ identity_of turnstile.now }
{
    let NumberedPass { number, pass } = member;
    let mut inside = turnstile.enter(rt, pass);
    inside.value().add(number, item);
    let pass = turnstile.leave(inside);
    NumberedPass { number, pass }
}

/// The member at this index appends an item.
pub fn add_at<R: Wait>(
    rt: &R,
    turnstile: &Turnstile<Pairs>,
    members: &mut Vec<NumberedPass>,
    at: usize,
    item: u32,
)
    requires at { at < length members.old.items }
    requires turnstile { All (λ m. turnstile_of m.pass ≡ identity_of turnstile.now) members.old.items }
    ensures count { length members.new.items ≡ length members.old.items }
    ensures turnstile { All (λ m. turnstile_of m.pass ≡ identity_of turnstile.now) members.new.items }
{
    let member = members.remove(at);
    let member = add_one(rt, turnstile, member, item);
    match members.insert(at, member) {
        Ok(()) => {}
        Err(_) => unreachable!(),
    }
}

/// Appends the numbers below `count`, in order.
fn add_all<R: Wait>(
    rt: &R,
    turnstile: &Turnstile<Pairs>,
    mut member: NumberedPass,
    count: u32,
) -> NumberedPass
    requires { turnstile_of member.pass ≡ identity_of turnstile.now }
    ensures { turnstile_of result.pass ≡ identity_of turnstile.now }
{
    for item in 0..count {
        member = add_one(rt, turnstile, member, item);
    }
    member
}

/// Each member appends the numbers below `count`, from a thread of its own.
pub fn all_add<R: Threads + Wait + Sync>(
    rt: &R,
    turnstile: &Turnstile<Pairs>,
    members: Vec<NumberedPass>,
    count: u32,
) -> Result<Vec<NumberedPass>, Memory>
    requires { All (λ m. turnstile_of m.pass ≡ identity_of turnstile.now) members.items }
    ensures count { IfOk result (λ ms. length ms.items ≡ length members.items) }
    ensures turnstile { IfOk result (λ ms. All (λ m. turnstile_of m.pass ≡ identity_of turnstile.now) ms.items) }
{
    let members = thread::map_vec(
        rt,
        members,
        &|member| { add_all(rt, turnstile, member, count) },
    )?;
    Ok(members)
}

/// Closes the turnstile with the passes of all members, and returns the list.
pub fn close_members(
    alloc: Global,
    turnstile: Turnstile<Pairs>,
    mut members: Vec<NumberedPass>,
) -> Result<Pairs, Memory>
    requires count { length members.items ≡ passes_of turnstile }
    requires turnstile { All (λ m. turnstile_of m.pass ≡ identity_of turnstile) members.items }
{
    let mut passes = Vec::with_capacity(alloc, members.len())?;
    while let Some(member) = members.pop() {
        passes.push(member.pass)?;
    }
    Ok(turnstile.close(passes))
}
