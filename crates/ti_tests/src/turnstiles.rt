// A list of pairs protected by a turnstile, to which passes append sequentially and from threads of their own.

mod members;
mod pairs;

use members::{add_at, all_add, close_members, members_of};
use pairs::{Pairs, are_counted};
use std::alloc::Global;
use std::sync::Wait;
use std::test::Fail;
use std::thread::Threads;
use ti_base::Memory;
use ti_turnstile::Turnstile;

/// Three passes append 5, 6 and 7 sequentially. The last of the members has number 0.
fn added_in_turn<R: Wait>(rt: &R, alloc: Global) -> Result<Pairs, Memory> {
    let (turnstile, passes) = Turnstile::new(alloc, 3, Pairs::new(alloc))?;
    let mut members = members_of(alloc, &turnstile, passes, 3)?;
    add_at(rt, &turnstile, &mut members, 2, 5);
    add_at(rt, &turnstile, &mut members, 1, 6);
    add_at(rt, &turnstile, &mut members, 2, 7);
    close_members(alloc, turnstile, members)
}

/// Four passes append the numbers below 100, each from a thread of its own.
fn added_by_threads<R: Threads + Wait + Sync>(rt: &R, alloc: Global) -> Result<Pairs, Memory> {
    let (turnstile, passes) = Turnstile::new(alloc, 4, Pairs::new(alloc))?;
    let members = members_of(alloc, &turnstile, passes, 4)?;
    let members = all_add(rt, &turnstile, members, 100)?;
    close_members(alloc, turnstile, members)
}

#[test]
fn passes_add_in_turn(rt: HostRuntime) -> Result<(), Fail> {
    let pairs = added_in_turn(&rt, rt.alloc())?;
    assert!(rt; pairs.items.as_slice() == [(0, 5), (1, 6), (0, 7)].as_slice());
    Ok(())
}

// No item is lost or duplicated, and the items of each number are in their order.
#[test]
fn threads_add_in_their_order(rt: HostRuntime) -> Result<(), Fail> {
    let pairs = added_by_threads(&rt, rt.alloc())?;
    assert_eq!(rt; pairs.items.len(), 400);
    assert!(rt; are_counted(&pairs.items));
    Ok(())
}
