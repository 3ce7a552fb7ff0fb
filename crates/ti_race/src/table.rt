// Finds races with a table of who has accessed each memory location in each phase (between two collectives): one pass over the accesses
// fills it, another one looks each of them up.
ghost use Rattle.std.specs.Prelude.{◌≡◌, filter, ◌||◌, ◌&&◌, ◌==◌, not, ℕ, if◌then◌else◌, take, OnOk, IfOk};
ghost use Rattle.std.specs.HashMap.{get};
ghost use Rattle.ti_race.specs.Mirrors.AccessTable.{others, LocationKey, same_location_key, access_key, users_in, writers_in, used_by_others, written_by_others, racing_by, IsTableOf, racing_in};

use crate::spots::{Spot, Use};
use indexmap::IndexMap;
use std::alloc::Global;
use ti_base::Memory;

/// A set of processes, as far as it is needed to decide whether it has other members than a given one.
#[derive(Clone, Copy)]
pub enum Procs {
    One(u32),
    Several,
}

/// Which processes have accessed a memory location in a phase, and which have written it. `None` is the empty set.
#[derive(Clone, Copy)]
pub struct Accessors {
    pub users: Option<Procs>,
    pub writers: Option<Procs>,
}

// The record of each memory location in each phase.
type AccessTable = IndexMap<(Spot, u32), Accessors>;

/// This set with one more process.
fn with_process(procs: Option<Procs>, proc: u32) -> Option<Procs>
    ensures { (i : ℕ) → others result i ≡ (others procs i || not (proc == i)) }
{
    match procs {
        None => Some(Procs::One(proc)),
        Some(Procs::One(other)) => {
            if other == proc {
                procs
            } else {
                Some(Procs::Several)
            }
        }
        Some(Procs::Several) => procs,
    }
}

/// Whether the set has a member other than this process.
fn has_others(procs: Option<Procs>, proc: u32) -> bool
    ensures { result ≡ others procs proc }
{
    match procs {
        None => false,
        Some(Procs::One(other)) => other != proc,
        Some(Procs::Several) => true,
    }
}

/// The record of a location with one more access.
fn with_access(seen: Option<Accessors>, access: Use) -> Accessors
    ensures users { (i : ℕ) → others result.users i ≡ (others (users_in seen) i || not (access.proc == i)) }
    ensures writers { (i : ℕ) → others result.writers i ≡ (others (writers_in seen) i || (access.writes && not (access.proc == i))) }
{
    let (users, writers) = match seen {
        None => (None, None),
        Some(seen) => (seen.users, seen.writers),
    };
    Accessors {
        users: with_process(users, access.proc),
        writers: if access.writes {
            with_process(writers, access.proc)
        } else {
            writers
        },
    }
}

/// Enters one more access, and returns the index of its record in the table.
fn note(table: &mut AccessTable, access: Use) -> Result<usize, Memory>
    ensures users { OnOk result ((key : LocationKey) (i : ℕ) → others (users_in (get same_location_key table.new key)) i
        ≡ (others (users_in (get same_location_key table.old key)) i || (same_location_key (access_key access) key && not (access.proc == i)))) }
    ensures writers { OnOk result ((key : LocationKey) (i : ℕ) → others (writers_in (get same_location_key table.new key)) i
        ≡ (others (writers_in (get same_location_key table.old key)) i || (same_location_key (access_key access) key && (access.writes && not (access.proc == i))))) }
{
    let key = (access.spot, access.phase);
    let seen = table.get(&key).copied();
    let (place, _) = table.insert_full(key, with_access(seen, access))?;
    Ok(place)
}

/// The table of all accesses, and for each access the index of its record.
fn table_of(alloc: Global, uses: &[Use]) -> Result<(AccessTable, Vec<usize>), Memory>
    ensures { IfOk result (λ made. IsTableOf made.0 uses.now) }
{
    let mut table = IndexMap::new(alloc);
    let mut places = Vec::new(alloc);
    for u in uses {
        let place = note(&mut table, *u)?;
        places.push(place)?;
    }
    Ok((table, places))
}

/// The record of the location of an access. `place` is the index at which it is expected; this saves a lookup, but a wrong index does no
/// harm.
fn accessors_of(table: &AccessTable, access: Use, place: usize) -> Option<Accessors>
    ensures { result ≡ get same_location_key table.now (access_key access) }
{
    if let Some((key, seen)) = table.get_index(place) {
        if key.0 == access.spot && key.1 == access.phase {
            return Some(*seen);
        }
    }
    table.get(&(access.spot, access.phase)).copied()
}

/// Whether an access races with any of those in the table. A write races with each access, a read with each write, of another process.
fn is_racing(table: &AccessTable, access: Use, place: usize) -> bool
    ensures { result ≡ racing_by table.now access }
{
    match accessors_of(table, access, place) {
        None => false,
        Some(seen) => has_others(
            if access.writes {
                seen.users
            } else {
                seen.writers
            },
            access.proc,
        ),
    }
}

/// The accesses that race with another one of the list, in their order. Errors only if it runs out of memory.
pub fn racing_of(alloc: Global, uses: &[Use]) -> Result<Vec<Use>, Memory>
    ensures { IfOk result (λ racing. racing.items ≡ racing_in uses.now) }
{
    let (table, places) = table_of(alloc, uses)?;
    let racing = racing_among(alloc, &table, &places, uses)?;
    Ok(racing)
}

/// The accesses that race with one in the table, in their order.
fn racing_among(
    alloc: Global,
    table: &AccessTable,
    places: &[usize],
    uses: &[Use],
) -> Result<Vec<Use>, Memory>
    ensures { IfOk result (λ racing. racing.items ≡ filter (racing_by table.now) uses.now) }
{
    let mut racing = Vec::new(alloc);
    for (number, u) in uses.iter().enumerate() {
        let place = places.get(number).copied().unwrap_or(0);
        if is_racing(table, *u, place) {
            racing.push(*u)?;
        }
    }
    Ok(racing)
}
