// The protocol of the turnstile's atomic table: its invariant, and the transitions that keep it.

use crate::kept::Kept;
use crate::seat_view::SeatView;
use atomic_table::{Join, Play, Split, TableRule};
use std::marker::PhantomData;

/// The invariant of the table: there is one log; each pass has seen a prefix of it, in which are all items with the pass's number.
pub struct TurnstileRule<V> {
    of: PhantomData<V>,
}

impl<V: Kept> TableRule<Option<Box<V>>, SeatView<V::Item>, u32> for TurnstileRule<V> {
    ghost use Rattle.std.specs.Prelude.{false};
    ghost use Rattle.ti_turnstile.specs.Mirrors.Views.{TableInvariant, log_in_box, view, new_passes};

    ghost holds = { λ n. TableInvariant (log_in_box V.log) n };

    ghost first = { λ n. view false (new_passes 0 n) };
}

/// Transition: tries to acquire the lock (compare-and-exchange of 0 with 1).
pub struct Enter<V> {
    of: PhantomData<V>,
}

impl<V: Kept> Play<Option<Box<V>>, SeatView<V::Item>> for Enter<V> {
    ghost use Rattle.ti_turnstile.specs.Mirrors.Views.{TriesToAcquire, log_in_box};

    ghost then = { TriesToAcquire (log_in_box V.log) };
}

/// Transition: the seat's view becomes the value's log, and the lock is released.
pub struct Leave<V> {
    of: PhantomData<V>,
}

impl<V: Kept> Play<Option<Box<V>>, SeatView<V::Item>> for Leave<V> {
    ghost use Rattle.ti_turnstile.specs.Mirrors.Views.{Releases, log_in_box};

    ghost then = { Releases (log_in_box V.log) };
}

/// Transition: stores the hint. The seat stays as it is.
pub struct Announce<V> {
    of: PhantomData<V>,
}

impl<V: Kept> Play<Option<Box<V>>, SeatView<V::Item>> for Announce<V> {
    ghost use Rattle.ti_turnstile.specs.Mirrors.Views.{Announces};

    ghost then = { Announces };
}

/// Split of seats: the first pass of a seat goes to a seat of its own.
pub struct SplitPass;

impl<I> Split<SeatView<I>> for SplitPass {
    ghost use Rattle.std.specs.Prelude.{false, take, drop};
    ghost use Rattle.ti_turnstile.specs.Mirrors.Views.{view};

    ghost left = { λ v. view false (drop 1 v.passes) };

    ghost right = { λ v. view false (take 1 v.passes) };
}

/// Join of seats: a seat takes over the passes of another.
pub struct JoinPasses;

impl<I> Join<SeatView<I>> for JoinPasses {
    ghost use Rattle.std.specs.Prelude.{false, [], ◌++◌};
    ghost use Rattle.ti_turnstile.specs.Mirrors.Views.{view};

    ghost both = { λ v w. view false (v.passes ++ w.passes) };

    ghost spent = { view false [] };
}
