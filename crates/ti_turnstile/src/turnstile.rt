// The turnstile, its passes, and a pass that is inside. Word 0 of the table is the lock (1 if held), word 1 the hint; slot 0 holds the
// value while nobody is inside.

ghost use Rattle.std.specs.Prelude.{◌≡◌, ℕ, ◌<◌, ◌+◌, [], ◌∷◌, length, drop, IsTrue, false, Some, IfOk};
ghost use Rattle.ti_turnstile.specs.Passes.{GrownBy, IsLegal};
ghost use Rattle.ti_turnstile.specs.PassViews.{number_in, seen_in};
ghost use Rattle.ti_turnstile.specs.Mirrors.Views.{IsPass, IsInside, HasEntered, HasValue, IsLeaving, carried_log, log_in_box, inside, outside, view, new_passes};

use crate::kept::Kept;
use crate::protocol::{Announce, Enter, JoinPasses, Leave, SplitPass, TurnstileRule};
use crate::seat_view::SeatView;
use atomic_table::{Seat, Table};
use std::alloc::Global;
use std::sync::Wait;
use std::sync::atomic::{AtomicUsize, Ordering};
use std::time::Duration;
use std::{hint, thread};
use ti_base::Memory;

// How often a pass looks whether the lock is free before it sleeps.
const LOOKS: u32 = 300;

// After how many of these looks it only pauses. After each later one it lets another thread run.
const PAUSES: u32 = 200;

// The longest sleep, in microseconds: a thread that misses a wake-up continues after it.
const PARK_MICROS: u64 = 50;

/// A lock around one value, which one pass at a time may hold.
///
/// Contracts see which turnstile it is (`identity_of`) and how many passes it has (`passes_of`).
#[derive(Drop)]
pub struct Turnstile<V: Kept> {
    table: Table<Option<Box<V>>, SeatView<V::Item>, u32, TurnstileRule<V>, Global>,
    // How many threads sleep in `enter`, and how many in `park_briefly`, or are about to. The counts decide only whether threads are woken.
    entering: AtomicUsize,
    parked: AtomicUsize,
    ghost shape: { (table.shared.table_id.words ≡ 2) × (table.shared.table_id.slots ≡ 1) × (0 < table.shared.key) },
}

/// The right to enter a turnstile, under a number.
///
/// Contracts see its turnstile, its number, and how much of the value's log it has seen (`turnstile_of`,
/// `number_of`, `seen_by`).
#[derive(Drop)]
pub struct Pass<V: Kept> {
    seat: Seat<Option<Box<V>>, SeatView<V::Item>>,
    ghost is_pass: { IsPass seat.me },
}

// A seat that is inside, and has taken the value out of the slot.
pub struct HeldSeat<V: Kept> {
    seat: Seat<Option<Box<V>>, SeatView<V::Item>>,
    ghost is_inside: { IsInside seat.me },
}

/// A pass that is inside, together with the value.
///
/// Contracts see its turnstile, its number, the value, and the log that the value had when the pass entered (`turnstile_around`,
/// `number_inside`, `value_inside`, `found_inside`).
pub struct Inside<V: Kept> {
    held: HeldSeat<V>,
    value: Box<V>,
}

impl<V: Kept> Inside<V> {
    ghost use Rattle.std.specs.Borrow.{sem, follows};
    ghost use Rattle.ti_turnstile.specs.contracts.turnstile.Inside.{the_row};
    ghost use Rattle.ti_turnstile.specs.Turnstiles.{value_inside, with_value};

    /// The value, to be read and changed.
    pub fn value(&mut self) -> &mut V
        ensures* writes_back { sem 𝓛 (follows (the_row V.row V.Item.row V.Kept) V.row self.entry.ghost_name result.ghost_name (with_value self.old)) }
        ensures value { result.now ≡ value_inside self.old }
    {
        self.value.as_mut()
    }
}

// Waits a moment after the look with this index.
fn pause_after(look: u32) {
    if look < PAUSES {
        hint::spin_loop();
    } else {
        thread::yield_now();
    }
}

impl<V: Kept> Turnstile<V> {
    ghost use Rattle.ti_turnstile.specs.Turnstiles.{identity_of, passes_of, turnstile_of, number_of, seen_by, turnstile_around, number_inside, value_inside, found_inside, AreNew, AreOf, AreLegal, OneHasSeen, AreAll, AreDistinct, pass_view_of};

    /// A turnstile with `count` passes, which have the numbers from 0 on and have seen nothing. The value's log must be empty.
    pub fn new(alloc: Global, count: u32, value: V) -> Result<(Turnstile<V>, Vec<Pass<V>>), Memory>
    where
        V: Drop,
        requires some_pass { 0 < count }
        requires empty { V.log value ≡ [] }
        ensures passes { IfOk result (λ r. passes_of r.0 ≡ count) }
        ensures all { IfOk result (λ r. length r.1.items ≡ count) }
        ensures new { IfOk result (λ r. AreNew (identity_of r.0) r.1.items) }
    {
        let boxed = Box::new(alloc, value)?;
        let mut slots = Vec::with_capacity(alloc, 1)?;
        slots.push(Some(boxed))?;
        let Ok((table, mut dealer)) = Table::new(alloc, &[0, 0], slots, &count) else {
            return Err(Memory);
        };
        let turnstile = Turnstile {
            table,
            entering: AtomicUsize::new(0),
            parked: AtomicUsize::new(0),
        };
        let passes = turnstile.split_passes(alloc, &mut dealer, count)?;
        Ok((turnstile, passes))
    }

    // Splits off the next of the passes that the dealer has.
    fn split_pass(&self, dealer: &mut Seat<Option<Box<V>>, SeatView<V::Item>>) -> Pass<V>
        requires table { dealer.old.table_id ≡ identity_of self.now }
        requires dealer { (i : ℕ) × (m : ℕ) × (dealer.old.me.0 ≡ view false (new_passes i (m + 1))) × (dealer.old.me.1 ≡ []) }
        ensures table { (dealer.new.table_id ≡ dealer.old.table_id) × (result.seat.table_id ≡ dealer.old.table_id) }
        ensures left { dealer.new.me ≡ (view false (drop 1 dealer.old.me.0.passes), []) }
        ensures right { result.seat.me ≡ (outside (number_in dealer.old.me) [], []) }
    {
        let seat = self.table.shared.split_seat::<SplitPass>(dealer);
        Pass { seat }
    }

    // Splits off all `count` passes that the dealer has.
    fn split_passes(
        &self,
        alloc: Global,
        dealer: &mut Seat<Option<Box<V>>, SeatView<V::Item>>,
        count: u32,
    ) -> Result<Vec<Pass<V>>, Memory>
        requires table { dealer.old.table_id ≡ identity_of self.now }
        requires dealer { dealer.old.me ≡ (view false (new_passes 0 count), []) }
        ensures { IfOk result (λ ps. (length ps.items ≡ count) × AreNew (identity_of self.now) ps.items) }
    {
        let mut passes = Vec::with_capacity(alloc, count as usize)?;
        for _i in 0..count {
            passes.push(self.split_pass(dealer))?;
        }
        Ok(passes)
    }

    // Tries to acquire the lock once, unless it looks held; returns whether the seat is inside now.
    fn try_acquire(&self, seat: &mut Seat<Option<Box<V>>, SeatView<V::Item>>) -> bool
        requires table { seat.old.table_id ≡ identity_of self.now }
        requires pass { IsPass seat.old.me }
        ensures table { seat.new.table_id ≡ seat.old.table_id }
        ensures entered { IsTrue result → HasEntered (log_in_box V.log) seat.old.me seat.new.me }
        ensures same { result ≡ false → seat.new.me ≡ seat.old.me }
    {
        if self.table.shared.peek(0) != 0 {
            return false;
        }
        let found = self
            .table
            .shared
            .compare_exchange::<Enter<V>>(seat, 0, 0, 1);
        found == 0
    }

    // Tries to acquire the lock for a while; returns whether the seat is inside now.
    fn spin_acquire(&self, seat: &mut Seat<Option<Box<V>>, SeatView<V::Item>>) -> bool
        requires table { seat.old.table_id ≡ identity_of self.now }
        requires pass { IsPass seat.old.me }
        ensures table { seat.new.table_id ≡ seat.old.table_id }
        ensures entered { IsTrue result → HasEntered (log_in_box V.log) seat.old.me seat.new.me }
        ensures same { result ≡ false → seat.new.me ≡ seat.old.me }
    {
        for look in 0..LOOKS {
            if self.try_acquire(seat) {
                return true;
            }
            pause_after(look);
        }
        false
    }

    /// Acquires the lock. It waits as long as another pass is inside.
    ///
    /// The value's log then begins with all that the pass had seen, and the items in it with the pass's number are those that this pass
    /// appended.
    ///
    /// While another pass is inside, it looks at the lock again and again, at first with short pauses, then letting other threads run.
    /// After that it sleeps for 50 microseconds at most and begins again. `leave` doesn't wake it; the other two ways to leave may.
    pub fn enter<R: Wait>(&self, rt: &R, pass: Pass<V>) -> Inside<V>
        requires turnstile { turnstile_of pass ≡ identity_of self.now }
        ensures turnstile { turnstile_around result ≡ turnstile_of pass }
        ensures number { number_inside result ≡ number_of pass }
        ensures found { found_inside result ≡ V.log (value_inside result) }
        ensures legal { IsLegal (V.log (value_inside result)) (number_of pass) (seen_by pass) }
    {
        let Pass { mut seat } = pass;
        for _ in rt.forever() {
            if self.spin_acquire(&mut seat) {
                break;
            }
            self.sleep(rt, &self.entering, 0, 1);
        }
        self.take_value(seat)
    }

    // Takes the value out of its slot.
    fn take_value(&self, mut seat: Seat<Option<Box<V>>, SeatView<V::Item>>) -> Inside<V>
        requires table { seat.table_id ≡ identity_of self.now }
        requires value { HasValue (log_in_box V.log) seat.me }
        ensures table { turnstile_around result ≡ seat.table_id }
        ensures view { result.held.seat.me.0 ≡ seat.me.0 }
        ensures log { found_inside result ≡ V.log (value_inside result) }
    {
        let Some(value) = self.table.shared.exchange(&mut seat, 0, None) else {
            unreachable!()
        };
        Inside {
            held: HeldSeat { seat },
            value,
        }
    }

    // Puts the value back into its slot.
    fn put_value(&self, inside: Inside<V>) -> Seat<Option<Box<V>>, SeatView<V::Item>>
        requires turnstile { turnstile_around inside ≡ identity_of self.now }
        requires grown { GrownBy (number_inside inside) (found_inside inside) (V.log (value_inside inside)) }
        ensures table { result.table_id ≡ turnstile_around inside }
        ensures number { number_in result.me ≡ number_inside inside }
        ensures leaving { IsLeaving (log_in_box V.log) result.me }
        ensures log { carried_log (log_in_box V.log) result.me.1 ≡ V.log (value_inside inside) }
    {
        let Inside { held, value } = inside;
        let HeldSeat { mut seat } = held;
        match self.table.shared.exchange(&mut seat, 0, Some(value)) {
            None => seat,
            Some(_) => unreachable!(),
        }
    }

    // Stores the hint. The seat stays as it is.
    fn announce(&self, seat: &mut Seat<Option<Box<V>>, SeatView<V::Item>>, hint: u64)
        requires { seat.old.table_id ≡ identity_of self.now }
        ensures table { seat.new.table_id ≡ seat.old.table_id }
        ensures same { seat.new.me ≡ seat.old.me }
    {
        self.table.shared.store::<Announce<V>>(seat, 1, hint);
    }

    // Releases the lock, so that another seat can enter. The pass has then seen the whole log of the value in the slot.
    fn release(&self, mut seat: Seat<Option<Box<V>>, SeatView<V::Item>>) -> Pass<V>
        requires table { seat.table_id ≡ identity_of self.now }
        requires leaving { IsLeaving (log_in_box V.log) seat.me }
        ensures turnstile { turnstile_of result ≡ seat.table_id }
        ensures number { number_of result ≡ number_in seat.me }
        ensures seen { seen_by result ≡ carried_log (log_in_box V.log) seat.me.1 }
    {
        self.table.shared.store::<Leave<V>>(&mut seat, 0, 0);
        Pass { seat }
    }

    /// Leaves the turnstile, without a wake-up and with the hint unchanged. The value's log must have grown only by items with the pass's
    /// number; the pass has then seen all of it.
    pub fn leave(&self, inside: Inside<V>) -> Pass<V>
        requires turnstile { turnstile_around inside ≡ identity_of self.now }
        requires grown { GrownBy (number_inside inside) (found_inside inside) (V.log (value_inside inside)) }
        ensures turnstile { turnstile_of result ≡ turnstile_around inside }
        ensures number { number_of result ≡ number_inside inside }
        ensures seen { seen_by result ≡ V.log (value_inside inside) }
    {
        self.release(self.put_value(inside))
    }

    /// Leaves the turnstile like `leave`, and wakes one thread that sleeps in `enter`, if any: for a thread that is about to wait itself.
    pub fn leave_and_wake_one(&self, inside: Inside<V>) -> Pass<V>
        requires turnstile { turnstile_around inside ≡ identity_of self.now }
        requires grown { GrownBy (number_inside inside) (found_inside inside) (V.log (value_inside inside)) }
        ensures turnstile { turnstile_of result ≡ turnstile_around inside }
        ensures number { number_of result ≡ number_inside inside }
        ensures seen { seen_by result ≡ V.log (value_inside inside) }
    {
        let pass = self.leave(inside);
        self.wake_one_entering();
        pass
    }

    /// Leaves the turnstile like `leave_and_wake_one`, after a change that others may wait for: the hint changes, and all threads that sleep in
    /// `park_briefly` are woken. If no thread sleeps, there is no system call.
    pub fn leave_and_wake_all(&self, inside: Inside<V>) -> Pass<V>
        requires turnstile { turnstile_around inside ≡ identity_of self.now }
        requires grown { GrownBy (number_inside inside) (found_inside inside) (V.log (value_inside inside)) }
        ensures turnstile { turnstile_of result ≡ turnstile_around inside }
        ensures number { number_of result ≡ number_inside inside }
        ensures seen { seen_by result ≡ V.log (value_inside inside) }
    {
        let mut seat = self.put_value(inside);
        self.announce(&mut seat, self.hint().wrapping_add(1));
        let pass = self.release(seat);
        if self.parked.load(Ordering::SeqCst) > 0 {
            self.table.shared.wake_all(1);
        }
        self.wake_one_entering();
        pass
    }

    // Wakes one thread that sleeps in `enter`. If none does, there is no system call.
    fn wake_one_entering(&self) {
        if self.entering.load(Ordering::SeqCst) > 0 {
            self.table.shared.wake_one(0);
        }
    }

    /// Takes the value out when all passes are returned. All that each pass has seen is a prefix of the value's log, which has no other
    /// items with the pass's number.
    pub fn close(self, mut passes: Vec<Pass<V>>) -> V
        requires all { length passes.items ≡ passes_of self }
        requires turnstile { AreOf (identity_of self) passes.items }
        ensures legal { AreLegal (V.log result) passes.items }
        ensures whole { OneHasSeen (V.log result) passes.items }
        ensures all { AreAll (passes_of self) passes.items }
        ensures distinct { AreDistinct passes.items }
    {
        let Some(last) = passes.pop() else {
            unreachable!()
        };
        let Pass { mut seat } = last;
        while let Some(pass) = passes.pop() {
            seat = self.join_pass(pass, seat);
        }
        let Turnstile {
            table,
            entering: _,
            parked: _,
        } = self;
        let mut closed = table.close_with(seat);
        let value = closed.take(0);
        closed.free();
        match value {
            Some(value) => Box::into_inner(value),
            None => unreachable!(),
        }
    }

    // Joins the pass's seat with one that represents other passes.
    fn join_pass(
        &self,
        pass: Pass<V>,
        other: Seat<Option<Box<V>>, SeatView<V::Item>>,
    ) -> Seat<Option<Box<V>>, SeatView<V::Item>>
        requires table { (turnstile_of pass ≡ identity_of self.now) × (other.table_id ≡ identity_of self.now) }
        requires other { other.me ≡ (view false other.me.0.passes, []) }
        ensures table { result.table_id ≡ identity_of self.now }
        ensures both { result.me ≡ (view false (pass_view_of pass ∷ other.me.0.passes), []) }
    {
        let Pass { mut seat } = pass;
        self.table.shared.join_seat::<JoinPasses>(&mut seat, other);
        seat
    }

    /// A number that `leave_and_wake_all` changes. Nothing that is proved depends on it.
    pub fn hint(&self) -> u64 {
        self.table.shared.peek(1)
    }

    /// Sleeps until it is woken, at most for 50 microseconds, unless the hint is no longer `hint` (compared by the lower 32 bits).
    pub fn park_briefly<R: Wait>(&self, rt: &R, hint: u64) {
        self.sleep(rt, &self.parked, 1, (hint & 0xffff_ffff) as u32);
    }

    // Sleeps until it is woken, at most for 50 microseconds, unless the table's word with this index no longer has this number. The thread
    // is counted in `asleep` meanwhile.
    fn sleep<R: Wait>(&self, rt: &R, asleep: &AtomicUsize, word: usize, number: u32)
        requires { word < 2 }
    {
        let moment = Duration::from_micros(PARK_MICROS);
        asleep.fetch_add(1, Ordering::SeqCst);
        self.table.shared.park_timeout(rt, word, number, moment);
        asleep.fetch_sub(1, Ordering::SeqCst);
    }
}
