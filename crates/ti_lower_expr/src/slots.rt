// The generator's table of slots: what each slot of the frame is for, and by which slot a variable is found.

ghost use Rattle.std.specs.Prelude.{◌≡◌, ◌∷◌, ◌-◌, ◌<◌, ◌≤◌, ℕ, Some, [], OnOk, OnErr, drop, get_or, length};
ghost use Rattle.ti_lang.specs.Program.Views.{variable_of};
ghost use Rattle.ti_lower_expr.specs.declared.slots.SlotName.TheVariants as slot;
ghost use Rattle.ti_lower_expr.specs.Noted.{AreNoted, variable_number};
ghost use Rattle.ti_lower_expr.specs.Slots.{is_meant, find_slot, has_this};
ghost use Rattle.ti_lower_expr.specs.Views.{slot_name_of, slot_names_of};

use std::alloc::Global;
use ti_base::Memory;
use ti_lang::program::{Declared, Ty, Variable};
use ti_lang::typing::same_elements;

/// What a slot is for: `this`, a variable of a type, the point of the foreach whose variable has this number, or a temporary that no name
/// denotes.
#[derive(Clone, Copy, Drop)]
pub enum SlotName<'p> {
    This,
    Of {
        number: u32,
        single: bool,
        ty: &'p Ty,
    },
    Point(u32),
    Hidden,
}

/// What the slots of a frame are for, the oldest first. `latest` holds for the number of each variable a position from which on no slot is
/// for it. So the newest slot is found at once if variables differ in their numbers.
#[derive(Drop)]
pub struct Slots<'p> {
    pub names: Vec<SlotName<'p>>,
    latest: Vec<usize>,
    ghost noted: { AreNoted names.items latest.items },
}

// The number of the variable that a slot is for.
fn variable_number(name: &SlotName) -> Option<u32>
    ensures { result ≡ variable_number name.now }
{
    match name {
        SlotName::This => None,
        SlotName::Of { number, .. } => Some(*number),
        SlotName::Point(number) => Some(*number),
        SlotName::Hidden => None,
    }
}

// Extends the index, so that a position can be noted for this number.
fn make_room(latest: &mut Vec<usize>, number: usize) -> Result<(), Memory>
    ensures same { (n : ℕ) → get_or latest.new.items n 0 ≡ get_or latest.old.items n 0 }
    ensures room { OnOk result (number < length latest.new.items) }
{
    while latest.len() <= number {
        latest.push(0)?;
    }
    Ok(())
}

// Whether the slot is the one that the variable denotes.
fn is_meant(variable: &Variable, name: &SlotName) -> bool
    ensures { result ≡ is_meant (variable_of variable.now).declared (variable_of variable.now) (slot_name_of name.now) }
{
    match &variable.declared {
        Declared::Typed { single, ty } => match name {
            SlotName::Of {
                number,
                single: other,
                ty: found,
            } => variable.number == *number
                && (*single == *other && same_elements(ty, false, found, false)),
            SlotName::This => false,
            SlotName::Point(_) => false,
            SlotName::Hidden => false,
        },
        Declared::Foreach => match name {
            SlotName::Point(number) => *number == variable.number,
            SlotName::This => false,
            SlotName::Of { .. } => false,
            SlotName::Hidden => false,
        },
    }
}

// Whether the slot is that of `this`.
fn is_this(name: &SlotName) -> bool
    ensures { result ≡ has_this (slot_name_of name.now ∷ []) }
{
    match name {
        SlotName::This => true,
        SlotName::Of { .. } => false,
        SlotName::Point(_) => false,
        SlotName::Hidden => false,
    }
}

impl<'p> Slots<'p> {
    /// No slots.
    pub fn new(alloc: Global) -> Slots<'p>
        ensures { slot_names_of result.names.items ≡ [] }
    {
        Slots {
            names: Vec::new(alloc),
            latest: Vec::new(alloc),
        }
    }

    /// How many slots there are.
    pub fn len(&self) -> usize
        ensures { result ≡ length (slot_names_of self.now.names.items) }
    {
        self.names.len()
    }

    /// Adds a slot. After out of memory the slots are unchanged.
    pub fn push(&mut self, name: SlotName<'p>) -> Result<(), Memory>
        ensures added { OnOk result (slot_names_of self.new.names.items ≡ slot_name_of name.entry ∷ slot_names_of self.old.names.items) }
        ensures err { OnErr result (slot_names_of self.new.names.items ≡ slot_names_of self.old.names.items) }
    {
        match variable_number(&name) {
            Some(number) => {
                let number = number as usize;
                make_room(&mut self.latest, number)?;
                self.names.push(name)?;
                self.latest[number] = self.names.len();
            }
            None => self.names.push(name)?,
        }
        Ok(())
    }

    /// Keeps the `len` oldest slots.
    pub fn cut(&mut self, len: usize)
        ensures { slot_names_of self.new.names.items ≡ drop (length (slot_names_of self.old.names.items) - len) (slot_names_of self.old.names.items) }
    {
        self.names.truncate(len);
    }

    // A position from which on no slot is for a variable of this number.
    fn end(&self, number: u32) -> usize
        ensures within { result ≤ length self.now.names.items }
        ensures none_behind { (k : ℕ) → result ≤ k → k < length self.now.names.items → variable_number (get_or self.now.names.items k slot.Hidden)
            ≡ Some number → ⊥ }
    {
        let number = number as usize;
        if number < self.latest.len() {
            self.latest[number].min(self.names.len())
        } else {
            0
        }
    }

    /// The newest slot that a variable denotes, counted from the oldest.
    pub fn find(&self, variable: &Variable) -> Option<usize>
        ensures { result ≡ find_slot (variable_of variable.now) (slot_names_of self.now.names.items) }
    {
        let mut n = self.end(variable.number);
        while n > 0 {
            n -= 1;
            if is_meant(variable, &self.names[n]) {
                return Some(n);
            }
        }
        None
    }

    /// Whether there is a slot of `this`.
    pub fn has_this(&self) -> bool
        ensures { result ≡ has_this (slot_names_of self.now.names.items) }
    {
        for name in &self.names {
            if is_this(name) {
                return true;
            }
        }
        false
    }
}
