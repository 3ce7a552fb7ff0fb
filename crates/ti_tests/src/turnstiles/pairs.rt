// A list that is its own log.
ghost use Rattle.std.specs.Prelude.{◌≡◌, []};
ghost use Rattle.ti_turnstile.specs.Passes.{GrownBy};

use std::alloc::Global;
use ti_turnstile::Kept;

/// Pairs of a number and an item.
#[derive(Drop)]
pub struct Pairs {
    pub items: Vec<(u32, u32)>,
}

impl Kept for Pairs {
    type Item = u32;

    ghost log = { λ p. p.items.items };

    fn len(&self) -> usize {
        self.items.len()
    }

    fn number_at(&self, index: usize) -> u32 {
        self.items[index].0
    }
}

impl Pairs {
    pub fn new(alloc: Global) -> Self
        ensures { result.items.items ≡ [] }
    {
        Pairs {
            items: Vec::new(alloc),
        }
    }

    /// Appends a pair; does nothing if memory is out.
    pub fn add(&mut self, number: u32, item: u32)
        ensures { GrownBy number self.old.items.items self.new.items.items }
    {
        let _ = self.items.push((number, item));
    }
}

/// Whether the items of each of four numbers are 0, 1, 2 and so on.
pub fn are_counted(pairs: &[(u32, u32)]) -> bool {
    let mut counts = [0u32; 4];
    for (number, item) in pairs {
        let Some(count) = counts.get_mut(*number as usize) else {
            return false;
        };
        if *item != *count {
            return false;
        }
        *count = count.wrapping_add(1);
    }
    true
}
