// Values that a turnstile can keep: those with a log.

ghost use Rattle.std.specs.Prelude.{◌≡◌, ℕ, ◌<◌, List, length};
ghost use Rattle.ti_turnstile.specs.Passes.{number_at};

/// A value with an append-only log of items, each of which has a number.
pub trait Kept {
    /// The items of the log.
    type Item;

    // The items so far, each with its number.
    ghost log: { Self → List (ℕ × Self.Item) };

    /// How many items the log has.
    fn len(&self) -> usize
        ensures { result ≡ length (log self.now) };

    /// The number of the item with `index`.
    fn number_at(&self, index: usize) -> u32
        requires { index < length (log self.now) }
        ensures { result ≡ number_at (log self.now) index };
}
