// The interface of watchers.
ghost use Rattle.std.specs.Prelude.{◌≡◌, ℕ, List, [], ◌∷◌, ◌++◌, OnOk, OnErr};
ghost use Rattle.ti_base.specs.declared.entry.Entry.{Entry};
ghost use Rattle.ti_watch.specs.Reports.{watch_text};

use ti_base::{Entry, Memory};

/// An observer of a run: it receives the entries one by one and reports on them.
///
/// Contracts see its kind, which is 0 for a trace, 1 for statistics and 2 for races, and the entries observed so far (`told`).
pub trait Watch: Drop {
    ghost kind_of: { Self → ℕ };

    ghost told: { Self → List Entry };

    /// The kind of report, which no call changes: 0, 1 or 2.
    fn kind(&self) -> u8
        ensures { result ≡ kind_of self.now };

    /// Observes an entry. If it runs out of memory, it hasn't observed it.
    fn see(&mut self, entry: &Entry) -> Result<(), Memory>
        ensures kind { kind_of self.new ≡ kind_of self.old }
        ensures told { OnOk result (told self.new ≡ told self.old ++ entry.now ∷ []) }
        ensures kept { OnErr result (told self.new ≡ told self.old) };

    /// Appends the report of its kind on the entries observed so far. If it runs out of memory, `out` is unchanged.
    fn report(&self, out: &mut Vec<u8>) -> Result<(), Memory>
        ensures text { OnOk result (out.new.items ≡ out.old.items ++ watch_text (kind_of self.now) (told self.now)) }
        ensures kept { OnErr result (out.new.items ≡ out.old.items) };
}
