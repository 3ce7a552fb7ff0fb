// The reads and writes of a list of entries.
ghost use Rattle.std.specs.Prelude.{◌≡◌, [], ◌∷◌, ◌++◌, take, vec_len, IfOk, OnOk, OnErr, List};
ghost use Rattle.ti_base.specs.declared.entry.Entry.{Entry as Listed};
ghost use Rattle.ti_race.specs.Mirrors.HistoryIndex.{one_or_none, Gathers};

use crate::history_index::HistoryIndex;
use crate::spots::Use;
use std::alloc::Global;
use ti_base::{Entry, Memory};

/// The accesses of entries that are observed one by one, with the index of the history so far (`told`).
#[derive(Drop)]
pub struct Uses {
    pub told: HistoryIndex,
    /// The accesses in the order of their entries.
    pub found: Vec<Use>,
}

// Appends an access, if there is one.
fn push_use(found: &mut Vec<Use>, access: Option<Use>) -> Result<(), Memory>
    ensures items { OnOk result (found.new.items ≡ found.old.items ++ one_or_none access) }
    ensures kept { OnErr result (found.new.items ≡ found.old.items) }
{
    if let Some(access) = access {
        found.push(access)?;
    }
    Ok(())
}

impl Uses {
    /// No entry observed.
    pub fn new(alloc: Global) -> Uses
        ensures { Gathers result [] }
    {
        Uses {
            told: HistoryIndex::new(alloc),
            found: Vec::new(alloc),
        }
    }

    /// Observes an entry. On an error it hasn't observed it.
    pub fn see(&mut self, entry: &Entry) -> Result<(), Memory>
        ensures told { OnOk result ((es : List Listed) → Gathers self.old es → Gathers self.new (es ++ entry.now ∷ [])) }
        ensures kept { OnErr result ((es : List Listed) → Gathers self.old es → Gathers self.new es) }
    {
        let len = self.found.len();
        let u = self.told.use_of(entry);
        push_use(&mut self.found, u)?;
        match self.told.note(entry) {
            Ok(()) => Ok(()),
            Err(memory) => {
                self.found.truncate(len);
                Err(memory)
            }
        }
    }
}

/// The accesses of a list of entries, with the index of these. Errors only if it runs out of memory, or if there are more than 2^32 - 1
/// entries.
pub fn uses_of(alloc: Global, entries: &[Entry]) -> Result<Uses, Memory>
    ensures { IfOk result (λ uses. Gathers uses entries.now) }
{
    let mut uses = Uses::new(alloc);
    for e in entries {
        uses.see(e)?;
    }
    Ok(uses)
}
