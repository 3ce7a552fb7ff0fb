// What the protocol needs of a language.
ghost use Rattle.std.specs.Prelude.{ℕ, All, List, IfOk, IfSome};
ghost use Rattle.ti_lsp.specs.Analysis.{IsAnalysis};
ghost use Rattle.ti_lsp.specs.Names.{IsKnownAt};
ghost use Rattle.ti_lsp.specs.Symbols.{IsSymbolOf};
ghost use Rattle.ti_lsp.specs.declared.diagnostic.Diagnostic.{Diagnostic};

use crate::{Diagnostic, KnownName, Suggestion, Symbol};
use std::alloc::{AllocError, Global};

/// Analyzes texts of a language.
pub trait Analyzer {
    /// `rejects text diagnostic`: the text has this error.
    ghost rejects: { List ℕ → Diagnostic → Type 0 };

    /// The error of a text, or none if it has none.
    fn analyze(&self, alloc: Global, text: &str) -> Result<Option<Diagnostic>, AllocError>
        ensures { IfOk result (IsAnalysis (rejects text.now)) };

    /// Edits that may fix this error of a text. The edited text is analyzed before they are offered, so nothing is required of them.
    fn suggest(
        &self,
        alloc: Global,
        text: &str,
        diagnostic: &Diagnostic,
    ) -> Result<Vec<Suggestion>, AllocError>;

    /// The name at an offset of a text, and where it is declared, if that is known. Both are names of the text, with the same spelling.
    fn name_at(
        &self,
        alloc: Global,
        text: &str,
        offset: usize,
    ) -> Result<Option<KnownName>, AllocError>
        ensures { IfOk result (λ o. IfSome o (IsKnownAt text.now offset)) };

    /// The symbols that a text declares, as far as they are found. Each name is what is at its offsets in the text.
    fn symbols(&self, alloc: Global, text: &str) -> Result<Vec<Symbol>, AllocError>
        ensures { IfOk result (λ v. All (IsSymbolOf text.now) v.items) };
}
