// titan as an analyzer. The texts of a language server are strings; titan takes their bytes.
ghost use Rattle.std.specs.Prelude.{All, IfOk, IfSome};
ghost use Rattle.ti_diagnostics.specs.Rejections.{Rejects};
ghost use Rattle.ti_lsp.specs.Analysis.{IsAnalysis};
ghost use Rattle.ti_lsp.specs.Names.{IsKnownAt};
ghost use Rattle.ti_lsp.specs.Symbols.{IsSymbolOf};

use std::alloc::{AllocError, Global};
use ti_base::Memory;
use ti_declarations::{known_name, symbols_of};
use ti_diagnostics::{annotation_edits, diagnostic_of, spelling_suggestions};
use ti_explain::explain;
use ti_infer::Marking;
use ti_lex::{LexErr, MOST_BYTES, lex};
use ti_lsp::{Analyzer, Diagnostic, KnownName, Suggestion, Symbol, TextEdit};
use ti_rules::Rule;
use ti_top::marking_of_text;

/// titan as an analyzer.
#[derive(Clone, Copy, Debug)]
pub struct Titan;

// The error of a text with its reasons, as a diagnostic.
fn analyzed(alloc: Global, text: &[u8]) -> Result<Option<Diagnostic>, Memory>
    ensures { IfOk result (IsAnalysis (Rejects text.now)) }
{
    match explain(alloc, text)? {
        Some(explanation) => Ok(Some(diagnostic_of(alloc, text, &explanation)?)),
        None => Ok(None),
    }
}

// The edits that bring the annotations of a text to a marking.
fn edits_for(alloc: Global, text: &[u8], marking: &Marking) -> Result<Vec<TextEdit>, Memory> {
    if text.len() > MOST_BYTES {
        return Ok(Vec::new(alloc));
    }
    match lex(alloc, text) {
        Ok(tokens) => annotation_edits(alloc, text, &tokens, marking.marks()),
        Err(LexErr::Refused(_)) => Ok(Vec::new(alloc)),
        Err(LexErr::Memory) => Err(Memory),
    }
}

// The edits that bring a text to its greatest marking, if it has one.
fn edits_to_marking(alloc: Global, text: &[u8]) -> Result<Vec<TextEdit>, Memory> {
    match marking_of_text(alloc, text)? {
        Some(marking) => edits_for(alloc, text, &marking),
        None => Ok(Vec::new(alloc)),
    }
}

// The suggestion that brings the annotations of a text to its greatest marking, if they aren't so.
fn annotation_suggestions(alloc: Global, text: &[u8]) -> Result<Vec<Suggestion>, Memory> {
    let mut suggestions = Vec::new(alloc);
    let edits = edits_to_marking(alloc, text)?;
    if !edits.is_empty() {
        suggestions.push(Suggestion {
            title: String::from_str(alloc, "Insert `single` where it belongs")?,
            is_automatic: true,
            edits,
        })?;
    }
    Ok(suggestions)
}

// Edits that may fix this error of a text: other spellings of a name that means nothing, or annotations.
fn suggestions_for(
    alloc: Global,
    text: &[u8],
    diagnostic: &Diagnostic,
) -> Result<Vec<Suggestion>, Memory> {
    if diagnostic.code != Rule::N1.code() {
        return annotation_suggestions(alloc, text);
    }
    match explain(alloc, text)? {
        Some(explanation) => {
            spelling_suggestions(alloc, diagnostic.start, diagnostic.end, &explanation)
        }
        None => Ok(Vec::new(alloc)),
    }
}

// The symbols that the tokens of a text declare. None if it has no tokens.
fn declared_symbols(alloc: Global, text: &[u8]) -> Result<Vec<Symbol>, Memory>
    ensures { IfOk result (λ v. All (IsSymbolOf text.now) v.items) }
{
    if text.len() > MOST_BYTES {
        return Ok(Vec::new(alloc));
    }
    match lex(alloc, text) {
        Ok(tokens) => symbols_of(alloc, text, &tokens),
        Err(LexErr::Refused(_)) => Ok(Vec::new(alloc)),
        Err(LexErr::Memory) => Err(Memory),
    }
}

// What is known of the name at an offset of a text.
fn name_known(alloc: Global, text: &[u8], offset: usize) -> Result<Option<KnownName>, Memory>
    ensures { IfOk result (λ o. IfSome o (IsKnownAt text.now offset)) }
{
    let known = known_name(alloc, text, offset)?;
    Ok(known)
}

impl Analyzer for Titan {
    ghost rejects = { Rejects };

    fn analyze(&self, alloc: Global, text: &str) -> Result<Option<Diagnostic>, AllocError> {
        match analyzed(alloc, text.as_bytes()) {
            Ok(diagnostic) => Ok(diagnostic),
            Err(Memory) => Err(AllocError),
        }
    }

    fn suggest(
        &self,
        alloc: Global,
        text: &str,
        diagnostic: &Diagnostic,
    ) -> Result<Vec<Suggestion>, AllocError> {
        match suggestions_for(alloc, text.as_bytes(), diagnostic) {
            Ok(suggestions) => Ok(suggestions),
            Err(Memory) => Err(AllocError),
        }
    }

    fn symbols(&self, alloc: Global, text: &str) -> Result<Vec<Symbol>, AllocError> {
        match declared_symbols(alloc, text.as_bytes()) {
            Ok(symbols) => Ok(symbols),
            Err(Memory) => Err(AllocError),
        }
    }

    fn name_at(
        &self,
        alloc: Global,
        text: &str,
        offset: usize,
    ) -> Result<Option<KnownName>, AllocError> {
        match name_known(alloc, text.as_bytes(), offset) {
            Ok(known) => Ok(known),
            Err(Memory) => Err(AllocError),
        }
    }
}
