// Hover at an error of a document.
ghost use Rattle.std.specs.Prelude.{◌≡◌, ◌++◌, string_bytes, IfOk, OnOk};
ghost use Rattle.serde_json.specs.View.{view};
ghost use Rattle.ti_lsp.specs.Diagnostics.{diagnostic_hover, hover_text, paragraph};

use crate::publishing::{bytes_range, hover_value, range_value};
use crate::{Diagnostic, PositionEncoding};
use serde_json::Value;
use std::alloc::{AllocError, Global};

// Appends a paragraph that begins with these words, if there is one.
fn push_paragraph(out: &mut String, words: &str, text: &str) -> Result<(), AllocError>
    ensures { OnOk result (string_bytes out.new
        ≡ string_bytes out.old ++ paragraph words.now text.now) }
{
    if text.is_empty() {
        return Ok(());
    }
    out.push_str("\n\n")?;
    out.push_str(words)?;
    out.push_str(text)
}

fn hover_text(alloc: Global, diagnostic: &Diagnostic) -> Result<String, AllocError>
    ensures { IfOk result (λ s. string_bytes s ≡ hover_text diagnostic.now) }
{
    let mut text = String::from_str(alloc, "**")?;
    text.push_str(diagnostic.code)?;
    text.push_str("** ")?;
    text.push_str(diagnostic.message)?;
    push_paragraph(&mut text, "", diagnostic.label.as_str())?;
    push_paragraph(&mut text, "Help: ", diagnostic.help.as_str())?;
    Ok(text)
}

/// The hover at an error of a text: the rule, what is wrong, and how to fix it.
pub fn diagnostic_hover(
    alloc: Global,
    encoding: PositionEncoding,
    text: &str,
    diagnostic: &Diagnostic,
) -> Result<Value, AllocError>
    ensures { IfOk result (λ v. view v ≡ diagnostic_hover encoding text.now diagnostic.now) }
{
    let range = bytes_range(encoding, text, diagnostic.start, diagnostic.end);
    let range = range_value(alloc, range)?;
    let said = hover_text(alloc, diagnostic)?;
    hover_value(alloc, said.as_str(), range)
}
