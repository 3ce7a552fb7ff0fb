// Names in a text: what is said of one, and where it is declared.
ghost use Rattle.std.specs.Prelude.{◌≡◌, IfOk};
ghost use Rattle.serde_json.specs.View.{view};
ghost use Rattle.ti_lsp.specs.Names.{declaration_data, name_hover};

use crate::PositionEncoding;
use crate::publishing::{bytes_range, hover_value, location_value, range_value};
use serde_json::Value;
use std::alloc::{AllocError, Global};

/// A use or the declaration of a name in a text, and the name in its declaration. Offsets count bytes.
#[derive(Drop)]
pub struct KnownName {
    /// The offset of the first byte of the name.
    pub start: usize,
    /// The offset of the first byte after the name.
    pub end: usize,
    /// The offset of the first byte of the name in its declaration.
    pub declared_start: usize,
    /// The offset of the first byte after the name in its declaration.
    pub declared_end: usize,
    /// What the name stands for, as Markdown.
    pub description: String,
}

/// The hover at a name: its description.
pub fn name_hover(
    alloc: Global,
    encoding: PositionEncoding,
    text: &str,
    name: &KnownName,
) -> Result<Value, AllocError>
    ensures { IfOk result (λ v. view v ≡ name_hover encoding text.now name.now) }
{
    let range = range_value(alloc, bytes_range(encoding, text, name.start, name.end))?;
    hover_value(alloc, name.description.as_str(), range)
}

/// The location of the declaration of a name.
pub fn declaration_value(
    alloc: Global,
    encoding: PositionEncoding,
    uri: &str,
    text: &str,
    name: &KnownName,
) -> Result<Value, AllocError>
    ensures { IfOk result (λ v. view v ≡ declaration_data encoding uri.now text.now name.now) }
{
    location_value(
        alloc,
        encoding,
        uri,
        text,
        name.declared_start,
        name.declared_end,
    )
}
