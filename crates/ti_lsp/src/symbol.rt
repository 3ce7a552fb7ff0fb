// Symbols: the declarations of a document, as an editor lists them.
ghost use Rattle.std.specs.Prelude.{◌≡◌, IfOk, map};
ghost use Rattle.serde_json.specs.View.{view};
ghost use Rattle.ti_lsp.specs.Symbols.{kind_number, symbol_data, symbols_of};

use crate::PositionEncoding;
use crate::publishing::{bytes_range, range_value};
use serde_json::{Value, json};
use std::alloc::{AllocError, Global};

/// What a symbol is.
#[derive(Clone, Copy, Debug, PartialEq, Eq)]
pub enum SymbolKind {
    Class,
    Method,
    Field,
}

/// A symbol of a text: its name, and where it is declared.
#[derive(Drop)]
pub struct Symbol {
    pub name: String,
    pub kind: SymbolKind,
    /// The offset of the first byte of the name in its declaration.
    pub start: usize,
    /// The offset of the first byte after the name.
    pub end: usize,
}

impl SymbolKind {
    // Its number in the protocol.
    fn number(self) -> u64
        ensures { result ≡ kind_number self }
    {
        match self {
            SymbolKind::Class => 5,
            SymbolKind::Method => 6,
            SymbolKind::Field => 8,
        }
    }
}

fn symbol_value(
    alloc: Global,
    encoding: PositionEncoding,
    uri: &str,
    text: &str,
    symbol: &Symbol,
) -> Result<Value, AllocError>
    ensures { IfOk result (λ v. view v ≡ symbol_data encoding uri.now text.now symbol.now) }
{
    let range = range_value(alloc, bytes_range(encoding, text, symbol.start, symbol.end))?;
    json!(in alloc; {
        "name": (symbol.name.as_str()),
        "kind": (symbol.kind.number()),
        "location": {"uri": uri, "range": range}
    })
}

fn symbol_values(
    alloc: Global,
    encoding: PositionEncoding,
    uri: &str,
    text: &str,
    symbols: &[Symbol],
) -> Result<Vec<Value>, AllocError>
    ensures { IfOk result (λ vs. map view vs.items
        ≡ map (symbol_data encoding uri.now text.now) symbols.now) }
{
    let mut values = Vec::new(alloc);
    for symbol in symbols {
        values.push(symbol_value(alloc, encoding, uri, text, symbol)?)?;
    }
    Ok(values)
}

/// The symbols of a document as JSON, in the order in which they are given.
pub fn symbols_value(
    alloc: Global,
    encoding: PositionEncoding,
    uri: &str,
    text: &str,
    symbols: &[Symbol],
) -> Result<Value, AllocError>
    ensures { IfOk result (λ v. view v ≡ symbols_of encoding uri.now text.now symbols.now) }
{
    Ok(Value::Array(symbol_values(alloc, encoding, uri, text, symbols)?))
}
