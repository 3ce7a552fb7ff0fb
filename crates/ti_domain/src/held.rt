// Values of variables.

use crate::dom::Dom;
use ti_base::Value;

/// The value of a variable: one that can be copied, or a domain.
#[derive(Drop)]
pub enum Held {
    /// A value that can be copied; a rectangular domain is one.
    Plain(Value),
    /// A value of type `Domain`.
    Dm(Dom),
}
