//! Explanations: why a text is refused, as positions in it with what is there.
#![tactic(auto)]

mod declarations;
mod declared_names;
mod depth;
mod effects;
mod expected;
mod faulty_parts;
mod laws;
mod main_reasons;
mod methods;
mod misplaced_words;
mod name_reason;
mod name_reasons;
mod name_uses;
mod near_spelling;
mod phases;
mod plain;
mod reason;
mod redeclared;
mod refused_names;
mod search;
mod spans;
mod statement;
mod type_reason;
mod type_reasons;
mod type_statement;
mod type_texts;

pub use laws::{
    effects_are_named, main_is_explained, plain_parts_are_named, singles_are_explained,
};
pub use name_reason::{MainDefect, NameReason, SoughtName};
pub use phases::explain;
pub use plain::plain_part;
pub use reason::{
    ChainLink, EffectAt, Explanation, GlobalEffect, LinkCause, LinkPart, PlainCause, PlainPart,
    ReasonKind, ReasonSpan, RefusalReason, RefusalReasons,
};
pub use spans::explanation_of;
pub use type_reason::{TargetDefect, TypeReason, ValueDefect, WordDefect};
