//! Generates the code of expressions.
#![tactic(auto)]

mod context;
mod emission;
mod entry;
mod fields;
mod kinds;
mod slots;
mod walker;

pub use context::{LoweringContext, StaticValue};
pub use emission::{
    add_conversion, add_point, add_pops, declared_zero, emit, load_this, to_u32, u32_sum,
};
pub use entry::{expressions_are_done, lower_expr, lower_rect, lower_value};
pub use fields::resolve_field;
pub use kinds::{
    OperandClass, StaticRepr, kind_of_seen, known_declared, known_of_binary, operation_of,
};
pub use slots::{SlotName, Slots};
