//! Single values: which expressions are single, which statements have global effects, and which break a rule of single values.
#![tactic(auto)]

mod context;
mod deref;
mod effects;
mod loops;
mod rules;
mod singleness;
mod statements;

pub use context::SingleContext;
pub use deref::{
    deref_expr, deref_exprs, deref_init, deref_ranges, deref_stmt, deref_stmts, deref_type,
};
pub use effects::has_effects;
pub use loops::effects_in_loop;
pub use singleness::{is_single, is_single_part, is_single_target};
pub use statements::{
    Effects, has_global_effects, has_single_result, jump_acts, method_effects, return_acts,
    stmt_effects, this_of,
};
