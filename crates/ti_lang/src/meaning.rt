//! Theorems about the semantics: functions with empty bodies whose contracts are the theorems.

pub mod heap_laws;
pub mod process_laws;
pub mod race_laws;
pub mod run_laws;
pub mod text_laws;
