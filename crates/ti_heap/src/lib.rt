//! The heap: the objects and grids of all processes, by their names. What a process makes is stored in its own share; regions can be
//! dropped as a whole.
#![tactic(auto)]

mod allocation;
mod cells;
mod elements;
mod error;
mod fields;
mod heap;
mod makers;
mod proc_heap;
mod region_index;
mod values;

pub use cells::Cells;
pub use error::HeapErr;
pub use heap::Heap;
