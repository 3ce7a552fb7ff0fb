// The instructions: what each does to the slots and operands of its frame, and which action of the store it requests.

pub(crate) mod collectives;
pub(crate) mod dispatch;
pub(crate) mod domains;
pub(crate) mod heap_ops;
pub(crate) mod instructions;
pub(crate) mod values;
