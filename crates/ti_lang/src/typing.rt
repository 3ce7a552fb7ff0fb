//! Static types of expressions, as views that borrow from the program, so that typing doesn't allocate.

mod fields;
mod lookup;
mod members;
mod text;
mod ty_copy;
mod ty_ref;

pub use fields::{field_number, zero_of_type};
pub use lookup::{
    field_type, instance_method, method, method_behind, named_field_type, own_field_type,
    select_type, this_type, variable_type,
};
pub use members::{BuiltIn, built_in};
pub use text::{
    ForeachDims, called_method, dims_of, member_called, operator_type, static_element_type,
    static_field_type, static_member_type, syntactic_type, syntactic_type_with,
};
pub use ty_ref::{TyRef, same_elements};
