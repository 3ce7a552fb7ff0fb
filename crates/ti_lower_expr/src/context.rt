// The context of an expression, and what is statically known of its value.

use crate::kinds::StaticRepr;
use crate::slots::Slots;
use ti_lang::program::ProgramData;
use ti_lang::typing::TyRef;

/// The context of an expression: the program, the class of `this` in its method, if there is a `this`, and what the slots are for.
#[derive(Clone, Copy)]
pub struct LoweringContext<'s, 'p> {
    pub program: &'p ProgramData,
    pub this: Option<u32>,
    pub slots: &'s Slots<'p>,
}

/// What is statically known of the value of an expression: its type, and which conversions are idle.
#[derive(Clone, Copy)]
pub struct StaticValue<'a> {
    pub ty: TyRef<'a>,
    pub known: StaticRepr,
}
