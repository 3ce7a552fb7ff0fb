// The built-in members of domains, grids and regions.
ghost use Rattle.std.specs.Prelude.{◌≡◌, bytes_eq};
ghost use Rattle.std.specs.Option.{option_map};
ghost use Rattle.ti_lang.specs.Program.Views.{program_of};
ghost use Rattle.ti_lang.specs.Typing.BuiltIn.{built_in_named, built_in};
ghost use Rattle.ti_lang.specs.Typing.TyRef.{built_in_of};

use crate::program::ProgramData;
use ti_syntax::Spelled;

/// A built-in member.
#[derive(Clone, Copy)]
pub enum BuiltIn {
    Size,
    Min,
    Max,
    Contains,
    Domain,
    Restrict,
    Translate,
    Slice,
    Copy,
    Exchange,
    Delete,
}

fn is_spelled(name: &Spelled, text: &[u8]) -> bool
    ensures { result ≡ bytes_eq name.now text.now }
{
    name.as_bytes() == text
}

/// The built-in member of this name.
fn built_in_named(name: &Spelled) -> Option<BuiltIn>
    ensures { option_map built_in_of result ≡ built_in_named name.now }
{
    if is_spelled(name, b"size") {
        Some(BuiltIn::Size)
    } else if is_spelled(name, b"min") {
        Some(BuiltIn::Min)
    } else if is_spelled(name, b"max") {
        Some(BuiltIn::Max)
    } else if is_spelled(name, b"contains") {
        Some(BuiltIn::Contains)
    } else if is_spelled(name, b"domain") {
        Some(BuiltIn::Domain)
    } else if is_spelled(name, b"restrict") {
        Some(BuiltIn::Restrict)
    } else if is_spelled(name, b"translate") {
        Some(BuiltIn::Translate)
    } else if is_spelled(name, b"slice") {
        Some(BuiltIn::Slice)
    } else if is_spelled(name, b"copy") {
        Some(BuiltIn::Copy)
    } else if is_spelled(name, b"exchange") {
        Some(BuiltIn::Exchange)
    } else if is_spelled(name, b"delete") {
        Some(BuiltIn::Delete)
    } else {
        None
    }
}

/// The built-in member whose name has this number in the program.
#[tactic(auto, unfolding(crate::specs::Typing::BuiltIn::built_in), using(crate::proofs::Names::name_lookups))]
pub fn built_in(program: &ProgramData, name: u32) -> Option<BuiltIn>
    ensures { option_map built_in_of result ≡ built_in (program_of program.now) name }
{
    let number = name as usize;
    if number < program.names.len() {
        built_in_named(&program.names[number])
    } else {
        None
    }
}
