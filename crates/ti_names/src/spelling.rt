// The interned names of members.
ghost use Rattle.std.specs.Prelude.{◌≡◌};
ghost use Rattle.ti_names.specs.Mirrors.Tables.{with_indices};

use crate::names::Names;
use crate::number::to_u32;
use std::alloc::Global;
use ti_base::Memory;
use ti_syntax::Spelled;

/// Interned member names: `spelled` by number, and `numbers` by name.
#[derive(Drop)]
pub struct NameTable<'a> {
    pub spelled: Vec<Spelled>,
    pub numbers: Names<'a, u32>,
    ghost told: { numbers ≡ with_indices 0 spelled.items },
}

impl<'a> NameTable<'a> {
    ghost use Rattle.std.specs.Prelude.{IfOk};
    ghost use Rattle.ti_lang.specs.Members.{with_name, built_in};

    /// Interns a name.
    pub fn with(self, alloc: Global, name: &'a [u8]) -> Result<NameTable<'a>, Memory>
        ensures { IfOk result (λ t. t.spelled.items ≡ with_name self.entry.spelled.items name.now) }
    {
        if self.numbers.get(name).is_some() {
            return Ok(self);
        }
        let number = to_u32(self.spelled.len())?;
        let mut spelled = self.spelled;
        let mut numbers = self.numbers;
        let bytes = name.to_vec(alloc)?;
        spelled.push(Spelled::new(bytes))?;
        numbers.add(name, number)?;
        Ok(NameTable { spelled, numbers })
    }

    /// The names of the built-in members.
    pub fn built_in(alloc: Global) -> Result<NameTable<'a>, Memory>
        ensures { IfOk result (λ t. t.spelled.items ≡ built_in) }
    {
        let none = NameTable {
            spelled: Vec::new(alloc),
            numbers: Names::new(alloc),
        };
        let names = none.with(alloc, b"size")?;
        let names = names.with(alloc, b"min")?;
        let names = names.with(alloc, b"max")?;
        let names = names.with(alloc, b"contains")?;
        let names = names.with(alloc, b"domain")?;
        let names = names.with(alloc, b"restrict")?;
        let names = names.with(alloc, b"translate")?;
        let names = names.with(alloc, b"slice")?;
        let names = names.with(alloc, b"copy")?;
        let names = names.with(alloc, b"exchange")?;
        names.with(alloc, b"delete")
    }
}
