// Construction of programs, and lookup of their fields and methods by name.
ghost use Rattle.std.specs.Prelude.{◌≡◌, ◌==◌, ◌&&◌, map, position, IfOk};
ghost use Rattle.ti_lang.specs.Program.Classes.{NumberedMethod};
ghost use Rattle.ti_lang.specs.Program.Views.{numbered_class_of, numbered_method_of, program_of};
ghost use Rattle.ti_lang.specs.Typing.Declared.{field_numbered};

use super::classes::{Class, Method, ProgramData};
use super::index::{first_fields, first_methods};
use std::alloc::Global;
use ti_base::Memory;
use ti_syntax::Spelled;

impl ProgramData {
    /// The program with these classes, methods, number of `main`, names of members and string literals. Builds the lookup tables.
    pub fn of(
        alloc: Global,
        classes: Vec<Class>,
        methods: Vec<Method>,
        main: u32,
        names: Vec<Spelled>,
        literals: Vec<Spelled>,
    ) -> Result<ProgramData, Memory>
        ensures { IfOk result (λ p. program_of p ≡ record {
          classes = map numbered_class_of classes.items;
          methods = map numbered_method_of methods.items;
          main = main;
          names = names.items;
          literals = literals.items;
        }) }
    {
        let first_fields = first_fields(alloc, &classes)?;
        let first_methods = first_methods(alloc, &methods)?;
        Ok(ProgramData {
            classes,
            methods,
            main,
            names,
            literals,
            first_fields,
            first_methods,
        })
    }

    /// The number, within its class, of the first field of this name in a class.
    pub fn first_field(&self, class: u32, name: u32) -> Option<usize>
        ensures { result ≡ field_numbered (program_of self.now) name class }
    {
        self.first_fields.get(class as usize, name)
    }

    /// The number of the first method of this name in a class.
    pub fn first_method(&self, class: u32, name: u32) -> Option<usize>
        ensures { result ≡ position (λ (m : NumberedMethod). (m.class == class) && (m.name == name)) (program_of self.now).methods }
    {
        self.first_methods.get(class as usize, name)
    }
}
