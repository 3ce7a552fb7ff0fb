// Classes and fields: their resolution, and the naming rules for them.

ghost use Rattle.std.specs.Prelude.{◌≡◌, ◌∷◌, [], ◌++◌, map, IfOk};
ghost use Rattle.ti_syntax.specs.Trees.Views.{class_of, member_of, field_of, type_tree_of};
ghost use Rattle.ti_lang.specs.Program.Views.{numbered_field_of, numbered_class_of};
ghost use Rattle.ti_lang.specs.Members.{fields_in};
ghost use Rattle.ti_lang.specs.Scopes.{class_site};
ghost use Rattle.ti_lang.specs.Nodes.{node, FieldName, ClassName, type_nodes, fields_nodes, classes_nodes};
ghost use Rattle.ti_names.specs.Mirrors.Numbered.{number_field, number_fields, number_class, number_classes};
ghost use Rattle.ti_names.specs.Found.{first_in};
ghost use Rattle.ti_names.specs.Seen.{site_of, text_of_tables};

use crate::checks::is_another;
use crate::context::{NameContext, class_site};
use crate::number::next_number;
use crate::tables::Tables;
use std::alloc::Global;
use ti_base::Memory;
use ti_lang::program::{Class, Field};
use ti_rules::{Refusal, Rule, earlier_of, refused_if};
use ti_syntax::tree;

impl<'t, 'a> NameContext<'t, 'a> {
    fn field(&self, field: &tree::Field) -> Result<Field, Memory>
        ensures { IfOk result (λ f. numbered_field_of f ≡ number_field (text_of_tables self.now.tables.now) (field_of field.now)) }
    {
        Ok(Field {
            modifiers: field.modifiers.to_vec(self.alloc)?,
            ty: self.type_use(&field.ty)?,
            name: self.tables.name(field.name.as_bytes()),
        })
    }

    fn fields(&self, members: &[tree::Member]) -> Result<Vec<Field>, Memory>
        ensures { IfOk result (λ v. map numbered_field_of v.items ≡ number_fields (text_of_tables self.now.tables.now)
            (fields_in (map member_of members.now))) }
    {
        let mut fields = Vec::new(self.alloc);
        for member in members {
            match member {
                tree::Member::Field(field) => fields.push(self.field(field)?)?,
                tree::Member::Method(_) => {}
            }
        }
        Ok(fields)
    }

    fn class(&self, class: &tree::Class) -> Result<Class, Memory>
        ensures { IfOk result (λ c. numbered_class_of c ≡ number_class (text_of_tables self.now.tables.now) (class_of class.now)) }
    {
        Ok(Class {
            modifiers: class.modifiers.to_vec(self.alloc)?,
            fields: self.fields(&class.members)?,
        })
    }

    fn classes(&self, classes: &[tree::Class]) -> Result<Vec<Class>, Memory>
        ensures { IfOk result (λ v. map numbered_class_of v.items ≡ number_classes (text_of_tables self.now.tables.now)
            (map class_of classes.now)) }
    {
        let mut done = Vec::new(self.alloc);
        for class in classes {
            done.push(self.class(class)?)?;
        }
        Ok(done)
    }

    // ---- diagnostics

    #[tactic(auto, using(crate::proofs::Firsts::in_nodes))]
    fn check_field(&self, number: u32, field: &tree::Field) -> Option<Refusal>
        ensures { result ≡ first_in (node (site_of self.now) (FieldName number (field_of field.now)) ∷ type_nodes (site_of self.now)
            (type_tree_of field.now.ty)) }
    {
        let named = self.tables.field(self.class, field.name.as_bytes());
        let twice = refused_if(is_another(named, number), Rule::N2, field.place);
        earlier_of(twice, self.check_type(&field.ty))
    }

    #[tactic(auto, using(crate::proofs::Firsts::none_sooner))]
    fn check_fields(&self, members: &[tree::Member]) -> Result<Option<Refusal>, Memory>
        ensures { IfOk result (λ r. r ≡ first_in (fields_nodes (site_of self.now) 0 (fields_in (map member_of members.now)))) }
    {
        let mut found = None;
        let mut number = 0;
        for member in members {
            match member {
                tree::Member::Field(field) => {
                    found = earlier_of(found, self.check_field(number, field));
                    number = next_number(number)?;
                }
                tree::Member::Method(_) => {}
            }
        }
        Ok(found)
    }

    #[tactic(auto, using(crate::proofs::Firsts::in_nodes))]
    fn check_class(&self, class: &tree::Class) -> Result<Option<Refusal>, Memory>
        ensures { IfOk result (λ r. r ≡ first_in (node (site_of self.now) (ClassName self.now.class (class_of class.now)) ∷ fields_nodes
            (site_of self.now) 0 (fields_in (class_of class.now).members))) }
    {
        let named = self.tables.class(class.name.as_bytes());
        let twice = refused_if(is_another(named, self.class), Rule::N2, class.place);
        Ok(earlier_of(twice, self.check_fields(&class.members)?))
    }
}

/// Resolves the classes of a program, without their methods.
pub fn classes(
    alloc: Global,
    tables: &Tables<'_>,
    classes: &[tree::Class],
) -> Result<Vec<Class>, Memory>
    ensures { IfOk result (λ v. map numbered_class_of v.items ≡ number_classes (text_of_tables tables.now) (map class_of classes.now)) }
{
    class_site(alloc, tables, 0).classes(classes)
}

/// The first broken naming rule in a class and its fields.
fn check_class(
    alloc: Global,
    tables: &Tables<'_>,
    number: u32,
    class: &tree::Class,
) -> Result<Option<Refusal>, Memory>
    ensures { IfOk result (λ r. r ≡ first_in (node (class_site (text_of_tables tables.now) number) (ClassName number (class_of class.now))
        ∷ fields_nodes (class_site (text_of_tables tables.now) number) 0 (fields_in (class_of class.now).members))) }
{
    class_site(alloc, tables, number).check_class(class)
}

/// The first broken naming rule in the classes and fields of a program, without the methods.
#[tactic(auto, using(crate::proofs::Firsts::none_sooner))]
pub fn check_classes(
    alloc: Global,
    tables: &Tables<'_>,
    classes: &[tree::Class],
) -> Result<Option<Refusal>, Memory>
    ensures { IfOk result (λ r. r ≡ first_in (classes_nodes (text_of_tables tables.now) 0 (map class_of classes.now))) }
{
    let mut found = None;
    let mut number = 0;
    for class in classes {
        found = earlier_of(found, check_class(alloc, tables, number, class)?);
        number = next_number(number)?;
    }
    Ok(found)
}
