// Resolution of types.

ghost use Rattle.std.specs.Prelude.{◌≡◌, map, IfOk};
ghost use Rattle.ti_syntax.specs.Trees.Views.{type_tree_of, grid_of};
ghost use Rattle.ti_lang.specs.Program.Views.{value_type_of, type_use_of, declared_of};
ghost use Rattle.ti_lang.specs.Scopes.{base_type, grid_type, numbered_type, typed_as};
ghost use Rattle.ti_names.specs.Seen.{text_of_tables};

use crate::context::NameContext;
use ti_base::Memory;
use ti_lang::program::{Declared, Ty, TypeUse, copy_all, has_local, has_single};
use ti_syntax::tree::{Base, Brackets, Qualifier, TypeName};

impl<'t, 'a> NameContext<'t, 'a> {
    fn base_type(&self, words: &[Qualifier], base: &Base) -> Ty
        ensures { value_type_of result ≡ base_type (text_of_tables self.now.tables.now) words.now base.now }
    {
        match base {
            Base::Int(_) => Ty::Int,
            Base::Long(_) => Ty::Long,
            Base::Boolean(_) => Ty::Bool,
            Base::Point(_, dim) => Ty::Pt(*dim),
            Base::RectDomain(_, dim) => Ty::Rc(*dim),
            Base::Domain(_, dim) => Ty::Dm(*dim),
            Base::SharedRegion(_) => Ty::Region,
            Base::Named(_, name) => match self.tables.class(name.as_bytes()) {
                Some(class) => Ty::Class {
                    class,
                    local: has_local(words),
                },
                None => Ty::Null,
            },
        }
    }

    fn grid_type(&self, element: Ty, grids: &[Brackets]) -> Result<Ty, Memory>
        ensures { IfOk result (λ ty. value_type_of ty ≡ grid_type (value_type_of element) (map grid_of grids.now)) }
    {
        let mut ty = element;
        let mut left = grids.len();
        while left > 0 {
            left -= 1;
            ty = Ty::Grid {
                elem: Box::new(self.alloc, ty)?,
                dim: grids[left].dim,
                local: has_local(&grids[left].qualifiers),
            };
        }
        Ok(ty)
    }

    /// Resolves a type.
    #[tactic(auto, using(ti_lang::proofs::Lemmas::copies))]
    pub fn type_use(&self, ty: &TypeName) -> Result<TypeUse, Memory>
        ensures { IfOk result (λ t. type_use_of t ≡ numbered_type (text_of_tables self.now.tables.now) (type_tree_of ty.now)) }
    {
        let base = self.base_type(&ty.qualifiers, &ty.base);
        Ok(TypeUse {
            ty: self.grid_type(base, &ty.grids)?,
            single: has_single(&ty.qualifiers),
            qualifiers: ty.qualifiers.to_vec(self.alloc)?,
            grids: copy_all(self.alloc, &ty.grids)?,
        })
    }

    /// What a declaration with this type says of the variable: its type, and whether it is single.
    pub fn declaration_of(&self, ty: &TypeName) -> Result<Declared, Memory>
        ensures { IfOk result (λ d. declared_of d ≡ typed_as (text_of_tables self.now.tables.now) (type_tree_of ty.now)) }
    {
        let base = self.base_type(&ty.qualifiers, &ty.base);
        Ok(Declared::Typed {
            single: has_single(&ty.qualifiers),
            ty: self.grid_type(base, &ty.grids)?,
        })
    }
}
