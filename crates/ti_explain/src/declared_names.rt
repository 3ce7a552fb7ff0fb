// Declared names with their positions: the variables of a method, in scope or not, members and classes.
ghost use Rattle.std.specs.Prelude.{◌≡◌, ◌||◌, false, if◌then◌else◌, ◌∷◌, [], ◌++◌, map, bytes_eq, IfOk, OnOk};
ghost use Rattle.ti_syntax.specs.Trees.Statements.{stms};
ghost use Rattle.ti_syntax.specs.Trees.Views.{stm_of, param_of, params_of, method_of, member_of, class_of};
ghost use Rattle.ti_lang.specs.Members.{is_static};
ghost use Rattle.ti_names.specs.Seen.{tree_maybe};
ghost use Rattle.ti_explain.specs.DeclaredNames.{name_at, variables_in, variables_in_maybe, variables_among, params_among, variables_in_params, variables_in_method, declared_before, fields_at, methods_at, classes_at, static_methods_at};
ghost use Rattle.ti_explain.specs.Mirrors.Names.{name_at_of};

use std::alloc::Global;
use ti_base::{Memory, Place};
use ti_lang::program::has_static;
use ti_syntax::Spelled;
use ti_syntax::tree::{Class, Member, Method, ParamDecl, Params, Stmt};

/// A declared name, with its position.
#[derive(Clone, Copy)]
pub struct DeclaredName<'a> {
    pub name: &'a [u8],
    pub place: Place,
}

/// Declared names, in source order.
#[derive(Drop)]
pub struct DeclaredNames<'a> {
    pub found: Vec<DeclaredName<'a>>,
}

impl<'a> DeclaredNames<'a> {
    /// Adds a name.
    pub fn add(&mut self, name: &'a Spelled, place: Place) -> Result<(), Memory>
        ensures { OnOk result (map name_at_of self.new.found.items ≡ map name_at_of self.old.found.items ++ name_at name.now place ∷ []) }
    {
        self.found.push(DeclaredName {
            name: name.as_bytes(),
            place,
        })?;
        Ok(())
    }

    /// Adds the variables that an optional statement declares.
    #[cycle(variables)]
    pub fn maybe(&mut self, stmt: &'a Option<Box<Stmt>>) -> Result<(), Memory>
        ensures { OnOk result (map name_at_of self.new.found.items
            ≡ map name_at_of self.old.found.items ++ variables_in_maybe (tree_maybe stmt.now)) }
    {
        match stmt {
            Some(x) => self.stmt(x),
            None => Ok(()),
        }
    }

    /// Adds the variables that a statement declares, with all statements in it.
    #[cycle(variables)]
    #[tactic(auto, using(ti_syntax::proofs::Lemmas::bridges))]
    pub fn stmt(&mut self, stmt: &'a Stmt) -> Result<(), Memory>
        ensures { OnOk result (map name_at_of self.new.found.items
            ≡ map name_at_of self.old.found.items ++ variables_in (stm_of stmt.now)) }
    {
        match stmt {
            Stmt::Declare { place, name, .. } => self.add(name, *place),
            Stmt::Block(body) => self.body(body),
            Stmt::If {
                then,
                otherwise,
                ..
            } => {
                self.stmt(then)?;
                self.maybe(otherwise)
            }
            Stmt::While { body, .. } => self.stmt(body),
            Stmt::For {
                first,
                update,
                body,
                ..
            } => {
                self.maybe(first)?;
                self.maybe(update)?;
                self.stmt(body)
            }
            Stmt::Foreach {
                name_place,
                name,
                body,
                ..
            } => {
                self.add(name, *name_place)?;
                self.stmt(body)
            }
            Stmt::Empty
            | Stmt::Assign { .. }
            | Stmt::Update { .. }
            | Stmt::Step { .. }
            | Stmt::Call(_)
            | Stmt::Print(_, _)
            | Stmt::Barrier(_)
            | Stmt::Break(_)
            | Stmt::Continue(_)
            | Stmt::Return(_, _) => Ok(()),
        }
    }

    /// Adds the variables that these statements declare, with all statements in them.
    #[cycle(variables)]
    pub fn body(&mut self, stmts: &'a [Stmt]) -> Result<(), Memory>
        ensures { OnOk result (map name_at_of self.new.found.items
            ≡ map name_at_of self.old.found.items ++ variables_among (stms (map stm_of stmts.now))) }
    {
        for stmt in stmts {
            self.stmt(stmt)?;
        }
        Ok(())
    }

    /// Adds parameters.
    pub fn param_list(&mut self, params: &'a [ParamDecl]) -> Result<(), Memory>
        ensures { OnOk result (map name_at_of self.new.found.items
            ≡ map name_at_of self.old.found.items ++ params_among (map param_of params.now)) }
    {
        for param in params {
            self.add(&param.name, param.place)?;
        }
        Ok(())
    }

    fn params(&mut self, params: &'a Params) -> Result<(), Memory>
        ensures { OnOk result (map name_at_of self.new.found.items
            ≡ map name_at_of self.old.found.items ++ variables_in_params (params_of params.now)) }
    {
        match params {
            Params::MainArgs(_, _) => Ok(()),
            Params::Typed(params) => self.param_list(params),
        }
    }
}

impl<'a> DeclaredNames<'a> {
    /// Adds those of these variables that are declared before a position.
    pub fn add_before(&mut self, place: Place, variables: &[DeclaredName<'a>]) -> Result<(), Memory>
        ensures { OnOk result (map name_at_of self.new.found.items
            ≡ map name_at_of self.old.found.items ++ declared_before place (map name_at_of variables.now)) }
    {
        for v in variables {
            if v.place.is_before(place) {
                self.found.push(*v)?;
            }
        }
        Ok(())
    }

    /// Adds the fields among these members.
    pub fn add_fields(&mut self, members: &'a [Member]) -> Result<(), Memory>
        ensures { OnOk result (map name_at_of self.new.found.items
            ≡ map name_at_of self.old.found.items ++ fields_at (map member_of members.now)) }
    {
        for member in members {
            match member {
                Member::Field(field) => self.add(&field.name, field.place)?,
                Member::Method(_) => {}
            }
        }
        Ok(())
    }

    fn add_method(&mut self, all: bool, method: &'a Method) -> Result<(), Memory>
        ensures { OnOk result (map name_at_of self.new.found.items ≡ map name_at_of self.old.found.items
            ++ (if all || is_static (method_of method.now) then name_at method.now.name method.now.place ∷ [] else [])) }
    {
        if all || has_static(&method.modifiers) {
            self.add(&method.name, method.place)?;
        }
        Ok(())
    }

    /// Adds the methods among these members; if not all are wanted, the static ones.
    pub fn add_methods(&mut self, all: bool, members: &'a [Member]) -> Result<(), Memory>
        ensures { OnOk result (map name_at_of self.new.found.items
            ≡ map name_at_of self.old.found.items ++ methods_at all (map member_of members.now)) }
    {
        for member in members {
            match member {
                Member::Field(_) => {}
                Member::Method(method) => self.add_method(all, method)?,
            }
        }
        Ok(())
    }

    /// Adds the classes.
    pub fn add_classes(&mut self, classes: &'a [Class]) -> Result<(), Memory>
        ensures { OnOk result (map name_at_of self.new.found.items
            ≡ map name_at_of self.old.found.items ++ classes_at (map class_of classes.now)) }
    {
        for class in classes {
            self.add(&class.name, class.place)?;
        }
        Ok(())
    }

    fn add_static_of(&mut self, name: &[u8], class: &'a Class) -> Result<(), Memory>
        ensures { OnOk result (map name_at_of self.new.found.items ≡ map name_at_of self.old.found.items
            ++ (if bytes_eq name.now class.now.name then methods_at false (class_of class.now).members else [])) }
    {
        if name == class.name.as_bytes() {
            self.add_methods(false, &class.members)?;
        }
        Ok(())
    }

    /// Adds the static methods of the classes of this name.
    pub fn add_static_methods(&mut self, name: &[u8], classes: &'a [Class]) -> Result<(), Memory>
        ensures { OnOk result (map name_at_of self.new.found.items
            ≡ map name_at_of self.old.found.items ++ static_methods_at name.now (map class_of classes.now)) }
    {
        for class in classes {
            self.add_static_of(name, class)?;
        }
        Ok(())
    }
}

/// The variables that a method declares, in source order.
pub fn variables_of<'a>(alloc: Global, method: &'a Method) -> Result<Vec<DeclaredName<'a>>, Memory>
    ensures { IfOk result (λ v. map name_at_of v.items ≡ variables_in_method (method_of method.now)) }
{
    let mut names = DeclaredNames {
        found: Vec::new(alloc),
    };
    names.params(&method.params)?;
    names.body(&method.body)?;
    Ok(names.found)
}
