// The context of name resolution, and the meaning of names in it.

ghost use Rattle.std.specs.Prelude.{◌≡◌, ◌+◌, take, IfOk, OnOk};
ghost use Rattle.std.specs.Option.{option_map};
ghost use Rattle.ti_syntax.specs.Trees.Views.{exp_of};
ghost use Rattle.ti_lang.specs.Program.Views.{variable_of, declared_of};
ghost use Rattle.ti_lang.specs.Scopes.{variable_named, own_field_named, own_method_named, static_method_named, class_before_dot, class_site, method_site, declares};
ghost use Rattle.ti_names.specs.MethodDecl.{method_decl_of};
ghost use Rattle.ti_names.specs.Seen.{site_of, text_of_tables};

use crate::method_decls::MethodDecl;
use crate::names::Names;
use crate::number::next_number;
use crate::tables::Tables;
use std::alloc::Global;
use ti_base::Memory;
use ti_lang::program::{Declared, Variable, has_static};
use ti_syntax::{Spelled, tree};

/// The context of name resolution at a point of a program.
#[derive(Drop)]
pub struct NameContext<'t, 'a> {
    /// The allocator of the resolved program.
    pub alloc: Global,
    /// The symbol tables of the program.
    pub tables: &'t Tables<'a>,
    /// The number of the enclosing class.
    pub class: u32,
    /// Whether there is no `this`: in a static method, or outside of methods.
    pub is_static: bool,
    /// The variables in scope, outermost first.
    pub scope: Names<'a, Variable>,
    /// The number of variables that the method has declared so far; the next one gets it as its number.
    pub variables: u32,
    /// The number of string literals before this point in the source; the next one gets it as its number.
    pub literals: u32,
}

/// The context in a class, outside of methods.
pub fn class_site<'t, 'a>(alloc: Global, tables: &'t Tables<'a>, class: u32) -> NameContext<'t, 'a>
    ensures { site_of result ≡ class_site (text_of_tables tables.now) class }
{
    NameContext {
        alloc,
        tables,
        class,
        is_static: true,
        scope: Names::new(alloc),
        variables: 0,
        literals: 0,
    }
}

/// The context at a method's first parameter, with `before` string literals before it.
pub fn method_site<'t, 'a>(
    alloc: Global,
    tables: &'t Tables<'a>,
    own: MethodDecl<'a>,
    before: u32,
) -> NameContext<'t, 'a>
    ensures { site_of result ≡ method_site (text_of_tables tables.now) (method_decl_of own.entry) before }
{
    NameContext {
        alloc,
        tables,
        class: own.class,
        is_static: has_static(&own.method.modifiers),
        scope: Names::new(alloc),
        variables: 0,
        literals: before,
    }
}

impl<'t, 'a> NameContext<'t, 'a> {
    // ---- lookups

    /// The variable in scope with this name.
    pub fn variable(&self, name: &[u8]) -> Option<&Variable>
        ensures { option_map (λ v. variable_of v.now) result ≡ variable_named (site_of self.now) name.now }
    {
        self.scope.get(name)
    }

    /// The field of `this` with this name; None in a static context.
    pub fn own_field(&self, name: &[u8]) -> Option<u32>
        ensures { result ≡ own_field_named (site_of self.now) name.now }
    {
        if self.is_static {
            None
        } else {
            self.tables.field(self.class, name)
        }
    }

    /// The method that a call by a simple name refers to. In a static context, only static methods are found.
    pub fn own_method(&self, name: &[u8]) -> Option<u32>
        ensures { result ≡ own_method_named (site_of self.now) name.now }
    {
        match self.tables.method(self.class, name) {
            Some(method) => {
                if self.tables.is_static(method) || !self.is_static {
                    Some(method)
                } else {
                    None
                }
            }
            None => None,
        }
    }

    /// The static method of a class that `C.m(..)` refers to.
    pub fn static_method(&self, class: u32, name: &[u8]) -> Option<u32>
        ensures { result ≡ static_method_named (site_of self.now) class name.now }
    {
        match self.tables.method(class, name) {
            Some(method) => {
                if self.tables.is_static(method) {
                    Some(method)
                } else {
                    None
                }
            }
            None => None,
        }
    }

    /// The class that an expression before a `.` refers to: a name that is neither a variable nor a field.
    pub fn class_before_dot(&self, expr: &tree::Expr) -> Option<u32>
        ensures { result ≡ class_before_dot (site_of self.now) (exp_of expr.now) }
    {
        match expr {
            tree::Expr::Name(_, name) => {
                let name = name.as_bytes();
                if self.variable(name).is_some() || self.own_field(name).is_some() {
                    None
                } else {
                    self.tables.class(name)
                }
            }
            tree::Expr::Int(_, _)
            | tree::Expr::Long(_, _)
            | tree::Expr::Bool(_, _)
            | tree::Expr::Null(_)
            | tree::Expr::This(_)
            | tree::Expr::Call { .. }
            | tree::Expr::ThisProc(_)
            | tree::Expr::NumProcs(_)
            | tree::Expr::Point(_, _)
            | tree::Expr::Rect(_, _)
            | tree::Expr::Unary { .. }
            | tree::Expr::Binary { .. }
            | tree::Expr::Cast { .. }
            | tree::Expr::Select { .. }
            | tree::Expr::Member { .. }
            | tree::Expr::Index { .. } => None,
        }
    }

    // ---- updates of the context

    /// Puts a variable in scope and returns its number.
    #[tactic(auto, using(crate::proofs::Lists::scopes))]
    pub fn declare(&mut self, name: &'a Spelled, declared: Declared) -> Result<u32, Memory>
        ensures number { IfOk result (λ n. n ≡ self.old.variables) }
        ensures site { OnOk result (site_of self.new ≡ declares (site_of self.old) name.now (declared_of declared)) }
    {
        let number = self.variables;
        let behind = next_number(number)?;
        self.scope
            .add(name.as_bytes(), Variable { number, declared })?;
        self.variables = behind;
        Ok(number)
    }

    /// Ends a scope: removes all but the first `len` variables.
    #[tactic(auto, using(crate::proofs::Lists::scopes))]
    pub fn cut(&mut self, len: usize)
        ensures { site_of self.new ≡ record (site_of self.old) { scope = take len (site_of self.old).scope } }
    {
        self.scope.truncate(len);
    }

    /// Counts a string literal and returns its number.
    pub fn literal(&mut self) -> Result<u32, Memory>
        ensures number { IfOk result (λ n. n ≡ self.old.literals) }
        ensures site { OnOk result (site_of self.new ≡ record (site_of self.old) { literals = self.old.literals + 1 }) }
    {
        let number = self.literals;
        self.literals = next_number(number)?;
        Ok(number)
    }
}
