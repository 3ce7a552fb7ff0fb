// The string literals of a method, in source order.

ghost use Rattle.std.specs.Prelude.{◌≡◌, ◌++◌, ◌∷◌, [], map, OnOk};
ghost use Rattle.ti_syntax.specs.Trees.Views.{stm_of, print_of};
ghost use Rattle.ti_syntax.specs.Trees.Statements.{stms};
ghost use Rattle.ti_lang.specs.Scopes.{printed_text, literals, literals_of, literals_in};
ghost use Rattle.ti_names.specs.Seen.{tree_maybe};

use std::alloc::Global;
use ti_base::Memory;
use ti_syntax::Spelled;
use ti_syntax::tree::{PrintArgument, Stmt};

/// A collector of string literals, in source order.
#[derive(Drop)]
pub struct Literals {
    pub alloc: Global,
    pub texts: Vec<Spelled>,
}

impl Literals {
    fn text(&mut self, text: &Spelled) -> Result<(), Memory>
        ensures { OnOk result (self.new.texts.items ≡ self.old.texts.items ++ text.now ∷ []) }
    {
        let text = text.copy(self.alloc)?;
        Ok(self.texts.push(text)?)
    }

    fn print(&mut self, what: &PrintArgument) -> Result<(), Memory>
        ensures { OnOk result (self.new.texts.items ≡ self.old.texts.items ++ printed_text (print_of what.now)) }
    {
        match what {
            PrintArgument::Nothing => Ok(()),
            PrintArgument::Text(text) => self.text(text),
            PrintArgument::Value(_) => Ok(()),
            PrintArgument::TextAndValue(text, _) => self.text(text),
        }
    }

    #[cycle(literals)]
    fn maybe(&mut self, stmt: &Option<Box<Stmt>>) -> Result<(), Memory>
        ensures { OnOk result (self.new.texts.items ≡ self.old.texts.items ++ literals_of (tree_maybe stmt.now)) }
    {
        match stmt {
            Some(stmt) => self.stmt(stmt),
            None => Ok(()),
        }
    }

    #[cycle(literals)]
    #[tactic(auto, using(ti_syntax::proofs::Lemmas::bridges))]
    fn stmt(&mut self, stmt: &Stmt) -> Result<(), Memory>
        ensures { OnOk result (self.new.texts.items ≡ self.old.texts.items ++ literals (stm_of stmt.now)) }
    {
        match stmt {
            Stmt::Print(_, what) => self.print(what),
            Stmt::Block(body) => self.body(body),
            Stmt::If {
                then,
                otherwise,
                ..
            } => {
                self.stmt(then)?;
                self.maybe(otherwise)
            }
            Stmt::While { body, .. } => self.stmt(body),
            Stmt::For {
                first,
                update,
                body,
                ..
            } => {
                self.maybe(first)?;
                self.maybe(update)?;
                self.stmt(body)
            }
            Stmt::Foreach { body, .. } => self.stmt(body),
            Stmt::Empty
            | Stmt::Declare { .. }
            | Stmt::Assign { .. }
            | Stmt::Update { .. }
            | Stmt::Step { .. }
            | Stmt::Call(_)
            | Stmt::Barrier(_)
            | Stmt::Break(_)
            | Stmt::Continue(_)
            | Stmt::Return(_, _) => Ok(()),
        }
    }

    /// Appends the literals of these statements.
    #[cycle(literals)]
    pub fn body(&mut self, stmts: &[Stmt]) -> Result<(), Memory>
        ensures { OnOk result (self.new.texts.items ≡ self.old.texts.items ++ literals_in (stms (map stm_of stmts.now))) }
    {
        for stmt in stmts {
            self.stmt(stmt)?;
        }
        Ok(())
    }
}
