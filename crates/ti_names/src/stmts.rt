// Resolution of statements, together with the naming rules for them. One pass resolves and checks, since both need the scope.

ghost use Rattle.std.specs.Prelude.{◌≡◌, ◌+◌, ◌++◌, map, length, None, IfOk, OnOk};
ghost use Rattle.ti_syntax.specs.Trees.Views.{exp_of, type_tree_of, init_of, print_of, maybe_of, stm_of};
ghost use Rattle.ti_syntax.specs.Trees.Statements.{stms};
ghost use Rattle.ti_syntax.specs.Trees.Statements as s;
ghost use Rattle.ti_lang.specs.Program.Views.{expression_of, printed_of, statement_of};
ghost use Rattle.ti_lang.specs.Scopes.{printed_text, past, past_maybe, site_after, behind_maybe, behind_all};
ghost use Rattle.ti_lang.specs.Nodes.{exp_nodes, print_nodes, stm_nodes, maybe_stm_nodes, stms_nodes};
ghost use Rattle.ti_names.specs.Mirrors.Numbered.{number_exp, number_print, number_stm, number_maybe_stm, number_list};
ghost use Rattle.ti_names.specs.Found.{first_in};
ghost use Rattle.ti_rules.specs.Mirrors.First.{earlier_of};
ghost use Rattle.ti_names.specs.Branched.{numbered_branches};
ghost use Rattle.ti_names.specs.Seen.{site_of, tree_maybe, seen_maybe};

use crate::context::NameContext;
use ti_base::{Memory, Place};
use ti_lang::program::{Declared, Expr, Printed, Stmt};
use ti_rules::{Refusal, earlier_of};
use ti_syntax::tree::{BinaryOperator, StepOperator};
use ti_syntax::{Spelled, tree};

/// A resolved part of a program, and the first broken naming rule in it.
#[derive(Drop)]
pub struct Resolved<T: Drop> {
    pub part: T,
    pub refusal: Option<Refusal>,
}

/// A condition and the statement that it guards.
#[derive(Drop)]
struct GuardedBody {
    condition: Expr,
    body: Box<Stmt>,
}

impl<T: Drop> Resolved<T> {
    /// A part that breaks no naming rule.
    pub fn clean(part: T) -> Resolved<T>
        ensures part { result.part ≡ part }
        ensures refusal { result.refusal ≡ None }
    {
        Resolved {
            part,
            refusal: None,
        }
    }
}

impl<'t, 'a> NameContext<'t, 'a> {
    // ---- simple statements

    #[tactic(auto, using(crate::proofs::Firsts::in_nodes))]
    fn check_print(&self, what: &tree::PrintArgument) -> Option<Refusal>
        ensures { result ≡ first_in (print_nodes (site_of self.now) (print_of what.now)) }
    {
        match what {
            tree::PrintArgument::Nothing => None,
            tree::PrintArgument::Text(_) => None,
            tree::PrintArgument::Value(x) => self.check_exp(x),
            tree::PrintArgument::TextAndValue(_, x) => self.check_exp(x),
        }
    }

    fn print(&mut self, what: &tree::PrintArgument) -> Result<Printed, Memory>
        ensures part { IfOk result (λ w. printed_of w ≡ number_print (site_of self.old) (print_of what.now)) }
        ensures site { OnOk result (site_of self.new ≡ record (site_of self.old)
            { literals = self.old.literals + length (printed_text (print_of what.now)) }) }
    {
        match what {
            tree::PrintArgument::Nothing => Ok(Printed::Nothing),
            tree::PrintArgument::Text(_) => Ok(Printed::Text(self.literal()?)),
            tree::PrintArgument::Value(x) => Ok(Printed::Value(self.exp(x)?)),
            tree::PrintArgument::TextAndValue(_, x) => {
                let x = self.exp(x)?;
                Ok(Printed::TextAndValue(self.literal()?, x))
            }
        }
    }

    fn assignment(
        &self,
        place: Place,
        target: &tree::Expr,
        value: &tree::Init,
    ) -> Result<Resolved<Stmt>, Memory>
        ensures part { IfOk result (λ r. statement_of r.part ≡ number_stm (site_of self.now)
            (s.Assign place (exp_of target.now) (init_of value.now))) }
        ensures refusal { IfOk result (λ r. r.refusal ≡ first_in (stm_nodes (site_of self.now)
            (s.Assign place (exp_of target.now) (init_of value.now)))) }
    {
        let refusal = earlier_of(self.check_exp(target), self.check_init(value));
        let value = Box::new(self.alloc, self.init(value)?)?;
        Ok(Resolved {
            part: Stmt::Assign {
                place,
                target: self.exp(target)?,
                value,
            },
            refusal,
        })
    }

    fn update(
        &self,
        place: Place,
        operator: BinaryOperator,
        target: &tree::Expr,
        value: &tree::Expr,
    ) -> Result<Resolved<Stmt>, Memory>
        ensures part { IfOk result (λ r. statement_of r.part ≡ number_stm (site_of self.now)
            (s.Update place operator (exp_of target.now) (exp_of value.now))) }
        ensures refusal { IfOk result (λ r. r.refusal ≡ first_in (stm_nodes (site_of self.now)
            (s.Update place operator (exp_of target.now) (exp_of value.now)))) }
    {
        let refusal = earlier_of(self.check_exp(target), self.check_exp(value));
        let (target, value) = self.expr_pair(target, value)?;
        Ok(Resolved {
            part: Stmt::Update {
                place,
                operator,
                target,
                value,
            },
            refusal,
        })
    }

    fn step(
        &self,
        place: Place,
        operator: StepOperator,
        target: &tree::Expr,
    ) -> Result<Resolved<Stmt>, Memory>
        ensures part { IfOk result (λ r. statement_of r.part ≡ number_stm (site_of self.now) (s.Step place operator (exp_of target.now))) }
        ensures refusal { IfOk result (λ r. r.refusal ≡ first_in (stm_nodes (site_of self.now)
            (s.Step place operator (exp_of target.now)))) }
    {
        Ok(Resolved {
            part: Stmt::Step {
                place,
                operator,
                target: self.exp(target)?,
            },
            refusal: self.check_exp(target),
        })
    }

    fn call_stmt(&self, expr: &tree::Expr) -> Result<Resolved<Stmt>, Memory>
        ensures part { IfOk result (λ r. statement_of r.part ≡ number_stm (site_of self.now) (s.Call (exp_of expr.now))) }
        ensures refusal { IfOk result (λ r. r.refusal ≡ first_in (stm_nodes (site_of self.now) (s.Call (exp_of expr.now)))) }
    {
        Ok(Resolved {
            part: Stmt::Call(self.exp(expr)?),
            refusal: self.check_exp(expr),
        })
    }

    fn return_stmt(
        &self,
        place: Place,
        value: &Option<tree::Expr>,
    ) -> Result<Resolved<Stmt>, Memory>
        ensures part { IfOk result (λ r. statement_of r.part ≡ number_stm (site_of self.now) (s.Return place (maybe_of exp_of value.now))) }
        ensures refusal { IfOk result (λ r. r.refusal ≡ first_in (stm_nodes (site_of self.now)
            (s.Return place (maybe_of exp_of value.now)))) }
    {
        Ok(Resolved {
            part: Stmt::Return(place, self.maybe(value)?),
            refusal: self.check_maybe(value),
        })
    }

    fn print_stmt(
        &mut self,
        place: Place,
        what: &tree::PrintArgument,
    ) -> Result<Resolved<Stmt>, Memory>
        ensures part { IfOk result (λ r. statement_of r.part ≡ number_stm (site_of self.old) (s.Print place (print_of what.now))) }
        ensures refusal { IfOk result (λ r. r.refusal ≡ first_in (stm_nodes (site_of self.old) (s.Print place (print_of what.now)))) }
        ensures site { OnOk result (site_of self.new ≡ site_after (site_of self.old) (s.Print place (print_of what.now))) }
    {
        let refusal = self.check_print(what);
        Ok(Resolved {
            part: Stmt::Print(place, self.print(what)?),
            refusal,
        })
    }

    fn declaration(
        &mut self,
        place: Place,
        ty: &tree::TypeName,
        name: &'a Spelled,
        value: &tree::Init,
    ) -> Result<Resolved<Stmt>, Memory>
        ensures part { IfOk result (λ r. statement_of r.part ≡ number_stm (site_of self.old)
            (s.Declare place (type_tree_of ty.now) name.now (init_of value.now))) }
        ensures refusal { IfOk result (λ r. r.refusal ≡ first_in (stm_nodes (site_of self.old)
            (s.Declare place (type_tree_of ty.now) name.now (init_of value.now)))) }
        ensures site { OnOk result (site_of self.new ≡ site_after (site_of self.old)
            (s.Declare place (type_tree_of ty.now) name.now (init_of value.now))) }
    {
        let head = earlier_of(self.check_type(ty), self.check_variable(place, name));
        let refusal = earlier_of(head, self.check_init(value));
        let type_use = self.type_use(ty)?;
        let value = Box::new(self.alloc, self.init(value)?)?;
        let declared = self.declaration_of(ty)?;
        let variable = self.declare(name, declared)?;
        Ok(Resolved {
            part: Stmt::Declare {
                place,
                ty: type_use,
                variable,
                value,
            },
            refusal,
        })
    }

    // ---- compound statements

    /// Resolves a statement in a scope of its own.
    #[cycle(walk_stmt)]
    fn scoped_stmt(&mut self, stmt: &'a tree::Stmt) -> Result<Resolved<Box<Stmt>>, Memory>
        ensures part { IfOk result (λ r. statement_of r.part.value ≡ number_stm (site_of self.old) (stm_of stmt.now)) }
        ensures refusal { IfOk result (λ r. r.refusal ≡ first_in (stm_nodes (site_of self.old) (stm_of stmt.now))) }
        ensures site { OnOk result (site_of self.new ≡ past (site_of self.old) (stm_of stmt.now)) }
    {
        let len = self.scope.len();
        let stmt = self.stm(stmt)?;
        self.cut(len);
        Ok(Resolved {
            part: Box::new(self.alloc, stmt.part)?,
            refusal: stmt.refusal,
        })
    }

    /// Resolves an optional statement, whose variables stay in scope.
    #[cycle(walk_stmt)]
    #[tactic(auto, using(crate::proofs::Firsts::in_nodes))]
    fn maybe_stm(
        &mut self,
        stmt: &'a Option<Box<tree::Stmt>>,
    ) -> Result<Resolved<Option<Box<Stmt>>>, Memory>
        ensures part { IfOk result (λ r. seen_maybe r.part ≡ number_maybe_stm (site_of self.old) (tree_maybe stmt.now)) }
        ensures refusal { IfOk result (λ r. r.refusal ≡ first_in (maybe_stm_nodes (site_of self.old) (tree_maybe stmt.now))) }
        ensures site { OnOk result (site_of self.new ≡ behind_maybe (site_of self.old) (tree_maybe stmt.now)) }
    {
        match stmt {
            Some(stmt) => {
                let stmt = self.stm(stmt)?;
                Ok(Resolved {
                    part: Some(Box::new(self.alloc, stmt.part)?),
                    refusal: stmt.refusal,
                })
            }
            None => Ok(Resolved::clean(None)),
        }
    }

    /// Resolves an optional statement in a scope of its own.
    #[cycle(walk_stmt)]
    #[tactic(auto, using(crate::proofs::Firsts::in_nodes))]
    fn maybe_inner(
        &mut self,
        stmt: &'a Option<Box<tree::Stmt>>,
    ) -> Result<Resolved<Option<Box<Stmt>>>, Memory>
        ensures part { IfOk result (λ r. seen_maybe r.part ≡ number_maybe_stm (site_of self.old) (tree_maybe stmt.now)) }
        ensures refusal { IfOk result (λ r. r.refusal ≡ first_in (maybe_stm_nodes (site_of self.old) (tree_maybe stmt.now))) }
        ensures site { OnOk result (site_of self.new ≡ past_maybe (site_of self.old) (tree_maybe stmt.now)) }
    {
        match stmt {
            Some(stmt) => {
                let stmt = self.scoped_stmt(stmt)?;
                Ok(Resolved {
                    part: Some(stmt.part),
                    refusal: stmt.refusal,
                })
            }
            None => Ok(Resolved::clean(None)),
        }
    }

    /// Resolves statements in order. Their variables stay in scope.
    #[cycle(walk_stmt)]
    #[tactic(auto, using(crate::proofs::Firsts::none_sooner))]
    pub fn stms(&mut self, stmts: &'a [tree::Stmt]) -> Result<Resolved<Vec<Stmt>>, Memory>
        ensures part { IfOk result (λ r. map statement_of r.part.items ≡ number_list (site_of self.old) (map stm_of stmts.now)) }
        ensures refusal { IfOk result (λ r. r.refusal ≡ first_in (stms_nodes (site_of self.old) (stms (map stm_of stmts.now)))) }
        ensures site { OnOk result (site_of self.new ≡ behind_all (site_of self.old) (stms (map stm_of stmts.now))) }
    {
        let mut ys = Vec::with_capacity(self.alloc, stmts.len())?;
        let mut refusal = None;
        for stmt in stmts {
            let y = self.stm(stmt)?;
            ys.push(y.part)?;
            refusal = earlier_of(refusal, y.refusal);
        }
        Ok(Resolved { part: ys, refusal })
    }

    #[cycle(walk_stmt)]
    fn block(&mut self, body: &'a [tree::Stmt]) -> Result<Resolved<Stmt>, Memory>
        ensures part { IfOk result (λ r. statement_of r.part ≡ number_stm (site_of self.old) (s.block (map stm_of body.now))) }
        ensures refusal { IfOk result (λ r. r.refusal ≡ first_in (stm_nodes (site_of self.old) (s.block (map stm_of body.now)))) }
        ensures site { OnOk result (site_of self.new ≡ past (site_of self.old) (s.block (map stm_of body.now))) }
    {
        let len = self.scope.len();
        let body = self.stms(body)?;
        self.cut(len);
        Ok(Resolved {
            part: Stmt::Block(body.part),
            refusal: body.refusal,
        })
    }

    /// Resolves a condition and the statement that it guards, the latter in a scope of its own.
    #[cycle(walk_stmt)]
    fn guarded_body(
        &mut self,
        body: &'a tree::Stmt,
        condition: &tree::Expr,
    ) -> Result<Resolved<GuardedBody>, Memory>
        ensures condition { IfOk result (λ r. expression_of r.part.condition ≡ number_exp (site_of self.old) (exp_of condition.now)) }
        ensures body { IfOk result (λ r. statement_of r.part.body.value ≡ number_stm (site_of self.old) (stm_of body.now)) }
        ensures refusal { IfOk result (λ r. r.refusal ≡ first_in (exp_nodes (site_of self.old) (exp_of condition.now)
            ++ stm_nodes (site_of self.old) (stm_of body.now))) }
        ensures site { OnOk result (site_of self.new ≡ past (site_of self.old) (stm_of body.now)) }
    {
        let refusal = self.check_exp(condition);
        let condition = self.exp(condition)?;
        let body = self.scoped_stmt(body)?;
        Ok(Resolved {
            part: GuardedBody {
                condition,
                body: body.part,
            },
            refusal: earlier_of(refusal, body.refusal),
        })
    }

    /// Resolves an `if`, given its condition and first branch.
    #[cycle(walk_stmt)]
    fn if_stmt(
        &mut self,
        place: Place,
        head: Resolved<GuardedBody>,
        otherwise: &'a Option<Box<tree::Stmt>>,
    ) -> Result<Resolved<Stmt>, Memory>
        ensures part { IfOk result (λ r. statement_of r.part ≡ numbered_branches place (expression_of head.part.condition)
            (statement_of head.part.body.value) (number_maybe_stm (site_of self.old) (tree_maybe otherwise.now))) }
        ensures refusal { IfOk result (λ r. r.refusal ≡ earlier_of head.refusal
            (first_in (maybe_stm_nodes (site_of self.old) (tree_maybe otherwise.now)))) }
        ensures site { OnOk result (site_of self.new ≡ past_maybe (site_of self.old) (tree_maybe otherwise.now)) }
    {
        let otherwise = self.maybe_inner(otherwise)?;
        Ok(Resolved {
            part: Stmt::If {
                place,
                condition: head.part.condition,
                then: head.part.body,
                otherwise: otherwise.part,
            },
            refusal: earlier_of(head.refusal, otherwise.refusal),
        })
    }

    #[cycle(walk_stmt)]
    fn foreach(
        &mut self,
        place: Place,
        name_place: Place,
        name: &'a Spelled,
        body: &'a tree::Stmt,
        domain: &tree::Expr,
    ) -> Result<Resolved<Stmt>, Memory>
        ensures part { IfOk result (λ r. statement_of r.part ≡ number_stm (site_of self.old)
            (s.Foreach place name_place name.now (exp_of domain.now) (stm_of body.now))) }
        ensures refusal { IfOk result (λ r. r.refusal ≡ first_in (stm_nodes (site_of self.old)
            (s.Foreach place name_place name.now (exp_of domain.now) (stm_of body.now)))) }
        ensures site { OnOk result (site_of self.new ≡ site_after (site_of self.old)
            (s.Foreach place name_place name.now (exp_of domain.now) (stm_of body.now))) }
    {
        let len = self.scope.len();
        let named = self.check_variable(name_place, name);
        let refusal = earlier_of(named, self.check_exp(domain));
        let domain = self.exp(domain)?;
        let variable = self.declare(name, Declared::Foreach)?;
        let body = self.scoped_stmt(body)?;
        self.cut(len);
        Ok(Resolved {
            part: Stmt::Foreach {
                place,
                variable,
                domain,
                body: body.part,
            },
            refusal: earlier_of(refusal, body.refusal),
        })
    }

    /// Resolves a statement. The most frequent forms have a fast path, which doesn't go through `any_stm`.
    #[cycle(walk_stmt)]
    pub fn stm(&mut self, stmt: &'a tree::Stmt) -> Result<Resolved<Stmt>, Memory>
        ensures part { IfOk result (λ r. statement_of r.part ≡ number_stm (site_of self.old) (stm_of stmt.now)) }
        ensures refusal { IfOk result (λ r. r.refusal ≡ first_in (stm_nodes (site_of self.old) (stm_of stmt.now))) }
        ensures site { OnOk result (site_of self.new ≡ site_after (site_of self.old) (stm_of stmt.now)) }
    {
        match stmt {
            tree::Stmt::Empty => Ok(Resolved::clean(Stmt::Empty)),
            tree::Stmt::Assign {
                place,
                target,
                value,
            } => self.assignment(*place, target, value),
            tree::Stmt::Block(body) => self.block(body),
            _ => self.any_stm(stmt),
        }
    }

    /// Resolves a statement of any form.
    #[cycle(walk_stmt)]
    fn any_stm(&mut self, stmt: &'a tree::Stmt) -> Result<Resolved<Stmt>, Memory>
        ensures part { IfOk result (λ r. statement_of r.part ≡ number_stm (site_of self.old) (stm_of stmt.now)) }
        ensures refusal { IfOk result (λ r. r.refusal ≡ first_in (stm_nodes (site_of self.old) (stm_of stmt.now))) }
        ensures site { OnOk result (site_of self.new ≡ site_after (site_of self.old) (stm_of stmt.now)) }
    {
        match stmt {
            tree::Stmt::Empty => Ok(Resolved::clean(Stmt::Empty)),
            tree::Stmt::Declare {
                place,
                ty,
                name,
                value,
            } => self.declaration(*place, ty, name, value),
            tree::Stmt::Assign {
                place,
                target,
                value,
            } => self.assignment(*place, target, value),
            tree::Stmt::Update {
                place,
                operator,
                target,
                value,
            } => self.update(*place, *operator, target, value),
            tree::Stmt::Step {
                place,
                operator,
                target,
            } => self.step(*place, *operator, target),
            tree::Stmt::Call(stmt) => self.call_stmt(stmt),
            tree::Stmt::Print(place, what) => self.print_stmt(*place, what),
            tree::Stmt::Barrier(place) => Ok(Resolved::clean(Stmt::Barrier(*place))),
            tree::Stmt::Break(place) => Ok(Resolved::clean(Stmt::Break(*place))),
            tree::Stmt::Continue(place) => Ok(Resolved::clean(Stmt::Continue(*place))),
            tree::Stmt::Return(place, value) => self.return_stmt(*place, value),
            tree::Stmt::Block(body) => self.block(body),
            tree::Stmt::If {
                place,
                condition,
                then,
                otherwise,
            } => {
                let head = self.guarded_body(then, condition)?;
                self.if_stmt(*place, head, otherwise)
            }
            tree::Stmt::While {
                place,
                condition,
                body,
            } => {
                let head = self.guarded_body(body, condition)?;
                Ok(Resolved {
                    part: Stmt::While {
                        place: *place,
                        condition: head.part.condition,
                        body: head.part.body,
                    },
                    refusal: head.refusal,
                })
            }
            tree::Stmt::For {
                place,
                first,
                condition,
                update,
                body,
            } => {
                let len = self.scope.len();
                let first = self.maybe_stm(first)?;
                let refusal = earlier_of(first.refusal, self.check_maybe(condition));
                let condition = self.maybe(condition)?;
                let update = self.maybe_inner(update)?;
                let body = self.scoped_stmt(body)?;
                self.cut(len);
                Ok(Resolved {
                    part: Stmt::For {
                        place: *place,
                        first: first.part,
                        condition,
                        update: update.part,
                        body: body.part,
                    },
                    refusal: earlier_of(earlier_of(refusal, update.refusal), body.refusal),
                })
            }
            tree::Stmt::Foreach {
                place,
                name_place,
                name,
                domain,
                body,
            } => self.foreach(*place, *name_place, name, body, domain),
        }
    }
}
