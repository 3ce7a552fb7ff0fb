// Resolution of methods, together with the naming rules for them.

ghost use Rattle.std.specs.Prelude.{◌≡◌, ◌++◌, ◌∷◌, [], map, flat_map, IfOk, OnOk};
ghost use Rattle.ti_syntax.specs.Trees.Statements.{stms};
ghost use Rattle.ti_syntax.specs.Trees.Views.{type_tree_of, param_of, params_of, result_of};
ghost use Rattle.ti_lang.specs.Program.Views.{numbered_param_of, numbered_params_of, numbered_result_of, numbered_method_of};
ghost use Rattle.ti_lang.specs.Members.{OwnMethod};
ghost use Rattle.ti_lang.specs.Scopes.{declares, typed_as, behind_params, body_site, literals_in, method_site};
ghost use Rattle.ti_lang.specs.Nodes.{node, VariableName, MethodName, type_nodes, param_list_nodes, params_nodes, result_nodes, method_nodes, methods_nodes};
ghost use Rattle.ti_names.specs.Mirrors.Numbered.{number_param, number_param_list, number_params, number_result, number_method, number_methods};
ghost use Rattle.ti_names.specs.Found.{first_in};
ghost use Rattle.ti_names.specs.MethodDecl.{method_decl_of};
ghost use Rattle.ti_names.specs.Seen.{site_of, text_of_tables};

use crate::checks::is_another;
use crate::context::{NameContext, method_site};
use crate::literals::Literals;
use crate::method_decls::MethodDecl;
use crate::number::{next_number, to_u32};
use crate::stmts::Resolved;
use crate::tables::Tables;
use std::alloc::Global;
use ti_base::Memory;
use ti_lang::program::{Method, Param, Params, ResultType, is_single};
use ti_rules::{Refusal, Rule, earlier_of, refused_if};
use ti_syntax::tree;

/// The resolved methods of a program, their string literals, and the first broken naming rule in them.
#[derive(Drop)]
pub struct AllMethods {
    pub methods: Vec<Method>,
    pub literals: Literals,
    pub refusal: Option<Refusal>,
}

impl<'t, 'a> NameContext<'t, 'a> {
    #[tactic(auto, using(crate::proofs::Firsts::in_nodes))]
    fn param(&mut self, param: &'a tree::ParamDecl) -> Result<Resolved<Param>, Memory>
        ensures part { IfOk result (λ r. numbered_param_of r.part ≡ number_param (text_of_tables self.old.tables.now) (param_of param.now)) }
        ensures refusal { IfOk result (λ r. r.refusal ≡ first_in (type_nodes (site_of self.old) (type_tree_of param.now.ty)
            ++ node (site_of self.old) (VariableName param.now.place param.now.name) ∷ [])) }
        ensures site { OnOk result (site_of self.new ≡ declares (site_of self.old) param.now.name
            (typed_as (text_of_tables self.old.tables.now) (type_tree_of param.now.ty))) }
    {
        let named = self.check_variable(param.place, &param.name);
        let refusal = earlier_of(self.check_type(&param.ty), named);
        let ty = self.type_use(&param.ty)?;
        let declared = self.declaration_of(&param.ty)?;
        self.declare(&param.name, declared)?;
        Ok(Resolved {
            part: Param {
                place: param.place,
                ty,
            },
            refusal,
        })
    }

    #[tactic(auto, using(crate::proofs::Firsts::none_sooner))]
    fn param_list(&mut self, params: &'a [tree::ParamDecl]) -> Result<Resolved<Vec<Param>>, Memory>
        ensures part { IfOk result (λ r. map numbered_param_of r.part.items
            ≡ number_param_list (text_of_tables self.old.tables.now) (map param_of params.now)) }
        ensures refusal { IfOk result (λ r. r.refusal ≡ first_in (param_list_nodes (site_of self.old) (map param_of params.now))) }
        ensures site { OnOk result (site_of self.new ≡ behind_params (site_of self.old) (map param_of params.now)) }
    {
        let mut done = Vec::new(self.alloc);
        let mut refusal = None;
        for param in params {
            let param = self.param(param)?;
            done.push(param.part)?;
            refusal = earlier_of(refusal, param.refusal);
        }
        Ok(Resolved {
            part: done,
            refusal,
        })
    }

    #[tactic(auto, using(crate::proofs::Firsts::in_nodes))]
    fn params(&mut self, params: &'a tree::Params) -> Result<Resolved<Params>, Memory>
        ensures part { IfOk result (λ r. numbered_params_of r.part ≡ number_params (text_of_tables self.old.tables.now) (params_of params.now)) }
        ensures refusal { IfOk result (λ r. r.refusal ≡ first_in (params_nodes (site_of self.old) (params_of params.now))) }
        ensures site { OnOk result (site_of self.new ≡ body_site (site_of self.old) (params_of params.now)) }
    {
        match params {
            tree::Params::MainArgs(_, _) => Ok(Resolved {
                part: Params::MainArgs,
                refusal: None,
            }),
            tree::Params::Typed(params) => {
                let params = self.param_list(params)?;
                Ok(Resolved {
                    part: Params::Typed(params.part),
                    refusal: params.refusal,
                })
            }
        }
    }

    fn result(&self, given: &tree::ResultDecl) -> Result<ResultType, Memory>
        ensures { IfOk result (λ r. numbered_result_of r ≡ number_result (text_of_tables self.now.tables.now) (result_of given.now)) }
    {
        match given {
            tree::ResultDecl::Void(_) => Ok(ResultType::Void),
            tree::ResultDecl::Typed(ty) => Ok(ResultType::Typed(self.type_use(ty)?)),
        }
    }

    #[tactic(auto, using(crate::proofs::Firsts::in_nodes))]
    fn check_result(&self, given: &tree::ResultDecl) -> Option<Refusal>
        ensures { result ≡ first_in (result_nodes (site_of self.now) (result_of given.now)) }
    {
        match given {
            tree::ResultDecl::Void(_) => None,
            tree::ResultDecl::Typed(ty) => self.check_type(ty),
        }
    }

    /// The first broken naming rule in a method's name and result type.
    #[tactic(auto, using(crate::proofs::Firsts::in_nodes))]
    fn check_head(&self, number: u32, own: MethodDecl<'a>) -> Option<Refusal>
        ensures { result ≡ first_in (node (site_of self.now) (MethodName number (method_decl_of own.entry)) ∷ result_nodes (site_of self.now)
            (method_decl_of own.entry).method.result) }
    {
        let named = self.tables.method(own.class, own.method.name.as_bytes());
        let twice = refused_if(is_another(named, number), Rule::N2, own.method.place);
        earlier_of(twice, self.check_result(&own.method.result))
    }

    /// Resolves method `number`. The context is at its first parameter.
    #[tactic(auto, using(crate::proofs::Firsts::in_nodes))]
    fn method(&mut self, number: u32, own: MethodDecl<'a>) -> Result<Resolved<Method>, Memory>
        ensures part { IfOk result (λ r. numbered_method_of r.part ≡ number_method (site_of self.old) (method_decl_of own.entry)) }
        ensures refusal { IfOk result (λ r. r.refusal ≡ first_in (method_nodes (site_of self.old) number (method_decl_of own.entry))) }
    {
        let head = self.check_head(number, own);
        let result = self.result(&own.method.result)?;
        let name = self.tables.name(own.method.name.as_bytes());
        let params = self.params(&own.method.params)?;
        let body = self.stms(&own.method.body)?;
        Ok(Resolved {
            part: Method {
                class: own.class,
                modifiers: own.method.modifiers.to_vec(self.alloc)?,
                single: is_single(&own.method.modifiers),
                result,
                place: own.method.place,
                name,
                params: params.part,
                body: body.part,
                end: own.method.end,
            },
            refusal: earlier_of(earlier_of(head, params.refusal), body.refusal),
        })
    }
}

/// Resolves method `number`, before which there are `before` string literals in the source.
fn method<'a>(
    alloc: Global,
    tables: &Tables<'a>,
    number: u32,
    own: MethodDecl<'a>,
    before: u32,
) -> Result<Resolved<Method>, Memory>
    ensures part { IfOk result (λ r. numbered_method_of r.part ≡ number_method (method_site (text_of_tables tables.now) (method_decl_of own.entry) before)
        (method_decl_of own.entry)) }
    ensures refusal { IfOk result (λ r. r.refusal ≡ first_in (method_nodes
        (method_site (text_of_tables tables.now) (method_decl_of own.entry) before) number (method_decl_of own.entry))) }
{
    let mut site = method_site(alloc, tables, own, before);
    site.method(number, own)
}

/// Resolves the methods of a program.
#[tactic(auto, using(crate::proofs::Firsts::none_sooner))]
pub fn methods<'a>(
    alloc: Global,
    tables: &Tables<'a>,
    methods: &[MethodDecl<'a>],
) -> Result<AllMethods, Memory>
    ensures part { IfOk result (λ m. map numbered_method_of m.methods.items
        ≡ number_methods (text_of_tables tables.now) 0 (map method_decl_of methods.now)) }
    ensures literals { IfOk result (λ m. m.literals.texts.items ≡ flat_map (λ (own : OwnMethod). literals_in (stms own.method.body))
        (map method_decl_of methods.now)) }
    ensures refusal { IfOk result (λ m. m.refusal ≡ first_in (methods_nodes (text_of_tables tables.now) 0 0 (map method_decl_of methods.now))) }
{
    let mut done = Vec::new(alloc);
    let mut literals = Literals {
        alloc,
        texts: Vec::new(alloc),
    };
    let mut refusal = None;
    let mut number = 0;
    for own in methods {
        let before = to_u32(literals.texts.len())?;
        let found = method(alloc, tables, number, *own, before)?;
        literals.body(&own.method.body)?;
        done.push(found.part)?;
        refusal = earlier_of(refusal, found.refusal);
        number = next_number(number)?;
    }
    Ok(AllMethods {
        methods: done,
        literals,
        refusal,
    })
}
