// The constraints on markings: which annotations a program could have, the requirements of each statement on them, and the reasons for which
// statements have global effects. A constraint is an implication between annotations, so that ti_blame finds the greatest marking.

pub(crate) mod candidates;
pub(crate) mod copies;
pub(crate) mod dependencies;
pub(crate) mod fits;
pub(crate) mod foreach_scope;
pub(crate) mod implications;
pub(crate) mod methods;
pub(crate) mod reads;
pub(crate) mod reasons;
pub(crate) mod right_sides;
pub(crate) mod site;
pub(crate) mod stmt_implications;
pub(crate) mod walk;
pub(crate) mod whole_program;
