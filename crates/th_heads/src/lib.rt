//! The heads of items: what they mean in a text, and the failures of the rules on names in them. docs/LANGUAGE.md, "Names and
//! scopes" and "Rules of modules", states the rules.
#![tactic(auto)]

mod class;
mod found;
mod named;
mod parts;
mod signature;
mod walk;

pub use class::{ClassMeaning, walk_class_head};
pub use found::{Found, OwnItems, Sight, names_of};
pub use parts::{walk_clause, walk_formals, walk_gives, walk_head};
pub use signature::{
    judge_method_names, signature_or_bare, walk_clauses, walk_init, walk_methods, walk_sig,
    walk_sigs,
};
pub use walk::{walk_type, walk_types};
