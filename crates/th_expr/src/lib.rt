//! The rules of expressions, judged: the checked tree and the type of an expression, or the least failure. docs/LANGUAGE.md, "Rules of expressions", states them.
#![tactic(auto)]

mod call;
mod check;
mod form;
mod leaf;
mod place;
mod walk;

pub use call::walk_call;
pub use check::{RuleError, check_call, check_expr};
pub use place::{place_at, start};
pub use th_calls::{CalledPart, Wish};
pub use th_supply::supplies_of;
pub use th_typed::{
    GivenAll, GivenOne, Typed, TypedList, give, give_opt, is_fit, is_self, ok_bool, ok_int, ok_text,
};
pub use walk::{walk_args, walk_expr};
