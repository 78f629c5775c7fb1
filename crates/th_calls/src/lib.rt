//! What calls and `new` call, judged, and the checked calls with their arguments. docs/LANGUAGE.md, "Rules of expressions", states the rules.
#![tactic(auto)]

mod callee;
mod calls;
mod new;

pub use callee::{CalledPart, CalleePart, Target, Wish, finish_call, finish_value};
pub use calls::{CallPlaces, walk_method, walk_routine, walk_super};
pub use new::{NewPart, finish_new, walk_new};
