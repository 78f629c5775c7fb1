//! Parts of the checker of statements that need no expressions: the locals in scope, exceptions and what handles them, what
//! handlers have before their statements, what a unit returns, and bodies whose end is never reached. docs/LANGUAGE.md,
//! "Rules of statements", states their rules.
#![tactic(auto)]

mod cast;
mod ending;
mod exception;
mod handled;
mod handler;
mod local;
mod place;
mod raise;
mod result;

pub use cast::{GivenCast, is_cast_fit, yield_cast};
pub use ending::ends_lawfully;
pub use exception::{
    Exception, argument_of, exception_of, has_argument, is_bare, is_there, walk_exception,
};
pub use handled::{handled_by, judge_raised};
pub use handler::{leave_handler, walk_heading};
pub use local::{Declared, copied, enter, following, leave, leave_all, variable, walk_formal};
pub use raise::{exception_name, walk_raise};
pub use result::{result_of, yielded_of};
