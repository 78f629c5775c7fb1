//! Names of interfaces' items, resolved types, and the hierarchy of the declared types.
#![tactic(auto)]

mod heads;
mod hierarchy;
mod index;
mod item;
mod judge;
mod members;
mod named;
mod numbering;
mod numbers;
mod scope;
mod spot;
mod texts;
mod walk;

pub use heads::{Parts, exception_of};
pub use hierarchy::{HierError, Hierarchy, has_room, resolve};
pub use index::{Home, Index, Sight};
pub use item::{Entry, ItemName, Referent, Sort};
pub use members::{walk_sig, walk_sigs, walk_super, walk_supers};
pub use numbering::index_of;
pub use numbers::Numbers;
pub use scope::{ResolveError, Scope, resolve_in};
pub use spot::{Spot, judge_formals, judge_item_names, judge_methods, judge_params, judge_repeats};
pub use texts::judge_names;
pub use walk::{walk_type, walk_types};
