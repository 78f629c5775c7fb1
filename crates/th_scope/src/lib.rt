//! What the rules of expressions look up: items, locals, what names mean, types and classes in the body of a unit.
#![tactic(auto)]

mod class_use;
mod classes;
mod env;
mod handled;
mod item;
mod items;
mod local;
mod lookup;
mod naming;
mod resolve;
mod signals;
mod spell;
mod subst;

pub use class_use::{ClassPart, walk_class};
pub use classes::{class_sig, is_subtype, own_class, super_sig, type_method};
pub use env::Env;
pub use handled::Handled;
pub use item::{ClassItem, Head, Item, RoutineItem};
pub use items::Items;
pub use local::{Local, LocalList};
pub use naming::{Meant, meaning, referent, referent_of};
pub use resolve::{has_count, walk_type, walk_types};
pub use signals::Signals;
pub use spell::{core_type, core_types, spelled};
pub use subst::{argument, sig_with, substituted, substituted_list};
