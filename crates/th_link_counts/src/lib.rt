//! What the limits of linking count in checked modules: the interfaces of a program, their exceptions, and nodes.
#![tactic(auto)]

mod exceptions;
mod kept;
mod nodes;

pub use exceptions::exception_count;
pub use kept::interfaces_once;
pub use nodes::program_nodes;
