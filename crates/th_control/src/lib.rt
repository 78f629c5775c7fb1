//! What a run does next: values, frames, what is still to do, and one step of a program but for its effect on the world.
#![tactic(auto)]

mod control;
mod frame;
mod meet;
mod operate;
mod plan;
mod stack;
mod value;

pub use control::{
    Act, Binary, Callee, Control, Goal, Home, How, Leave, Now, Purpose, Raised, Rest, Selector,
    Sink, Unary, Usage,
};
pub use frame::Frame;
pub use meet::finish;
pub use stack::Stack;
pub use value::{Kind, RunValue};
