//! Where a run goes on: in the frame of a unit that is entered, and in that of a loop whose body a yield runs.
#![tactic(auto)]

mod frames;

pub use frames::{enter_alone, enter_frame, visit, wait_again};
