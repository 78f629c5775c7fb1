//! From a checked program to its image, with the proof that the image agrees with the program.
#![tactic(auto)]

mod code;
mod image;

pub use image::link;
