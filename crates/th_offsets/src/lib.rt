//! What a layout keeps of each type and class: header words, views, offsets of slots, objects, and what the limits count.
#![tactic(auto)]

mod counts;
mod heads;
mod heads_of;
mod maps;
mod objects;
mod owned;
mod seen;
mod seen_words;
mod slots;
mod views;

pub use counts::{Tally, all_greatest, all_plain, all_tallies, first_known, least_over, lesser_of};
pub use heads::{Facts, Walk, all_facts, all_sums};
pub use heads_of::{Bodies, Heads, all_arrivals, all_bodies, all_class_heads, all_type_heads};
pub use maps::{Casts, Offsets, all_casts, offset_of, places};
pub use objects::{Object, all_hidden, all_objects};
pub use owned::all_owned;
pub use seen::{all_hidden_offsets, all_seen};
pub use seen_words::{WordTypes, all_views};
pub use slots::{all_depths, all_offsets, raised_of};
pub use views::{Spots, all_spots};
