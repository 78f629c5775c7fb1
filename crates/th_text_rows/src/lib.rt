//! Tests of the public functions of the crates that read texts: tables of cases, whose expected values come
//! from outside. README.md says from where.
#![tactic(auto)]

#[cfg(test)]
mod refusals;
#[cfg(test)]
mod show;
#[cfg(test)]
mod show_items;
#[cfg(test)]
mod tokens;
#[cfg(test)]
mod trees;
