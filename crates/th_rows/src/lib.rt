//! Tests of the public functions of the other crates: tables of cases, whose expected values come
//! from outside. README.md says from where.
#![tactic(auto)]

#[cfg(test)]
mod command_words;
#[cfg(test)]
mod commands;
#[cfg(test)]
mod executables;
#[cfg(test)]
mod instructions;
#[cfg(test)]
mod machine;
#[cfg(test)]
mod outside;
#[cfg(test)]
mod programs;
#[cfg(test)]
mod samples;
#[cfg(test)]
mod segments;
#[cfg(test)]
mod watchers;
#[cfg(test)]
mod words;
