//! Resolved types and signatures, and the lattice of declared types. docs/LANGUAGE.md, "Types", states what they mean.
#![tactic(auto)]

mod above;
mod clauses;
mod climb;
mod conform;
mod cycles;
mod defs;
mod judge;
mod known;
mod lattice;
mod lists;
mod methods;
mod place;
mod pool;
mod rows;
mod sig;
mod ty;
mod typedef;

pub use clauses::{ClauseList, SupplyList};
pub use lattice::{Lattice, LatticeError};
pub use lists::NumberList;
pub use place::{Failure, Place, What, demand};
pub use sig::{Clause, Prim_, Sig, Supply};
pub use ty::{Ty, TyList, substitute, substitute_list};
pub use typedef::{Meaning, Supertype, TypeDef, Written};
