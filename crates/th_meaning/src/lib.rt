//! Checked programs: their trees, how large they are, and what they mean.
#![tactic(auto)]

mod count_depth;
mod count_locals;
mod count_nodes;
mod declared;
mod expr;
mod laws;
mod stmt;
mod types;

pub use count_depth::depth;
pub use count_locals::locals;
pub use count_nodes::nodes;
pub use declared::{
    CoreClass, CoreClassDecl, CoreClassHead, CoreException, CoreField, CoreInterface, CoreModule,
    CoreRoutineDecl, CoreTypeDecl, CoreUnit, UnitKind,
};
pub use expr::{ArithOp, CompareOp, CoreCall, CoreCast, CoreExpr, CoreExprList};
pub use laws::{boundless_law, more_turns_law};
pub use stmt::{CoreBody, CoreElse, CoreStmt, CoreVariable, CoreWhenList};
pub use types::{
    CoreClause, CoreMethodSig, CoreSig, CoreSupply, CoreType, CoreTypeList, Primitive,
};
