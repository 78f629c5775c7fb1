//! The lowering of checked programs to Flat code, as a table: one row for each form (`specs/`), and how many operations each
//! form's code has. docs/LOWERING.md says it in words.
#![tactic(auto)]

mod sizes;

pub use sizes::{
    count_of, declared_name, size_of_block, size_of_body, size_of_cast, size_of_else, size_of_expr,
    size_of_exprs, size_of_jump, size_of_may_cast, size_of_operands, size_of_stmt, size_of_whens,
};
