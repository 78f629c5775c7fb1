//! Names and tokens, and what the cutting of a text into tokens is.
#![tactic(auto)]

mod decl;
mod lexeme;
mod lists;
mod name_table;
mod names;
mod tokens;
mod tree;

pub use decl::{
    ClassDecl, ClassHead, ClauseTree, ExceptionDecl, FieldAssign, InitHead, InitTree, Interface,
    InterfaceClass, InterfaceItem, MethodTree, Module, ModuleItem, Routine, RoutineHead, SigTree,
    SuperCall, TypeDecl,
};
pub use lexeme::{Lexeme, Mark};
pub use lists::{ByteList, NumberList};
pub use name_table::NameTable;
pub use names::Name;
pub use tokens::{Reserved, Sym, Token, TokenKind, Tokens};
pub use tree::{
    BinaryOp, Body, ElseTree, ExcTree, Expr, ExprList, Formal, Ident, NamedTree, RefTree, Stmt,
    TypeList, TypeTree, WhenList,
};
