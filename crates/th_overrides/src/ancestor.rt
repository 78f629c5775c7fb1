//! A class above another.
use th_scope::ClassItem;
use th_type::TyList;

/// A class above another: what it is, and the arguments at which it is inherited.
#[derive(Drop)]
pub(crate) struct Ancestor<'a> {
    pub(crate) class: &'a ClassItem,
    pub(crate) args: TyList,
}
