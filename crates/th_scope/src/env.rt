//! What is known where a unit stands.
ghost use Rattle.th_type.specs.Ways.{WaysEnd};

use crate::items::Items;
use crate::local::LocalList;
use th_hier::{Hierarchy, Numbers};
use th_tree::NameTable;
use th_type::{Clause, Sig};

/// What is known where a unit stands: the number of the text; the bytes of the numbered names; the hierarchy of the declared
/// types; the items that the text can name; the implemented interface, the interfaces after `uses` and the type parameters,
/// by the numbers of their bare names; and of the unit its where-clauses, its signature (that of an initializer gives
/// nothing), the locals in scope and, where it is a method's body, the number of its class's full name.
///
/// No way up is longer than there are declared types, as in each hierarchy of interfaces that keep the rules.
#[derive(Drop)]
pub struct Env<'a> {
    pub text: u32,
    pub names: &'a NameTable,
    pub hierarchy: &'a Hierarchy,
    pub items: &'a Items,
    pub implements: Option<u32>,
    pub uses: &'a Numbers,
    pub params: &'a Numbers,
    pub clauses: &'a [Clause],
    pub sig: &'a Sig,
    pub class: Option<u32>,
    pub locals: LocalList,
    pub ghost ways_end: { WaysEnd hierarchy.now.types },
}
