//! Which bodies of methods there are. docs/LANGUAGE.md, "Rules of modules", states which classes have a body of a method.
ghost use Rattle.std.specs.Prelude.{◌≡◌, length, option_map};
ghost use Rattle.th_type.specs.Types.{ty_of};
ghost use Rattle.th_module_rules.specs.Modules.{body_up};
ghost use Rattle.th_contexts.specs.BaseView.{base_of};
ghost use Rattle.th_contexts.specs.Bases.{bases_of};
ghost use Rattle.th_overrides.specs.Bodies.{body_above, has_own};

use th_contexts::{Base, Bases, has_method, number_of};
use th_hier::{Hierarchy, Numbers};
use th_type::Ty;

/// What is asked of classes, the numbers of the full names of the module's own ones, and the names of the methods that a class defines.
#[derive(Clone, Copy)]
pub(crate) struct Bodies<'a> {
    pub(crate) bases: &'a Bases,
    pub(crate) own: &'a Numbers,
    pub(crate) methods: &'a Numbers,
}

/// Whether a class has a body of the method, whatever the classes above it have: it defines or declares the method, or it is an interface's
/// and its type has the method.
#[tactic(auto, using(crate::proofs::Numbered::has_in))]
fn has_own(base: &Base, own: &Numbers, hierarchy: &Hierarchy, method: u32) -> bool
    ensures { result ≡ has_own hierarchy.now.types own.now (base_of base.now) method }
{
    base.methods.has(method) || (!own.has(base.full) && has_method(hierarchy, &base.of, method))
}

/// Whether a class that there may be has a body of the method, where these are the numbers of the module's own classes.
fn has_body(
    bases: &Bases,
    own: &Numbers,
    hierarchy: &Hierarchy,
    class: Option<u32>,
    method: u32,
) -> bool
    ensures { result ≡ body_up (length (bases_of bases.now)) hierarchy.now.types (bases_of bases.now) own.now class method }
{
    let mut left = bases.len();
    let mut at = class;
    while left > 0 {
        let Some(full) = at else {
            return false;
        };
        let Some(base) = bases.at(full) else {
            return false;
        };
        if has_own(base, own, hierarchy, method) {
            return true;
        }
        at = base.inherits;
        left -= 1;
    }
    false
}

/// Whether the inherited class has a body of the method.
pub(crate) fn has_body_above(
    bodies: &Bodies<'_>,
    hierarchy: &Hierarchy,
    inherits: &Option<Ty>,
    method: u32,
) -> bool
    ensures { result ≡ body_above hierarchy.now.types (bases_of bodies.now.bases.now) bodies.now.own.now (option_map ty_of inherits.now) method }
{
    has_body(
        bodies.bases,
        bodies.own,
        hierarchy,
        number_of(inherits),
        method,
    )
}
