//! The type that a tree means in a scope. docs/LANGUAGE.md, "Names and scopes", states what a name means.
ghost use Rattle.std.specs.Prelude.{◌≡◌, None, IfOk};
ghost use Rattle.th_tree.specs.View.{type_of};
ghost use Rattle.th_type.specs.Failures.{lowest};
ghost use Rattle.th_hier.specs.Resolve.{resolved_type};
ghost use Rattle.th_hier.specs.Scopes.{failures_in, seen_in, Resolves};
ghost use Rattle.th_hier.specs.Views.{ty_opt};

use crate::index::{Home, Index, Sight};
use crate::numbers::Numbers;
use crate::walk::walk_type;
use std::alloc::{AllocError, Global};
use th_tree::TypeTree;
use th_type::{Failure, NumberList, Ty};
use thiserror::Error;

/// The names that can be seen at a place of a text, by the numbers of bare names: `text` is an interface's own name, and
/// None in a module; `implements` is the implemented interface; `uses` are the interfaces after `uses`; `params` are the type
/// parameters. Locals are not among them.
#[derive(Drop)]
pub struct Scope {
    pub text: Option<u32>,
    pub implements: Option<u32>,
    pub uses: NumberList,
    pub params: NumberList,
}

/// Why a tree means no type: at this byte a name means neither a declared type nor a type parameter; or it has another number
/// of arguments than parameters; or there is no memory.
#[derive(Debug, Drop, Error)]
pub enum ResolveError {
    #[error("unknown name at {0}")]
    Unknown(u32),
    #[error("wrong number of arguments at {0}")]
    Count(u32),
    #[error("out of memory")]
    Memory,
}

/// The type that the tree means in the scope, where it means one, and its first failure.
fn walk_in(
    alloc: Global,
    index: &Index,
    scope: &Scope,
    tree: &TypeTree,
) -> Result<(Option<Ty>, Option<Failure>), AllocError>
    ensures means { IfOk result (λ r. ty_opt r.0 ≡ resolved_type index.now (seen_in scope.now) (type_of tree.now)) }
    ensures least { IfOk result (λ r. r.1 ≡ lowest None (failures_in index.now scope.now (type_of tree.now))) }
{
    let home = Home {
        text: scope.text,
        implements: scope.implements,
        uses: Numbers::of(alloc, scope.uses.as_slice())?,
    };
    let sight = Sight::in_home(alloc, &home, scope.params.as_slice())?;
    let mut least = None;
    let ty = walk_type(alloc, tree, index, &sight, 0, &mut least)?;
    Ok((ty, least))
}

/// The type that the tree means in the scope, or the first byte at which one of its names means no type or has another number
/// of arguments than parameters.
pub fn resolve_in(
    alloc: Global,
    index: &Index,
    scope: &Scope,
    tree: &TypeTree,
) -> Result<Ty, ResolveError>
    ensures { Resolves index.now scope.now (type_of tree.now) result }
{
    let Ok((ty, least)) = walk_in(alloc, index, scope, tree) else {
        return Err(ResolveError::Memory);
    };
    match least {
        Some(failure) => {
            if failure.rule == 4 {
                Err(ResolveError::Unknown(failure.place.at))
            } else {
                Err(ResolveError::Count(failure.place.at))
            }
        }
        None => match ty {
            Some(ty) => Ok(ty),
            None => unreachable!(),
        },
    }
}
