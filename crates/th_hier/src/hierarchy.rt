//! The hierarchy of the types that interfaces declare. docs/LANGUAGE.md, "Names and scopes" and "Subtypes", states the rules.
ghost use Rattle.std.specs.Prelude.{◌≡◌, ◌↔◌, ℕ, ◌+◌, ◌-◌, ◌^◌, ◌<◌, length, map, option_map, IfOk, IsTrue};
ghost use Rattle.std.specs.Ordering.{nat_cmp};
ghost use Rattle.std.specs.List.Sorted.{IsSorted, IsPermutation};
ghost use Rattle.th_tree.specs.View.{type_of};
ghost use Rattle.th_tree.specs.DeclView.{interface_of};
ghost use Rattle.th_type.specs.Types.{ty_of};
ghost use Rattle.th_type.specs.Signatures.{find_sig, sig_of};
ghost use Rattle.th_type.specs.Subtypes.{Subtype};
ghost use Rattle.th_type.specs.Ways.{WaysEnd};
ghost use Rattle.th_type.specs.Methods.{method_of};
ghost use Rattle.th_type.specs.MethodTables.{Rising};
ghost use Rattle.th_type.specs.Failures.{lowest};
ghost use Rattle.th_type.specs.Ordering.{SupersFirst};
ghost use Rattle.th_type.specs.Declarations.{decls_of, params_of, sigs_of, supers_of};
ghost use Rattle.th_type.specs.Rules.{WellFormed};
ghost use Rattle.th_hier.specs.Numbering.{item_count, numbered_items, numbering, AllNamed, Grown};
ghost use Rattle.th_hier.specs.Texts.{declarations, names_fail};
ghost use Rattle.th_hier.specs.Answers.{IsHierarchyAnswer};
ghost use Rattle.th_hier.specs.Scopes.{Resolves};

use crate::index::Index;
use crate::numbering::index_of;
use crate::scope::{ResolveError, Scope, resolve_in};
use crate::texts::judge_names;
use std::alloc::{AllocError, Global};
use std::marker::Model;
use th_tree::{Interface, NameTable, TypeTree};
use th_type::{Failure, Lattice, LatticeError, Place, Sig, Ty, TypeDef};
use thiserror::Error;

/// The items of interfaces by name and the types that they declare; the least failure of the rules on names.
fn declared(
    alloc: Global,
    names: &mut NameTable,
    interfaces: &[Interface],
    least: &mut Option<Failure>,
) -> Result<(Index, Vec<TypeDef>), AllocError>
    requires room { length names.old + item_count (map interface_of interfaces.now) < 2 ^ 32 - 1 }
    ensures items { IfOk result (λ r. numbering names.new r.0 ≡ numbered_items names.old (map interface_of interfaces.now)) }
    ensures types { IfOk result (λ r. decls_of r.1.items ≡ declarations r.0 (map interface_of interfaces.now)) }
    ensures named { IfOk result (λ r. AllNamed names.old names.new r.0) }
    ensures fit { IfOk result (λ r. WellFormed (decls_of r.1.items)) }
    ensures least { IfOk result (λ r. least.new ≡ lowest least.old (names_fail r.0 (map interface_of interfaces.now))) }
    ensures grown { Grown names.old names.new }
{
    let index = index_of(alloc, names, interfaces)?;
    let types = judge_names(alloc, interfaces, &index, least)?;
    Ok((index, types))
}

/// Why interfaces have no hierarchy: a rule that fails, by its number, and where; or there is no memory.
#[derive(Debug, Drop, Error)]
pub enum HierError {
    #[error("rule {number} at {} of text {}", place.at, place.text)]
    Rule { number: u32, place: Place },
    #[error("out of memory")]
    Memory,
}

/// The items of interfaces by name, and the hierarchy of the types that they declare. A contract sees both as lists.
#[derive(Drop)]
pub struct Hierarchy {
    index: Index,
    lattice: Lattice,
}

impl Model for Hierarchy {
    ghost use Rattle.std.specs.Coded.{codes};
    ghost use Rattle.th_type.specs.Codes.{coded_declared};
    ghost use Rattle.th_hier.specs.Hierarchies.{TypeHierarchy};

    ghost Value = { TypeHierarchy };

    ghost coded = { Prim.hlevel (codes, coded_declared) };

    ghost view = { λ a. record { items = a.index; types = a.lattice } };
}

impl Hierarchy {
    /// The hierarchy of interfaces, or the failure of a rule that is named. It numbers the full names of their items; after
    /// an error the table has perhaps more names at its end.
    pub fn of(
        alloc: Global,
        names: &mut NameTable,
        interfaces: &[Interface],
    ) -> Result<Hierarchy, HierError>
        requires room { length names.old + item_count (map interface_of interfaces.now) < 2 ^ 32 - 1 }
        ensures answer { IsHierarchyAnswer names.old (map interface_of interfaces.now) result }
        ensures named { IfOk result (λ h. AllNamed names.old names.new h.items) }
        ensures grown { Grown names.old names.new }
        ensures ends { IfOk result (λ h. WaysEnd h.types) }
    {
        let mut least = None;
        let Ok((index, types)) = declared(alloc, names, interfaces, &mut least) else {
            return Err(HierError::Memory);
        };
        match Lattice::of(alloc, types, least) {
            Ok(lattice) => Ok(Hierarchy { index, lattice }),
            Err(error) => match error {
                LatticeError::Rule(failure) => Err(HierError::Rule {
                    number: failure.rule,
                    place: failure.place,
                }),
                LatticeError::Memory => Err(HierError::Memory),
            },
        }
    }

    /// The items of the interfaces by name.
    pub fn index(&self) -> &Index
        ensures { result.now ≡ self.now.items }
    {
        &self.index
    }

    /// Whether the first type is a subtype of the second.
    pub fn is_subtype(&self, a: &Ty, b: &Ty) -> bool
        ensures { IsTrue result ↔ Subtype self.now.types (ty_of a.now) (ty_of b.now) }
    {
        self.lattice.is_subtype(a, b)
    }

    /// The methods of the declared type over its own parameters, ascending by their numbers; none for a number that is no
    /// declared type.
    pub fn methods_of(&self, head: u32) -> &[Sig]
        ensures ascending { Rising (map sig_of result.now) }
        ensures finds { (m : ℕ) → find_sig (map sig_of result.now) m ≡ method_of self.now.types head m }
    {
        self.lattice.methods_of(head)
    }

    /// The method of the declared type over its own parameters; None exactly where it has no such method.
    pub fn method_of(&self, head: u32, method: u32) -> Option<&Sig>
        ensures { option_map (λ s. sig_of s.now) result ≡ method_of self.now.types head method }
    {
        self.lattice.method_of(head, method)
    }

    /// The numbers of all declared types, ascending.
    pub fn heads(&self) -> &[u32]
        ensures ascending { IsSorted nat_cmp result.now }
        ensures all { IsPermutation (map (λ d. d.name) self.now.types) result.now }
    {
        self.lattice.heads()
    }

    /// The numbers of all declared types, each after its declared supertypes.
    pub fn supers_first(&self, alloc: Global) -> Result<Vec<u32>, AllocError>
        ensures order { IfOk result (λ order. SupersFirst self.now.types order.items) }
        ensures all { IfOk result (λ order. IsPermutation (map (λ d. d.name) self.now.types) order.items) }
    {
        self.lattice.supers_first(alloc)
    }

    /// The number of the declared type's parameters; 0 for a number that is no declared type.
    pub fn params_of(&self, head: u32) -> u32
        ensures { result ≡ params_of self.now.types head }
    {
        self.lattice.params_of(head)
    }

    /// The declared supertypes over the declared type's own parameters, in the order of the text; none for a number that is no
    /// declared type.
    pub fn supertypes_of(&self, head: u32) -> &[Ty]
        ensures { map ty_of result.now ≡ supers_of self.now.types head }
    {
        self.lattice.supertypes_of(head)
    }

    /// The signatures that are written in the declared type, in the order of the text; none for a number that is no declared
    /// type.
    pub fn written_in(&self, head: u32) -> &[Sig]
        ensures { map sig_of result.now ≡ sigs_of self.now.types head }
    {
        self.lattice.written_in(head)
    }
}

/// Whether the names of the table and the items of the interfaces are together few enough for `Hierarchy::of`: fewer than
/// 2^32 - 1.
pub fn has_room(names: &NameTable, interfaces: &[Interface]) -> bool
    ensures { IsTrue result ↔ (length names.now + item_count (map interface_of interfaces.now) < 2 ^ 32 - 1) }
{
    let mut count = names.len();
    for interface in interfaces {
        count = count.saturating_add(interface.items.len());
    }
    count < 0xffff_ffff
}

/// The type that the tree means in the scope, or the first byte at which one of its names means no type or has another number
/// of arguments than parameters.
pub fn resolve(
    alloc: Global,
    hierarchy: &Hierarchy,
    scope: &Scope,
    tree: &TypeTree,
) -> Result<Ty, ResolveError>
    ensures { Resolves hierarchy.now.items scope.now (type_of tree.now) result }
{
    resolve_in(alloc, &hierarchy.index, scope, tree)
}
