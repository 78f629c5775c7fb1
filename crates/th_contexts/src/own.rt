//! The own items of a module, with their heads. docs/LANGUAGE.md, "Rules of modules", states what a class introduces.
ghost use Rattle.std.specs.Prelude.{◌≡◌, ◌++◌, [], map, IfOk, OnOk};
ghost use Rattle.th_tree.specs.DeclView.{class_of as class_tree_of, method_of, module_item_of};
ghost use Rattle.th_type.specs.Signatures.{sig_of};
ghost use Rattle.th_hier.specs.Naming.{different};
ghost use Rattle.th_module_rules.specs.Contexts.{base, introduced, item, own_class_info, own_head, own_sigs};
ghost use Rattle.th_scope.specs.ItemView.{class_of, item_head_of, item_of};
ghost use Rattle.th_contexts.specs.BaseView.{base_of};
ghost use Rattle.th_contexts.specs.Bases.{bases_of};

use crate::base::{has_method, number_of};
use crate::base_row::Base;
use crate::bases::Bases;
use crate::field::fields_of;
use crate::head::{class_item, routine_item};
use std::alloc::{AllocError, Global};
use th_heads::{Found, Sight, walk_methods};
use th_hier::{Hierarchy, Home, Numbers};
use th_scope::{ClassItem, Head, Item};
use th_tree::{ClassDecl, MethodTree, ModuleItem};
use th_type::Sig;

/// A class of a module, with these hidden methods that it introduces.
fn own_class(
    alloc: Global,
    class: &ClassDecl,
    hidden: Vec<Sig>,
    found: &Found<'_>,
    home: &Home,
) -> Result<ClassItem, AllocError>
    ensures { IfOk result (λ c. class_of c ≡ own_class_info found.now home.now (class_tree_of class.now) (map sig_of hidden.items)) }
{
    let sight = Sight::of(alloc, home, &class.head.params)?;
    let fields = fields_of(alloc, &class.fields, found, &sight)?;
    class_item(
        alloc,
        &class.head,
        &class.init.head,
        hidden,
        fields,
        found,
        home,
    )
}

/// The signatures of the own methods of a class.
fn own_sigs(
    alloc: Global,
    class: &ClassDecl,
    found: &Found<'_>,
    home: &Home,
) -> Result<Vec<Sig>, AllocError>
    ensures { IfOk result (λ r. map sig_of r.items ≡ own_sigs found.now home.now (class_tree_of class.now)) }
{
    let mut ignored = None;
    let sight = Sight::of(alloc, home, &class.head.params)?;
    walk_methods(alloc, &class.methods, found, &sight, 0, &mut ignored)
}

/// The methods that a class introduces.
fn introduced(
    alloc: Global,
    class: &ClassItem,
    sigs: Vec<Sig>,
    hierarchy: &Hierarchy,
    bases: &Bases,
) -> Result<Vec<Sig>, AllocError>
    ensures { IfOk result (λ r. map sig_of r.items ≡ introduced hierarchy.now.types (bases_of bases.now) (class_of class.now) (map sig_of sigs.items)) }
{
    let above = number_of(&class.inherits);
    let mut kept = Vec::new(alloc);
    for sig in sigs {
        let known = has_method(hierarchy, &class.of, sig.method)
            || bases.knows(hierarchy, above, sig.method);
        if !known {
            kept.push(sig)?;
        }
    }
    Ok(kept)
}

/// The head of an item of a module.
fn own_head(
    alloc: Global,
    item: &ModuleItem,
    found: &Found<'_>,
    home: &Home,
    hierarchy: &Hierarchy,
    bases: &Bases,
) -> Result<Head, AllocError>
    ensures { IfOk result (λ h. item_head_of h ≡ own_head hierarchy.now.types (bases_of bases.now) found.now home.now (module_item_of item.now)) }
{
    match item {
        ModuleItem::Class(class) => {
            let plain = own_class(alloc, class, Vec::new(alloc), found, home)?;
            let sigs = own_sigs(alloc, class, found, home)?;
            let hidden = introduced(alloc, &plain, sigs, hierarchy, bases)?;
            let class = own_class(alloc, class, hidden, found, home)?;
            Ok(Head::Class(class))
        }
        ModuleItem::Routine(routine) => {
            let routine = routine_item(alloc, &routine.head, found, home)?;
            Ok(Head::Routine(routine))
        }
    }
}

/// The numbers of the names of methods, each once.
fn names_of(alloc: Global, methods: &[MethodTree]) -> Result<Numbers, AllocError>
    ensures { IfOk result (λ r. r ≡ different (map (λ m. m.sig.name.name) (map method_of methods.now))) }
{
    let mut names = Numbers::new(alloc);
    for method in methods {
        names.add(method.sig.name.name)?;
    }
    Ok(names)
}

/// What is asked of a class of a module, whose full name has this number.
pub fn own_base(
    alloc: Global,
    full: u32,
    class: &ClassDecl,
    found: &Found<'_>,
    home: &Home,
) -> Result<Base, AllocError>
    ensures { IfOk result (λ b. base_of b ≡ base full (own_class_info found.now home.now (class_tree_of class.now) []) (map (λ m. m.sig.name.name) (class_tree_of class.now).methods)) }
{
    let plain = own_class(alloc, class, Vec::new(alloc), found, home)?;
    let methods = names_of(alloc, &class.methods)?;
    Ok(Base {
        full,
        inherits: number_of(&plain.inherits),
        of: plain.of,
        methods,
    })
}

/// An item of a module by its name, whose full name has this number.
pub fn own_item(
    alloc: Global,
    name: u32,
    full: u32,
    tree: &ModuleItem,
    found: &Found<'_>,
    home: &Home,
    hierarchy: &Hierarchy,
    bases: &Bases,
) -> Result<Item, AllocError>
    ensures { IfOk result (λ i. item_of i ≡ item None name full (own_head hierarchy.now.types (bases_of bases.now) found.now home.now (module_item_of tree.now))) }
{
    let head = own_head(alloc, tree, found, home, hierarchy, bases)?;
    Ok(Item {
        name,
        from: None,
        full,
        head,
    })
}
