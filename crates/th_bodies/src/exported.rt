//! The where-clauses of the classes that classes of interfaces inherit. docs/LANGUAGE.md, "Rules of modules", states the rule.
ghost use Rattle.std.specs.Prelude.{◌≡◌, [], map, option_map, IfOk, OnOk};
ghost use Rattle.th_tree.specs.View.{named_of, option_of};
ghost use Rattle.th_tree.specs.DeclView.{class_head_of, init_head_of, interface_class_of, interface_item_of, interface_of};
ghost use Rattle.th_type.specs.Failures.{lowest};
ghost use Rattle.th_type.specs.Signatures.{sig_of};
ghost use Rattle.th_type.specs.Types.{ty_of};
ghost use Rattle.th_type.specs.Ways.{WaysEnd};
ghost use Rattle.th_hier.specs.Texts.{visible, within};
ghost use Rattle.th_module_rules.specs.Contexts.{bare_sig, class_info, interface_items};
ghost use Rattle.th_module_rules.specs.Modules.{inherits_fails};
ghost use Rattle.th_scope.specs.View.{class_of, items_of};
ghost use Rattle.th_program.specs.Programs.{with_texts};
ghost use Rattle.th_bodies.specs.Exported.{class_fails_by, interfaces_fail_by, item_fails_by, items_fail_by, outside};

use std::alloc::{AllocError, Global};
use th_contexts::{class_item, interface_items};
use th_heads::{Found, OwnItems};
use th_hier::{Hierarchy, Home, Index, Numbers};
use th_inits::judge_inherits;
use th_scope::{ClassItem, Env, Items, LocalList};
use th_tree::{Interface, InterfaceClass, InterfaceItem, NameTable};
use th_type::{Failure, NumberList, Sig, TyList};

/// A signature without parts.
fn bare_sig(alloc: Global) -> Sig
    ensures { sig_of result ≡ bare_sig 0 }
{
    Sig {
        method: 0,
        iterator: false,
        formals: TyList::NoTy,
        gives: None,
        signals: NumberList::of(Vec::new(alloc)),
    }
}

/// A class of an interface by its head, without what it introduces.
fn class_by_head(
    alloc: Global,
    class: &InterfaceClass,
    index: &Index,
    home: &Home,
) -> Result<ClassItem, AllocError>
    ensures { IfOk result (λ c. class_of c ≡ class_info index.now (within home.now class.now.head.params.items) (class_head_of class.now.head) (init_head_of class.now.init) [] []) }
{
    let found = Found::of(OwnItems::new(alloc), index);
    class_item(
        alloc,
        &class.head,
        &class.init,
        Vec::new(alloc),
        LocalList::NoLocal,
        &found,
        home,
    )
}

/// Judges the where-clauses of the class that a class inherits, which this is by its head.
fn judge_known_class<'a>(
    alloc: Global,
    names: &'a NameTable,
    hierarchy: &'a Hierarchy,
    items: &'a Items,
    text: u32,
    class: &InterfaceClass,
    item: &'a ClassItem,
    least: &mut Option<Failure>,
) -> Result<(), AllocError>
    requires { WaysEnd hierarchy.now.types }
    ensures { OnOk result (least.new ≡ lowest least.old (inherits_fails (outside names.now hierarchy.now (items_of items.now) text (class_of item.now)) (option_of named_of class.now.head.inherits) (class_of item.now).inherits)) }
{
    let none = Numbers::new(alloc);
    let sig = bare_sig(alloc);
    let env = Env {
        text,
        names,
        hierarchy,
        items,
        implements: None,
        uses: &none,
        params: &none,
        clauses: &item.clauses,
        sig: &sig,
        class: None,
        locals: LocalList::NoLocal,
    };
    judge_inherits(alloc, &env, &class.head.inherits, &item.inherits, least)
}

/// Judges the where-clauses of the class that a class inherits.
fn judge_class(
    alloc: Global,
    names: &NameTable,
    hierarchy: &Hierarchy,
    items: &Items,
    text: u32,
    class: &InterfaceClass,
    home: &Home,
    least: &mut Option<Failure>,
) -> Result<(), AllocError>
    requires { WaysEnd hierarchy.now.types }
    ensures { OnOk result (least.new ≡ lowest least.old (class_fails_by names.now hierarchy.now (items_of items.now) text home.now (interface_class_of class.now))) }
{
    let item = class_by_head(alloc, class, hierarchy.index(), home)?;
    judge_known_class(alloc, names, hierarchy, items, text, class, &item, least)
}

/// Judges an item of an interface.
fn judge_item(
    alloc: Global,
    names: &NameTable,
    hierarchy: &Hierarchy,
    items: &Items,
    text: u32,
    item: &InterfaceItem,
    home: &Home,
    least: &mut Option<Failure>,
) -> Result<(), AllocError>
    requires { WaysEnd hierarchy.now.types }
    ensures { OnOk result (least.new ≡ lowest least.old (item_fails_by names.now hierarchy.now (items_of items.now) text home.now (interface_item_of item.now))) }
{
    match item {
        InterfaceItem::Exception(_) => Ok(()),
        InterfaceItem::Type(_) => Ok(()),
        InterfaceItem::Class(class) => {
            judge_class(alloc, names, hierarchy, items, text, class, home, least)
        }
        InterfaceItem::Routine(_) => Ok(()),
    }
}

/// Judges items of an interface.
fn judge_items(
    alloc: Global,
    names: &NameTable,
    hierarchy: &Hierarchy,
    items: &Items,
    text: u32,
    list: &[InterfaceItem],
    home: &Home,
    least: &mut Option<Failure>,
) -> Result<(), AllocError>
    requires { WaysEnd hierarchy.now.types }
    ensures { OnOk result (least.new ≡ lowest least.old (items_fail_by names.now hierarchy.now (items_of items.now) text home.now (map interface_item_of list.now))) }
{
    for item in list {
        judge_item(alloc, names, hierarchy, items, text, item, home, least)?;
    }
    Ok(())
}

/// Judges an interface.
fn judge_interface(
    alloc: Global,
    names: &NameTable,
    hierarchy: &Hierarchy,
    items: &Items,
    text: u32,
    interface: &Interface,
    least: &mut Option<Failure>,
) -> Result<(), AllocError>
    requires { WaysEnd hierarchy.now.types }
    ensures { OnOk result (least.new ≡ lowest least.old (items_fail_by names.now hierarchy.now (items_of items.now) text (visible (interface_of interface.now)) (interface_of interface.now).items)) }
{
    let home = Home::of(alloc, interface)?;
    judge_items(
        alloc,
        names,
        hierarchy,
        items,
        text,
        &interface.items,
        &home,
        least,
    )
}

/// Judges interfaces, whose items are these.
fn judge_interfaces(
    alloc: Global,
    names: &NameTable,
    hierarchy: &Hierarchy,
    items: &Items,
    texts: &[u32],
    interfaces: &[Interface],
    least: &mut Option<Failure>,
) -> Result<(), AllocError>
    requires { WaysEnd hierarchy.now.types }
    ensures { OnOk result (least.new ≡ lowest least.old (interfaces_fail_by names.now hierarchy.now (items_of items.now) (with_texts texts.now (map interface_of interfaces.now)))) }
{
    let mut k = 0;
    while k < interfaces.len() && k < texts.len() {
        judge_interface(
            alloc,
            names,
            hierarchy,
            items,
            texts[k],
            &interfaces[k],
            least,
        )?;
        k += 1;
    }
    Ok(())
}

/// Judges the where-clauses of the classes that classes of interfaces inherit. Each interface is the text of its number.
pub fn judge_exported(
    alloc: Global,
    names: &NameTable,
    hierarchy: &Hierarchy,
    texts: &[u32],
    interfaces: &[Interface],
    least: &mut Option<Failure>,
) -> Result<(), AllocError>
    requires { WaysEnd hierarchy.now.types }
    ensures { OnOk result (least.new ≡ lowest least.old (interfaces_fail_by names.now hierarchy.now (interface_items hierarchy.now.items [] (map interface_of interfaces.now)) (with_texts texts.now (map interface_of interfaces.now)))) }
{
    let list = interface_items(alloc, interfaces, hierarchy.index())?;
    let items = Items::of(alloc, list)?;
    judge_interfaces(alloc, names, hierarchy, &items, texts, interfaces, least)
}
