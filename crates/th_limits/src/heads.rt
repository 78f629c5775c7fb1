//! The counts of the heads of items. docs/LANGUAGE.md, "Limits", states what is counted where.
ghost use Rattle.std.specs.Prelude.{◌≡◌, ◌-◌, ◌^◌, ◌∷◌, [], map, min};
ghost use Rattle.th_tree.specs.View.{types_of};
ghost use Rattle.th_tree.specs.DeclView.{class_head_of, class_of, clause_of, init_head_of, interface_class_of, interface_item_of, interface_of, method_of, module_item_of, module_of, routine_head_of, sig_of, type_decl_of};
ghost use Rattle.th_tree.specs.Trees.{class_item, module_class, routine_item, type_item};
ghost use Rattle.th_hier.specs.Resolve.{count};
ghost use Rattle.th_module_rules.specs.Own.{head_item, head_items};
ghost use Rattle.th_module_rules.specs.Limits.{clauses_counts, item_counts, items_counts, sig_counts, sigs_counts};
ghost use Rattle.th_limits.specs.Earliest.{earliest};
ghost use Rattle.th_limits.specs.Heads.{class_head_counts, init_counts};

use crate::excess::{Excess, measure};
use th_tree::{
    ClassDecl, ClassHead, ClauseTree, InitHead, Interface, InterfaceClass, InterfaceItem,
    MethodTree, Module, ModuleItem, RoutineHead, SigTree, TypeDecl, TypeList,
};
use th_type::{Place, What};

/// How many types there are; the number stays at the greatest of 64 bits.
fn many_types(types: &TypeList) -> u64
    ensures { result ≡ min (count (types_of types.now)) (2 ^ 64 - 1) }
{
    let mut many: u64 = 0;
    let mut rest = types;
    while let TypeList::MoreType(_, next) = rest {
        many = many.saturating_add(1);
        rest = next;
    }
    many
}

/// Measures a signature.
fn measure_sig(first: &mut Option<Excess>, text: u32, sig: &SigTree)
    ensures { first.new ≡ earliest first.old (sig_counts text (sig_of sig.now)) }
{
    let place = Place { text, at: sig.at };
    measure(first, What::Formals, sig.formals.len() as u64, place);
}

/// Measures signatures.
fn measure_sigs(first: &mut Option<Excess>, text: u32, sigs: &[SigTree])
    ensures { first.new ≡ earliest first.old (sigs_counts text (map sig_of sigs.now)) }
{
    for sig in sigs {
        measure_sig(first, text, sig);
    }
}

/// Measures the signatures of methods.
fn measure_methods(first: &mut Option<Excess>, text: u32, methods: &[MethodTree])
    ensures { first.new ≡ earliest first.old (sigs_counts text (map (λ m. m.sig) (map method_of methods.now))) }
{
    for method in methods {
        measure_sig(first, text, &method.sig);
    }
}

/// Measures a clause.
#[tactic(auto, using(crate::proofs::Counting::capped))]
fn measure_clause(first: &mut Option<Excess>, text: u32, clause: &ClauseTree)
    ensures { first.new ≡ earliest first.old (clauses_counts text (clause_of clause.now ∷ [])) }
{
    let place = Place {
        text,
        at: clause.param.at,
    };
    measure(first, What::Formals, many_types(&clause.formals), place);
}

/// Measures clauses.
fn measure_clauses(first: &mut Option<Excess>, text: u32, clauses: &[ClauseTree])
    ensures { first.new ≡ earliest first.old (clauses_counts text (map clause_of clauses.now)) }
{
    for clause in clauses {
        measure_clause(first, text, clause);
    }
}

/// Measures the formals of an initializer.
fn measure_init(first: &mut Option<Excess>, text: u32, init: &InitHead)
    ensures { first.new ≡ earliest first.old (init_counts text (init_head_of init.now)) }
{
    let place = Place { text, at: init.at };
    measure(first, What::Formals, init.formals.len() as u64, place);
}

/// Measures the head of a class.
fn measure_class_head(first: &mut Option<Excess>, text: u32, head: &ClassHead)
    ensures { first.new ≡ earliest first.old (class_head_counts text (class_head_of head.now)) }
{
    let place = Place { text, at: head.at };
    measure(first, What::Params, head.params.len() as u64, place);
    measure(first, What::Where, head.clauses.len() as u64, place);
    measure_clauses(first, text, &head.clauses);
}

/// Measures a class of an interface.
fn measure_interface_class(first: &mut Option<Excess>, text: u32, class: &InterfaceClass)
    ensures { first.new ≡ earliest first.old (item_counts text (class_item (interface_class_of class.now))) }
{
    measure_class_head(first, text, &class.head);
    measure_sigs(first, text, &class.hidden);
    measure_init(first, text, &class.init);
}

/// Measures the head of a routine or an iterator.
fn measure_routine(first: &mut Option<Excess>, text: u32, head: &RoutineHead)
    ensures { first.new ≡ earliest first.old (item_counts text (routine_item (routine_head_of head.now))) }
{
    let place = Place { text, at: head.at };
    measure(first, What::Params, head.params.len() as u64, place);
    measure(first, What::Where, head.clauses.len() as u64, place);
    measure(first, What::Formals, head.formals.len() as u64, place);
    measure_clauses(first, text, &head.clauses);
}

/// Measures a type.
fn measure_type(first: &mut Option<Excess>, text: u32, decl: &TypeDecl)
    ensures { first.new ≡ earliest first.old (item_counts text (type_item (type_decl_of decl.now))) }
{
    let place = Place { text, at: decl.at };
    measure(first, What::Params, decl.params.len() as u64, place);
    measure_sigs(first, text, &decl.methods);
}

/// Measures an item of an interface.
fn measure_item(first: &mut Option<Excess>, text: u32, item: &InterfaceItem)
    ensures { first.new ≡ earliest first.old (item_counts text (interface_item_of item.now)) }
{
    match item {
        InterfaceItem::Exception(_) => {}
        InterfaceItem::Type(decl) => measure_type(first, text, decl),
        InterfaceItem::Class(class) => measure_interface_class(first, text, class),
        InterfaceItem::Routine(head) => measure_routine(first, text, head),
    }
}

/// Measures items of an interface.
fn measure_items(first: &mut Option<Excess>, text: u32, items: &[InterfaceItem])
    ensures { first.new ≡ earliest first.old (items_counts text (map interface_item_of items.now)) }
{
    for item in items {
        measure_item(first, text, item);
    }
}

/// Measures the items of an interface, which is the text of this number.
pub fn measure_interface(first: &mut Option<Excess>, text: u32, interface: &Interface)
    ensures { first.new ≡ earliest first.old (items_counts text (interface_of interface.now).items) }
{
    measure_items(first, text, &interface.items);
}

/// Measures a class of a module, without its bodies.
fn measure_class(first: &mut Option<Excess>, text: u32, class: &ClassDecl)
    ensures { first.new ≡ earliest first.old (item_counts text (head_item (module_class (class_of class.now)))) }
{
    measure_class_head(first, text, &class.head);
    measure_methods(first, text, &class.methods);
    measure_init(first, text, &class.init.head);
}

/// Measures an item of a module, without its bodies.
fn measure_module_item(first: &mut Option<Excess>, text: u32, item: &ModuleItem)
    ensures { first.new ≡ earliest first.old (item_counts text (head_item (module_item_of item.now))) }
{
    match item {
        ModuleItem::Class(class) => measure_class(first, text, class),
        ModuleItem::Routine(routine) => measure_routine(first, text, &routine.head),
    }
}

/// Measures items of a module, without their bodies.
fn measure_module_items(first: &mut Option<Excess>, text: u32, items: &[ModuleItem])
    ensures { first.new ≡ earliest first.old (items_counts text (map head_item (map module_item_of items.now))) }
{
    for item in items {
        measure_module_item(first, text, item);
    }
}

/// Measures the items of a module, without their bodies; the module is the text of this number.
pub fn measure_module_heads(first: &mut Option<Excess>, text: u32, program: &Module)
    ensures { first.new ≡ earliest first.old (items_counts text (head_items (module_of program.now))) }
{
    measure_module_items(first, text, &program.items);
}
