//! The classes of a checked module.
ghost use Rattle.std.specs.Prelude.{◌≡◌, ◌++◌, None, map, option_map, IfOk, OnOk};
ghost use Rattle.th_tree.specs.DeclView.{class_head_of, class_of as class_tree_of, module_item_of, module_of};
ghost use Rattle.th_meaning.specs.View.{class_of as core_class_of};
ghost use Rattle.th_rules.specs.Context.{find_item};
ghost use Rattle.th_scope.specs.View.{item_head_of, item_of, items_of};
ghost use Rattle.th_module_rules.specs.Own.{implemented};
ghost use Rattle.th_head_texts.specs.Heads.{declared_head, private_head};
ghost use Rattle.th_checked.specs.Checked.{core_classes, found_class, head_text, item_classes, text_at};
ghost use Rattle.th_checked.specs.Made.{text_by};

use crate::common::Common;
use std::alloc::{AllocError, Global};
use th_cores::core_class;
use th_head_texts::{HeadTokens, declared_head_text, private_head_text};
use th_hier::Index;
use th_meaning::CoreClass;
use th_own::implemented;
use th_scope::{Head, Item, Items};
use th_tree::{ClassDecl, ClassHead, Module, ModuleItem, NameTable};
use th_type::Place;

/// The canonical text of the head of a class of an interface, which begins at that place.
#[tactic(auto, using(crate::proofs::Texts::text_there, crate::proofs::Texts::text_past))]
fn declared_text(
    alloc: Global,
    tokens: &[HeadTokens<'_, '_>],
    place: Place,
) -> Result<Vec<u8>, AllocError>
    ensures { IfOk result (λ r. r.items ≡ declared_head (text_at tokens.now place.text) place.at) }
{
    match tokens.get(place.text as usize) {
        None => Ok(Vec::new(alloc)),
        Some(tokens) => declared_head_text(alloc, tokens, place.at),
    }
}

/// The canonical text of the head of a private class of the text of that number. No name is new in the table.
#[tactic(auto, using(crate::proofs::Texts::text_there, crate::proofs::Texts::text_past))]
fn private_text(
    alloc: Global,
    names: &mut NameTable,
    index: &Index,
    implements: Option<u32>,
    tokens: &[HeadTokens<'_, '_>],
    text: u32,
    head: &ClassHead,
) -> Result<Vec<u8>, AllocError>
    ensures text { IfOk result (λ r. r.items ≡ private_head names.old index.now implements (text_at tokens.now text) (class_head_of head.now)) }
    ensures names { IfOk result (λ _. names.new ≡ names.old) }
{
    match tokens.get(text as usize) {
        None => Ok(Vec::new(alloc)),
        Some(tokens) => private_head_text(alloc, names, index, implements, tokens, head),
    }
}

/// The canonical text of the head of a class of a module, which is the text of that number: that of its declaration, where it
/// has one.
fn head_text(
    alloc: Global,
    names: &mut NameTable,
    index: &Index,
    implements: Option<u32>,
    declaration: Option<Place>,
    tokens: &[HeadTokens<'_, '_>],
    text: u32,
    head: &ClassHead,
) -> Result<Vec<u8>, AllocError>
    ensures text { IfOk result (λ r. r.items ≡ head_text names.old index.now tokens.now text implements declaration (class_head_of head.now)) }
    ensures names { IfOk result (λ _. names.new ≡ names.old) }
{
    match declaration {
        Some(place) => declared_text(alloc, tokens, place),
        None => private_text(alloc, names, index, implements, tokens, text, head),
    }
}

/// Puts a class last, where the item that is known by its name is one.
fn push_class(
    alloc: Global,
    names: &NameTable,
    known: Option<&Item>,
    class: &ClassDecl,
    text: Vec<u8>,
    done: &mut Vec<CoreClass>,
) -> Result<(), AllocError>
    ensures { OnOk result (map core_class_of done.new.items ≡ map core_class_of done.old.items ++ found_class names.now text.items (class_tree_of class.now) (option_map (λ i. item_of i.now) known.entry)) }
{
    match known {
        None => Ok(()),
        Some(item) => match &item.head {
            Head::Exception(_) => Ok(()),
            Head::Declared(_) => Ok(()),
            Head::Class(info) => {
                let class = core_class(alloc, item.full, info, &class.methods, text, names)?;
                done.push(class)?;
                Ok(())
            }
            Head::Routine(_) => Ok(()),
        },
    }
}

/// Puts a class of the text of that number last; these are the items that can be named there.
fn push_known(
    alloc: Global,
    common: &Common<'_, '_, '_>,
    names: &mut NameTable,
    text: u32,
    implements: Option<u32>,
    items: &Items,
    class: &ClassDecl,
    done: &mut Vec<CoreClass>,
) -> Result<(), AllocError>
    ensures classes { OnOk result (map core_class_of done.new.items ≡ map core_class_of done.old.items ++ found_class names.old (text_by names.old common.now.hierarchy.now common.now.heads.now common.now.places.now text implements (class_tree_of class.now)) (class_tree_of class.now) (find_item (items_of items.now) None (class_tree_of class.now).head.name.name)) }
    ensures names { IfOk result (λ _. names.new ≡ names.old) }
{
    let name = class.head.name.name;
    let declaration = common.places.get_in(implements, name);
    let index = common.hierarchy.index();
    let tokens = common.heads;
    let head = &class.head;
    let text = head_text(
        alloc,
        names,
        index,
        implements,
        declaration,
        tokens,
        text,
        head,
    )?;
    push_class(alloc, names, items.find(None, name), class, text, done)
}

/// Puts the class last that an item of a module is.
fn push_item(
    alloc: Global,
    common: &Common<'_, '_, '_>,
    names: &mut NameTable,
    text: u32,
    implements: Option<u32>,
    items: &Items,
    item: &ModuleItem,
    done: &mut Vec<CoreClass>,
) -> Result<(), AllocError>
    ensures classes { OnOk result (map core_class_of done.new.items ≡ map core_class_of done.old.items ++ item_classes names.old (text_by names.old common.now.hierarchy.now common.now.heads.now common.now.places.now text implements) (items_of items.now) (module_item_of item.now)) }
    ensures names { IfOk result (λ _. names.new ≡ names.old) }
{
    match item {
        ModuleItem::Class(class) => push_known(
            alloc, common, names, text, implements, items, class, done,
        ),
        ModuleItem::Routine(_) => Ok(()),
    }
}

/// The classes among items of a module, which is the text of that number, in the order of the text; `known` are the items that can
/// be named there.
fn all_classes(
    alloc: Global,
    common: &Common<'_, '_, '_>,
    names: &mut NameTable,
    text: u32,
    implements: Option<u32>,
    known: &Items,
    items: &[ModuleItem],
) -> Result<Vec<CoreClass>, AllocError>
    ensures classes { IfOk result (λ r. map core_class_of r.items ≡ core_classes names.old (text_by names.old common.now.hierarchy.now common.now.heads.now common.now.places.now text implements) (items_of known.now) (map module_item_of items.now)) }
    ensures names { IfOk result (λ _. names.new ≡ names.old) }
{
    let mut done = Vec::new(alloc);
    for item in items {
        push_item(
            alloc, common, names, text, implements, known, item, &mut done,
        )?;
    }
    Ok(done)
}

/// The classes of a module, which is the text of that number, in the order of the text; `known` are the items that can be named
/// there.
pub(crate) fn core_classes(
    alloc: Global,
    common: &Common<'_, '_, '_>,
    names: &mut NameTable,
    text: u32,
    program: &Module,
    known: &Items,
) -> Result<Vec<CoreClass>, AllocError>
    ensures classes { IfOk result (λ r. map core_class_of r.items ≡ core_classes names.old (text_by names.old common.now.hierarchy.now common.now.heads.now common.now.places.now text (implemented (module_of program.now))) (items_of known.now) (module_of program.now).items) }
    ensures names { IfOk result (λ _. names.new ≡ names.old) }
{
    let implements = implemented(program);
    all_classes(
        alloc,
        common,
        names,
        text,
        implements,
        known,
        &program.items,
    )
}
