//! The objects of classes: their header words, where-words, fields, hidden methods, and the types seen.
ghost use Rattle.std.specs.Option.{ForSome};
ghost use Rattle.std.specs.Prelude.{◌≡◌, ◌≤◌, ◌+◌, ◌<◌, ℕ, length, IfOk};
ghost use Rattle.th_offsets.specs.Known.{Done, FewFields, FewWords, Few, Formed, HiddenNames, IsObject, Spotted, Typed, Viewed, object_on};
ghost use Rattle.th_views.specs.Chain.{hidden};
ghost use Rattle.th_views.specs.Objects.{object_spots};
ghost use Rattle.th_views.specs.Rows.{chain_of, inherited, Inherited, Ordered};

use crate::heads::Facts;
use crate::views::{Spots, lower_onto};
use std::alloc::{AllocError, Global};
use th_type::NumberList;
use th_views::{ClassRow, Spot, TypeRow};

/// The words of a class's objects.
#[derive(Clone, Copy)]
pub struct Object {
    /// The first header word of the class's own group, from the anchor down.
    pub start: u32,
    /// The header words of all groups.
    pub words: u32,
    /// Where-words and fields, with inherited ones.
    pub wheres: u32,
    pub fields: u32,
    /// Where-words and fields of the inherited class.
    pub below: u32,
}

fn object_of(class: &ClassRow, up: Object, span: u32) -> Object
    requires words { up.words + span < 1000 }
    requires start { up.start + span < 1000 }
    requires filled { up.wheres + up.fields + class.now.wheres + class.now.fields < 1000 }
    ensures { result ≡ object_on class.now up span }
{
    let start = if class.extends { up.start } else { up.words };
    Object {
        start,
        words: start + span,
        wheres: up.wheres + class.wheres,
        fields: up.fields + class.fields,
        below: up.wheres + up.fields,
    }
}

/// The objects of the class that is inherited, if there is one.
fn inherited_object(
    types: &[TypeRow],
    classes: &[ClassRow],
    inherits: Option<u32>,
    done: &[Object],
) -> Object
    requires done { Formed (record { types = types.now; classes = classes.now }) done.now }
    requires before { ForSome inherits (λ d. d < length done.now) }
    ensures { IsObject result (inherited (chain_of (record { types = types.now; classes = classes.now })) inherits) }
{
    match inherits {
        Some(d) => done[d as usize],
        None => Object {
            start: 0,
            words: 0,
            wheres: 0,
            fields: 0,
            below: 0,
        },
    }
}

fn object_at(
    types: &[TypeRow],
    classes: &[ClassRow],
    number: usize,
    facts: &[Facts],
    done: &[Object],
) -> Object
    requires within { number < length classes.now }
    requires before { length done.now ≡ number }
    requires inherited { Inherited classes.now }
    requires typed { Typed (record { types = types.now; classes = classes.now }) }
    requires known { (length facts.now ≡ length types.now) × Done types.now facts.now }
    requires few { FewWords (record { types = types.now; classes = classes.now }) }
    requires filled { FewFields (record { types = types.now; classes = classes.now }) }
    requires done { Formed (record { types = types.now; classes = classes.now }) done.now }
    ensures { IsObject result (chain_of (record { types = types.now; classes = classes.now }) number) }
{
    let class = &classes[number];
    let up = inherited_object(types, classes, class.inherits, done);
    object_of(class, up, facts[class.of as usize].span)
}

/// The words of all classes' objects, from the first class on.
pub fn all_objects(
    alloc: Global,
    types: &[TypeRow],
    classes: &[ClassRow],
    facts: &[Facts],
) -> Result<Vec<Object>, AllocError>
    requires inherited { Inherited classes.now }
    requires typed { Typed (record { types = types.now; classes = classes.now }) }
    requires known { (length facts.now ≡ length types.now) × Done types.now facts.now }
    requires few { FewWords (record { types = types.now; classes = classes.now }) }
    requires filled { FewFields (record { types = types.now; classes = classes.now }) }
    ensures { IfOk result (λ all. (length all.items ≡ length classes.now) × Formed (record { types = types.now; classes = classes.now }) all.items) }
{
    let mut all = Vec::new(alloc);
    for number in 0..classes.len() {
        let object = object_at(types, classes, number, facts, &all);
        all.push(object)?;
    }
    Ok(all)
}

/// The hidden methods of the class that is inherited, if there is one.
fn inherited_names(
    alloc: Global,
    types: &[TypeRow],
    classes: &[ClassRow],
    inherits: Option<u32>,
    done: &[NumberList],
) -> Result<Vec<u32>, AllocError>
    requires done { HiddenNames (record { types = types.now; classes = classes.now }) done.now }
    requires before { ForSome inherits (λ d. d < length done.now) }
    ensures { IfOk result (λ list. list.items ≡ hidden (inherited (chain_of (record { types = types.now; classes = classes.now })) inherits)) }
{
    match inherits {
        Some(d) => Vec::from_slice(alloc, done[d as usize].as_slice()),
        None => Ok(Vec::new(alloc)),
    }
}

fn hidden_of(
    alloc: Global,
    types: &[TypeRow],
    classes: &[ClassRow],
    number: usize,
    done: &[NumberList],
) -> Result<Vec<u32>, AllocError>
    requires within { number < length classes.now }
    requires before { length done.now ≡ number }
    requires inherited { Inherited classes.now }
    requires done { HiddenNames (record { types = types.now; classes = classes.now }) done.now }
    ensures { IfOk result (λ list. list.items ≡ hidden (chain_of (record { types = types.now; classes = classes.now }) number)) }
{
    let class = &classes[number];
    let mut list = inherited_names(alloc, types, classes, class.inherits, done)?;
    list.extend_from_slice(class.hidden.as_slice())?;
    Ok(list)
}

/// The hidden methods of all classes, inherited ones first.
pub fn all_hidden(
    alloc: Global,
    types: &[TypeRow],
    classes: &[ClassRow],
) -> Result<Vec<NumberList>, AllocError>
    requires inherited { Inherited classes.now }
    ensures { IfOk result (λ all. (length all.items ≡ length classes.now) × HiddenNames (record { types = types.now; classes = classes.now }) all.items) }
{
    let mut all = Vec::new(alloc);
    for number in 0..classes.len() {
        let list = hidden_of(alloc, types, classes, number, &all)?;
        all.push(NumberList::of(list))?;
    }
    Ok(all)
}
