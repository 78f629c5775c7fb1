//! Look-ups of methods: the types that they give, and the classes whose bodies the walk finds.
ghost use Rattle.std.specs.HashMap.{get};
ghost use Rattle.std.specs.Option.{ForSome};
ghost use Rattle.std.specs.Prelude.{◌≡◌, ◌<◌, ◌++◌, ℕ, length, slice_get, IfOk, OnOk, nat_eq};
ghost use Rattle.th_offsets.specs.Given.{Bodied, BodyLists, GivenTypes, GivenClasses, Arriving, body_list, bodies_from};
ghost use Rattle.th_views.specs.Lookups.{given_in};
ghost use Rattle.th_views.specs.Rows.{chain_of, inherited, Inherited};

use std::alloc::{AllocError, Global};
use std::collections::HashMap;
use th_views::{ClassRow, Gives, TypeRow};

/// For each method, a type that it gives or a class that has its body.
#[derive(Drop)]
pub struct Heads {
    pub of: HashMap<u32, u32>,
}

/// Methods in a list, each with a class that has a body for it.
#[derive(Drop)]
pub struct Bodies {
    pub list: Vec<Gives>,
}

/// The first entry of each method.
fn first_heads(alloc: Global, list: &[Gives]) -> Result<HashMap<u32, u32>, AllocError>
    ensures { IfOk result (λ m. (q : ℕ) → get nat_eq m q ≡ given_in list.now q) }
{
    let mut map = HashMap::new(alloc);
    for entry in list {
        if !map.contains_key(&entry.method) {
            map.insert(entry.method, entry.of)?;
        }
    }
    Ok(map)
}

/// What the methods of all types give.
pub fn all_type_heads(alloc: Global, types: &[TypeRow]) -> Result<Vec<Heads>, AllocError>
    ensures { IfOk result (λ all. (length all.items ≡ length types.now) × GivenTypes types.now all.items) }
{
    let mut all = Vec::new(alloc);
    for number in 0..types.len() {
        let of = first_heads(alloc, types[number].gives.as_slice())?;
        all.push(Heads { of })?;
    }
    Ok(all)
}

/// What the methods of all classes give.
pub fn all_class_heads(alloc: Global, classes: &[ClassRow]) -> Result<Vec<Heads>, AllocError>
    ensures { IfOk result (λ all. (length all.items ≡ length classes.now) × GivenClasses classes.now all.items) }
{
    let mut all = Vec::new(alloc);
    for number in 0..classes.len() {
        let of = first_heads(alloc, classes[number].gives.as_slice())?;
        all.push(Heads { of })?;
    }
    Ok(all)
}

/// What arrives for the methods of all classes.
pub fn all_arrivals(alloc: Global, classes: &[ClassRow]) -> Result<Vec<Heads>, AllocError>
    ensures { IfOk result (λ all. (length all.items ≡ length classes.now) × Arriving classes.now all.items) }
{
    let mut all = Vec::new(alloc);
    for number in 0..classes.len() {
        let of = first_heads(alloc, classes[number].arrives.as_slice())?;
        all.push(Heads { of })?;
    }
    Ok(all)
}

/// Adds the bodies of a class.
fn add_bodies(into: &mut Vec<Gives>, class: u32, methods: &[u32]) -> Result<(), AllocError>
    ensures { OnOk result (into.new.items ≡ into.old.items ++ bodies_from class methods.now) }
{
    for method in methods {
        into.push(Gives {
            method: *method,
            of: class,
        })?;
    }
    Ok(())
}

/// Adds the bodies of the class that is inherited, if there is one.
fn add_inherited_bodies(
    into: &mut Vec<Gives>,
    types: &[TypeRow],
    classes: &[ClassRow],
    inherits: Option<u32>,
    done: &[Bodies],
) -> Result<(), AllocError>
    requires done { BodyLists (record { types = types.now; classes = classes.now }) done.now }
    requires before { ForSome inherits (λ d. d < length done.now) }
    ensures { OnOk result (into.new.items ≡ into.old.items ++ body_list (inherited (chain_of (record { types = types.now; classes = classes.now })) inherits)) }
{
    if let Some(d) = inherits {
        into.extend_from_slice(&done[d as usize].list)?;
    }
    Ok(())
}

fn bodies_of(
    alloc: Global,
    types: &[TypeRow],
    classes: &[ClassRow],
    number: usize,
    done: &[Bodies],
) -> Result<Vec<Gives>, AllocError>
    requires within { number < length classes.now }
    requires before { length done.now ≡ number }
    requires inherited { Inherited classes.now }
    requires done { BodyLists (record { types = types.now; classes = classes.now }) done.now }
    ensures { IfOk result (λ list. list.items ≡ body_list (chain_of (record { types = types.now; classes = classes.now }) number)) }
{
    let class = &classes[number];
    let mut list = Vec::new(alloc);
    add_bodies(&mut list, class.name, class.bodies.as_slice())?;
    add_inherited_bodies(&mut list, types, classes, class.inherits, done)?;
    Ok(list)
}

fn all_body_lists(
    alloc: Global,
    types: &[TypeRow],
    classes: &[ClassRow],
) -> Result<Vec<Bodies>, AllocError>
    requires { Inherited classes.now }
    ensures { IfOk result (λ all. (length all.items ≡ length classes.now) × BodyLists (record { types = types.now; classes = classes.now }) all.items) }
{
    let mut all = Vec::new(alloc);
    for number in 0..classes.len() {
        let list = bodies_of(alloc, types, classes, number, &all)?;
        all.push(Bodies { list })?;
    }
    Ok(all)
}

fn body_heads(
    alloc: Global,
    types: &[TypeRow],
    classes: &[ClassRow],
    lists: &[Bodies],
) -> Result<Vec<Heads>, AllocError>
    requires { (length lists.now ≡ length classes.now) × BodyLists (record { types = types.now; classes = classes.now }) lists.now }
    ensures { IfOk result (λ all. (length all.items ≡ length classes.now) × Bodied (record { types = types.now; classes = classes.now }) all.items) }
{
    let mut all = Vec::new(alloc);
    for number in 0..lists.len() {
        let of = first_heads(alloc, &lists[number].list)?;
        all.push(Heads { of })?;
    }
    Ok(all)
}

/// The classes whose bodies the walk finds, for the methods of all classes.
pub fn all_bodies(
    alloc: Global,
    types: &[TypeRow],
    classes: &[ClassRow],
) -> Result<Vec<Heads>, AllocError>
    requires { Inherited classes.now }
    ensures { IfOk result (λ all. (length all.items ≡ length classes.now) × Bodied (record { types = types.now; classes = classes.now }) all.items) }
{
    let lists = all_body_lists(alloc, types, classes)?;
    body_heads(alloc, types, classes, &lists)
}
