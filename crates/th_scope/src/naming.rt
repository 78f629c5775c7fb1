//! What names mean where a unit stands. docs/LANGUAGE.md, "Names and scopes", states the order.
ghost use Rattle.std.specs.Prelude.{◌≡◌, option_map};
ghost use Rattle.th_type.specs.Lists.{or_else};
ghost use Rattle.th_hier.specs.Naming.{is_number};
ghost use Rattle.th_rules.specs.Context.{bare_meaning, find_item, full_meaning, implemented_item, item_or_none, meaning, named_meaning, referent, routine_sort, sort_of};
ghost use Rattle.th_scope.specs.View.{context_of, item_head_of, item_of, items_of, locals_of, meant_of};

use crate::env::Env;
use crate::item::{Head, Item};
use crate::items::Items;
use crate::local::{Local, LocalList};
use th_hier::{Entry, Referent, Sort};
use th_tree::RefTree;

/// What a name means.
#[derive(Clone, Copy)]
pub enum Meant<'a> {
    Nothing,
    Local(&'a Local),
    Param(u32),
    Item(&'a Item),
}

/// The item, where there is one.
fn item_or_nothing<'a>(item: Option<&'a Item>) -> Meant<'a>
    ensures { meant_of result ≡ item_or_none (option_map (λ i. item_of i.now) item.entry) }
{
    match item {
        Some(item) => Meant::Item(item),
        None => Meant::Nothing,
    }
}

/// Whether the number is there and is the other.
fn is_number(number: Option<u32>, other: u32) -> bool
    ensures { result ≡ is_number number other }
{
    match number {
        None => false,
        Some(number) => number == other,
    }
}

/// The item of the implemented interface, where there is one.
fn implemented<'a>(items: &'a Items, implements: Option<u32>, name: u32) -> Option<&'a Item>
    ensures { option_map (λ i. item_of i.now) result ≡ implemented_item (items_of items.now) implements name }
{
    match implements {
        None => None,
        Some(interface) => items.find(Some(interface), name),
    }
}

/// The text's own item, else that of the implemented interface.
fn bare_item<'a>(items: &'a Items, implements: Option<u32>, name: u32) -> Option<&'a Item>
    ensures { option_map (λ i. item_of i.now) result ≡ or_else (find_item (items_of items.now) None name) (implemented_item (items_of items.now) implements name) }
{
    match items.find(None, name) {
        Some(item) => Some(item),
        None => implemented(items, implements, name),
    }
}

/// What a bare name means.
fn bare_meaning<'a>(env: &Env<'a>, locals: &'a LocalList, name: u32) -> Meant<'a>
    ensures { meant_of result ≡ bare_meaning (context_of env.now) (locals_of locals.now) name }
{
    match locals.find(name) {
        Some(local) => Meant::Local(local),
        None => match env.params.place(name) {
            Some(place) => Meant::Param(place),
            None => item_or_nothing(bare_item(env.items, env.implements, name)),
        },
    }
}

/// What `I$n` means.
fn full_meaning<'a>(env: &Env<'a>, interface: u32, name: u32) -> Meant<'a>
    ensures { meant_of result ≡ full_meaning (context_of env.now) interface name }
{
    if env.uses.has(interface) || is_number(env.implements, interface) {
        item_or_nothing(env.items.find(Some(interface), name))
    } else {
        Meant::Nothing
    }
}

/// What a reference means where these locals are in scope.
pub fn meaning<'a>(env: &Env<'a>, locals: &'a LocalList, named: &RefTree) -> Meant<'a>
    ensures { meant_of result ≡ meaning (context_of env.now) (locals_of locals.now) named.now }
{
    match named.second {
        None => bare_meaning(env, locals, named.first.name),
        Some(second) => full_meaning(env, named.first.name, second.name),
    }
}

/// The sort of a routine or of an iterator.
fn routine_sort(iterator: bool, params: u32) -> Sort
    ensures { result ≡ routine_sort iterator params }
{
    if iterator {
        Sort::Iterator(params)
    } else {
        Sort::Routine(params)
    }
}

/// The sort of an item.
fn sort_of(head: &Head) -> Sort
    ensures { result ≡ sort_of (item_head_of head.now) }
{
    match head {
        Head::Exception(_) => Sort::Exception,
        Head::Declared(params) => Sort::Declared(*params),
        Head::Class(class) => Sort::Class(class.params),
        Head::Routine(routine) => routine_sort(routine.sig.iterator, routine.params),
    }
}

/// What a name refers to where a type is needed; a local is nothing there.
pub fn referent(meant: Meant<'_>) -> Referent
    ensures { result ≡ referent (meant_of meant.entry) }
{
    match meant {
        Meant::Nothing => Referent::Nothing,
        Meant::Local(_) => Referent::Nothing,
        Meant::Param(place) => Referent::Param(place),
        Meant::Item(item) => Referent::Item(Entry {
            full: item.full,
            sort: sort_of(&item.head),
        }),
    }
}

/// What a reference refers to where a type is needed.
pub fn referent_of(env: &Env<'_>, locals: &LocalList, named: &RefTree) -> Referent
    ensures { result ≡ referent (meaning (context_of env.now) (locals_of locals.now) named.now) }
{
    referent(meaning(&*env, &*locals, named))
}
