//! Names after `uses` and `implements`.
ghost use Rattle.std.specs.Prelude.{◌≡◌, ◌∷◌, ◌++◌, [], None, map, option_map, IfOk};
ghost use Rattle.th_tree.specs.DeclView.{interface_of, module_of};
ghost use Rattle.th_hier.specs.Naming.{with_numbers};
ghost use Rattle.th_rules.specs.Cores.{name_at};
ghost use Rattle.th_type.specs.Failures.{place};
ghost use Rattle.th_module_rules.specs.Texts.{used_by_interfaces, used_by_modules, used_names, used_of_option};
ghost use Rattle.th_module_rules.specs.Refusals.{all_used};
ghost use Rattle.th_program.specs.Programs.{IsPaired, program_of, with_texts};
ghost use Rattle.th_full_names.specs.Given.{AreDemanded};
ghost use Rattle.th_full_names.specs.Earliest.{earlier, earliest, stands_before, used_of};

use std::alloc::{AllocError, Global};
use th_hier::Numbers;
use th_program::Trees;
use th_scope::spelled;
use th_tree::{Ident, Interface, Module, Name, NameTable};
use th_type::Place;

/// A name that is not that of an interface, and where it stands.
#[derive(Drop)]
pub struct Missing {
    pub place: Place,
    pub name: Name,
}

/// A name after `uses` or `implements`, and the text that it stands in.
#[derive(Clone, Copy)]
struct Used {
    text: u32,
    name: Ident,
}

/// Whether the first stands before the second: by text, then byte.
fn is_before(a: Used, b: Used) -> bool
    ensures { result ≡ stands_before (used_of a) (used_of b) }
{
    a.text < b.text || (a.text == b.text && a.name.at < b.name.at)
}

/// The one that is kept: whichever stands first.
fn earlier(first: Option<Used>, used: Used) -> Option<Used>
    ensures { option_map used_of result ≡ earlier (option_map used_of first) (used_of used) }
{
    match first {
        None => Some(used),
        Some(kept) => {
            if is_before(used, kept) {
                Some(used)
            } else {
                Some(kept)
            }
        }
    }
}

/// The first of the one that is kept and of the name, where it is not given.
fn with_used(first: Option<Used>, given: &Numbers, used: Used) -> Option<Used>
    ensures { option_map used_of result ≡ earliest given.now (option_map used_of first) (used_of used ∷ []) }
{
    if given.has(used.name.name) {
        first
    } else {
        earlier(first, used)
    }
}

/// The same of names in the text.
fn with_names(first: Option<Used>, given: &Numbers, text: u32, names: &[Ident]) -> Option<Used>
    ensures { option_map used_of result ≡ earliest given.now (option_map used_of first) (used_names text names.now) }
{
    let mut kept = first;
    for name in names {
        kept = with_used(kept, given, Used { text, name: *name });
    }
    kept
}

/// The same of the names that interfaces use.
fn with_interfaces(
    first: Option<Used>,
    given: &Numbers,
    interfaces: &[Interface],
    texts: &[u32],
) -> Option<Used>
    ensures { option_map used_of result ≡ earliest given.now (option_map used_of first) (used_by_interfaces (with_texts texts.now (map interface_of interfaces.now))) }
{
    let mut kept = first;
    let mut k = 0;
    while k < interfaces.len() && k < texts.len() {
        kept = with_names(kept, given, texts[k], &interfaces[k].uses);
        k += 1;
    }
    kept
}

/// The same of the name that a module implements, where it implements one.
fn with_implements(
    first: Option<Used>,
    given: &Numbers,
    text: u32,
    implements: Option<Ident>,
) -> Option<Used>
    ensures { option_map used_of result ≡ earliest given.now (option_map used_of first) (used_of_option text implements) }
{
    match implements {
        Some(name) => with_used(first, given, Used { text, name }),
        None => first,
    }
}

/// The same of the names that a module implements and uses.
#[tactic(auto, using(crate::proofs::GivenLaws::earliest_append))]
fn with_module(first: Option<Used>, given: &Numbers, text: u32, program: &Module) -> Option<Used>
    ensures { option_map used_of result ≡ earliest given.now (option_map used_of first) (used_of_option text (module_of program.now).implements ++ used_names text (module_of program.now).uses) }
{
    let kept = with_implements(first, given, text, program.implements);
    with_names(kept, given, text, &program.uses)
}

/// The same of the names that modules implement and use.
fn with_modules(
    first: Option<Used>,
    given: &Numbers,
    modules: &[Module],
    texts: &[u32],
) -> Option<Used>
    ensures { option_map used_of result ≡ earliest given.now (option_map used_of first) (used_by_modules (with_texts texts.now (map module_of modules.now))) }
{
    let mut kept = first;
    let mut k = 0;
    while k < modules.len() && k < texts.len() {
        kept = with_module(kept, given, texts[k], &modules[k]);
        k += 1;
    }
    kept
}

/// The numbers of the names of interfaces, each once.
fn names_of(alloc: Global, interfaces: &[Interface]) -> Result<Numbers, AllocError>
    ensures { IfOk result (λ given. given ≡ with_numbers [] (map (λ i. i.name.name) interfaces.now)) }
{
    let mut given = Numbers::new(alloc);
    for interface in interfaces {
        given.add(interface.name.name)?;
    }
    Ok(given)
}

/// The first name after `uses` or `implements` that is not given, where there is one.
#[tactic(auto, using(crate::proofs::GivenLaws::earliest_append))]
fn first_missing(given: &Numbers, trees: &Trees) -> Option<Used>
    ensures { option_map used_of result ≡ earliest given.now None (all_used (program_of trees.now)) }
{
    let first = with_interfaces(None, given, &trees.interfaces, &trees.interface_texts);
    with_modules(first, given, &trees.modules, &trees.module_texts)
}

/// The name with its place.
fn missing_at(alloc: Global, names: &NameTable, used: Used) -> Result<Missing, AllocError>
    ensures place { IfOk result (λ m. m.place ≡ place used.text used.name.at) }
    ensures name { IfOk result (λ m. m.name ≡ name_at names.now used.name.name) }
{
    let name = spelled(alloc, names, used.name.name)?;
    let place = Place {
        text: used.text,
        at: used.name.at,
    };
    Ok(Missing { place, name })
}

/// The first name after `uses` or `implements` that is not that of an interface, where there is one.
pub fn demand_interfaces(alloc: Global, trees: &Trees) -> Result<Option<Missing>, AllocError>
    requires paired { IsPaired trees.now }
    ensures { IfOk result (λ missing. AreDemanded (program_of trees.now) missing) }
{
    let given = names_of(alloc, &trees.interfaces)?;
    match first_missing(&given, trees) {
        None => Ok(None),
        Some(used) => Ok(Some(missing_at(alloc, &trees.names, used)?)),
    }
}
