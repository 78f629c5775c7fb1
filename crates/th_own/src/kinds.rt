//! The items of a module and what the implemented interface has under their names. docs/LANGUAGE.md, "Rules of modules", states the rule.
ghost use Rattle.std.specs.Prelude.{◌≡◌, map};
ghost use Rattle.th_tree.specs.DeclView.{module_item_of};
ghost use Rattle.th_type.specs.Failures.{lowest};
ghost use Rattle.th_hier.specs.Spots.{item_name};
ghost use Rattle.th_hier.specs.Numbering.{item_sort};
ghost use Rattle.th_module_rules.specs.Own.{head_item, kind_fits, kinds_fail, same_kind};

use th_hier::{Entry, Index, Sort};
use th_tree::{Ident, ModuleItem};
use th_type::{Failure, Place, demand};

/// The name of an item of a module.
pub fn item_name(item: &ModuleItem) -> Ident
    ensures { result ≡ item_name (head_item (module_item_of item.now)) }
{
    match item {
        ModuleItem::Class(class) => class.head.name,
        ModuleItem::Routine(routine) => routine.head.name,
    }
}

/// Whether an item of a module is of the kind of this sort.
fn is_kind(sort: Sort, item: &ModuleItem) -> bool
    ensures { result ≡ same_kind sort (item_sort (head_item (module_item_of item.now))) }
{
    match item {
        ModuleItem::Class(_) => matches!(sort, Sort::Class(_)),
        ModuleItem::Routine(routine) => {
            if routine.head.iterator {
                matches!(sort, Sort::Iterator(_))
            } else {
                matches!(sort, Sort::Routine(_))
            }
        }
    }
}

/// Whether an item of a module is of the kind of the implemented interface's item of its name, where there is one.
fn is_fit(entry: Option<Entry>, item: &ModuleItem) -> bool
    ensures { result ≡ kind_fits entry (item_sort (head_item (module_item_of item.now))) }
{
    match entry {
        None => true,
        Some(entry) => is_kind(entry.sort, item),
    }
}

/// Judges that the items whose names the implemented interface has are of its kinds.
pub fn judge_kinds(
    items: &[ModuleItem],
    index: &Index,
    implements: Option<u32>,
    text: u32,
    least: &mut Option<Failure>,
)
    ensures { least.new ≡ lowest least.old (kinds_fail index.now implements text (map head_item (map module_item_of items.now))) }
{
    for item in items {
        let name = item_name(item);
        let fits = is_fit(index.get_in(implements, name.name), item);
        demand(least, fits, 2, Place { text, at: name.at });
    }
}
