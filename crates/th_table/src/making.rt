//! The tables of classes, from a layout.
ghost use Rattle.std.specs.List.Sorted.{IsPermutation, IsSorted};
ghost use Rattle.std.specs.Ordering.{nat_cmp};
ghost use Rattle.std.specs.Prelude.{◌≡◌, ◌≤◌, ◌<◌, ℕ, IfOk, IsSome, Some, length};
ghost use Rattle.th_views.specs.Shapes.{names_of, shapes_of};
ghost use Rattle.th_table.specs.Shown.{AllOfLayout, IsClassTables, IsTableAt, IsTables, TablesAt};
ghost use Rattle.th_views.specs.Chain.{words as words_in};
ghost use Rattle.th_views.specs.Lookups.{class_place};
ghost use Rattle.th_views.specs.Rows.{chain_of};

use crate::shown::{Table, TableClass, Tables};
use std::alloc::{AllocError, Global};
use th_layout::Layout;
use th_views::ClassShape;

/// The numbers of the classes, ascending.
fn ascending(alloc: Global, classes: &[ClassShape]) -> Result<Vec<u32>, AllocError>
    ensures sorted { IfOk result (λ v. IsSorted nat_cmp v.items) }
    ensures all { IfOk result (λ v. IsPermutation (names_of (shapes_of classes.now)) v.items) }
{
    let mut names = Vec::new(alloc);
    for class in classes {
        names.push(class.name)?;
    }
    names.sort_unstable();
    Ok(names)
}

/// The table at a header word of a class.
fn table_at(alloc: Global, layout: &Layout, class: u32, word: u32) -> Result<Table, AllocError>
    requires small { word < 64 }
    requires word { (c : ℕ) × (class_place layout.now class ≡ Some c) × (word < words_in (chain_of layout.now c)) }
    ensures { IfOk result (λ t. (c : ℕ) → class_place layout.now class ≡ Some c → IsTableAt layout.now c word t) }
{
    match layout.table(alloc, class, word)? {
        Some(slots) => Ok(Table {
            distance: 4 * word,
            slots,
        }),
        None => unreachable!(),
    }
}

/// The tables of a class, from the anchor down.
fn tables_of(
    alloc: Global,
    layout: &Layout,
    class: u32,
    words: u32,
) -> Result<Vec<Table>, AllocError>
    requires small { words ≤ 64 }
    requires words { (c : ℕ) × (class_place layout.now class ≡ Some c) × (words ≡ words_in (chain_of layout.now c)) }
    ensures { IfOk result (λ v. (length v.items ≡ words) × ((c : ℕ) → class_place layout.now class ≡ Some c → TablesAt layout.now c v.items)) }
{
    let mut tables = Vec::new(alloc);
    for word in 0..words {
        let table = table_at(alloc, layout, class, word)?;
        tables.push(table)?;
    }
    Ok(tables)
}

/// A class with its tables.
fn class_tables(alloc: Global, layout: &Layout, class: u32) -> Result<TableClass, AllocError>
    requires { IsSome (class_place layout.now class) }
    ensures class { IfOk result (λ t. t.class ≡ class) }
    ensures tables { IfOk result (λ t. (c : ℕ) → class_place layout.now class ≡ Some c → IsClassTables layout.now c t) }
{
    match layout.held(class) {
        Some(held) => {
            let tables = tables_of(alloc, layout, class, held.words)?;
            Ok(TableClass {
                class,
                words: held.words,
                fields: held.fields,
                wheres: held.wheres,
                size: 4 * (held.words + held.fields + held.wheres),
                tables,
            })
        }
        None => unreachable!(),
    }
}

/// The tables of the classes of a layout, by ascending numbers of the classes.
pub fn tables(alloc: Global, layout: &Layout, classes: &[ClassShape]) -> Result<Tables, AllocError>
    requires { AllOfLayout layout.now (names_of (shapes_of classes.now)) }
    ensures { IfOk result (λ t. IsTables layout.now (names_of (shapes_of classes.now)) t) }
{
    let names = ascending(alloc, classes)?;
    let mut list = Vec::new(alloc);
    for k in 0..names.len() {
        let class = class_tables(alloc, layout, names[k])?;
        list.push(class)?;
    }
    Ok(Tables { list })
}
