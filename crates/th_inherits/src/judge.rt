//! The rule on what classes are for and what they inherit. docs/LANGUAGE.md, "Rules of modules", states it.
ghost use Rattle.std.specs.Prelude.{◌≡◌, List, not, option_map, IfOk, None};
ghost use Rattle.std.specs.Bool.{MatchBool};
ghost use Rattle.th_type.specs.Declarations.{meant_of};
ghost use Rattle.th_type.specs.Failures.{lowest, IsLeastOf};
ghost use Rattle.th_module_rules.specs.Inheriting.{meant_number, is_exported, exported_fails, row_fails, InheritingFails};
ghost use Rattle.th_inherits.specs.Rows.{inherited_of, row_of, rows_of};
ghost use Rattle.th_inherits.specs.Tables.{ArePlaces, Settled, lists_of};
ghost use Rattle.th_inherits.specs.Loops.{AreFree, AreLooped};
ghost use Rattle.th_inherits.specs.Judging.{high_fails, Judged};

use crate::loops::{among, known_of, reaches_itself};
use crate::order::order_of;
use crate::places::places_of;
use crate::row::{Inherited, Row};
use crate::table::{reaches_high, settle};
use indexmap::IndexMap;
use std::alloc::{AllocError, Global};
use th_hier::Numbers;
use th_type::{Failure, Meaning, demand};

/// The number of the rule on what classes are for and what they inherit.
const INHERITING: u32 = 10;

/// Whether the class that is meant is an interface's, where it resolves; `fulls` are the numbers of the items of interfaces.
fn is_exported(fulls: &Numbers, meaning: &Meaning) -> bool
    ensures { result ≡ is_exported fulls.now (meant_number (meant_of meaning.now)) }
{
    match meaning {
        Meaning::Unresolved => true,
        Meaning::Param => true,
        Meaning::Head(full) => fulls.has(*full),
        Meaning::Whole(full, _) => fulls.has(*full),
    }
}

/// Judges what an exported class inherits.
fn judge_exported(
    least: &mut Option<Failure>,
    fulls: &Numbers,
    exported: bool,
    inherits: &Option<Inherited>,
)
    ensures { least.new ≡ lowest least.old (exported_fails fulls.now exported (option_map inherited_of inherits.now)) }
{
    if !exported {
        return;
    }
    match inherits {
        None => {}
        Some(inherited) => demand(
            least,
            is_exported(fulls, &inherited.meaning),
            INHERITING,
            inherited.place,
        ),
    }
}

/// Judges a class alone and by numbers.
#[tactic(auto, using(th_type::proofs::Least::lowest_append))]
fn judge_row(
    least: &mut Option<Failure>,
    fulls: &Numbers,
    places: &IndexMap<u32, usize>,
    rows: &[Row],
    free: &Numbers,
    looped: &Numbers,
    row: &Row,
)
    requires places { ArePlaces (rows_of rows.now) places.now.entries }
    requires free { AreFree (rows_of rows.now) free.now }
    requires looped { AreLooped (rows_of rows.now) looped.now }
    ensures { least.new ≡ lowest least.old (row_fails fulls.now (rows_of rows.now) (row_of row.now)) }
{
    demand(least, !row.for_param, INHERITING, row.of_place);
    let returns = reaches_itself(places, rows, free, looped, row.full);
    demand(least, !returns, INHERITING, row.place);
    let exported = fulls.has(row.full);
    judge_exported(least, fulls, exported, &row.inherits);
}

/// Judges the height of what a class reaches.
fn judge_height(least: &mut Option<Failure>, high: bool, inherits: &Option<Inherited>)
    ensures { least.new ≡ lowest least.old (high_fails high (option_map inherited_of inherits.now)) }
{
    match inherits {
        None => {}
        Some(inherited) => demand(least, !high, INHERITING, inherited.place),
    }
}

/// Judges a class of a module, of which the heights that each class reaches are known.
fn judge_class(
    least: &mut Option<Failure>,
    fulls: &Numbers,
    places: &IndexMap<u32, usize>,
    rows: &[Row],
    free: &Numbers,
    looped: &Numbers,
    table: &[Vec<u32>],
    row: &Row,
)
    requires places { ArePlaces (rows_of rows.now) places.now.entries }
    requires free { AreFree (rows_of rows.now) free.now }
    requires looped { AreLooped (rows_of rows.now) looped.now }
    requires settled { Settled (rows_of rows.now) (lists_of table.now) }
    ensures { Judged fulls.now (rows_of rows.now) (row_of row.now) least.old least.new }
{
    judge_row(least, fulls, places, rows, free, looped, row);
    let high = reaches_high(places, table, row.full);
    judge_height(least, high, &row.inherits);
}

/// The least failure of the rule in the classes `own`, where `rows` are all classes that there are; `fulls` are the numbers of the
/// items of interfaces.
pub fn judge_inheriting(
    alloc: Global,
    fulls: &Numbers,
    rows: &[Row],
    own: &[Row],
) -> Result<Option<Failure>, AllocError>
    ensures { IfOk result (λ least. IsLeastOf (InheritingFails fulls.now (rows_of rows.now) (rows_of own.now)) least) }
{
    let places = places_of(alloc, rows)?;
    let order = order_of(alloc, &places, rows)?;
    let (free, looped) = known_of(alloc, &places, rows, &order)?;
    let loops = among(alloc, &order, &looped)?;
    let table = settle(alloc, &places, rows, &order, &loops)?;
    let mut least = None;
    for row in own {
        judge_class(
            &mut least, fulls, &places, rows, &free, &looped, &table, row,
        );
    }
    Ok(least)
}
