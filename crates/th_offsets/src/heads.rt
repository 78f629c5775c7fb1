//! The header words of types: how many there are, and the sums that limits count.
ghost use Rattle.std.specs.Prelude.{◌≡◌, ◌<◌, ◌≤◌, ◌+◌, ◌^◌, ℕ, length, IfOk, false, min};
ghost use Rattle.th_offsets.specs.Known.{Done, IsFacts, Few, Summed};
ghost use Rattle.th_offsets.specs.Walks.{walk_on, walk_all, facts_from};
ghost use Rattle.th_views.specs.Rows.{tree_of, above_of, Ordered};
ghost use Rattle.th_views.specs.Sums.{sum};
ghost use Rattle.th_views.specs.Tree.{merged_at, tops};
ghost use Rattle.th_views.specs.Tree.{next as next_turn};
ghost use Rattle.th_views.specs.declared.Turn.TheVariants.{First};

use std::alloc::{AllocError, Global};
use th_views::{Turn, TypeRow};

/// What is known of a type's headers.
#[derive(Drop)]
pub struct Facts {
    /// Its header words.
    pub span: u32,
    /// Whether an upward type is seen at its own view.
    pub topped: bool,
    /// Whether its own methods take slots upward.
    pub upward: bool,
}

/// What was gathered of a type's declared supertypes so far.
#[derive(Clone, Copy)]
pub struct Walk {
    pub turn: Turn,
    pub span: u32,
    pub topped: bool,
}

/// The turn after one whose supertype is topped or not.
fn next(turn: Turn, topped: bool) -> Turn
    ensures { result ≡ next_turn turn topped }
{
    match turn {
        Turn::First => Turn::Second(topped),
        Turn::Second(_) => Turn::Later,
        Turn::Later => Turn::Later,
    }
}

/// Whether a supertype there, upward or not, shares the first one's word.
pub fn merges(turn: Turn, upward: bool) -> bool
    ensures { result ≡ merged_at turn upward }
{
    match turn {
        Turn::First => false,
        Turn::Second(topped) => !topped && upward,
        Turn::Later => false,
    }
}

/// Whether a supertype there makes the type topped.
fn tops_there(turn: Turn, topped: bool, upward: bool) -> bool
    ensures { result ≡ tops turn topped upward }
{
    match turn {
        Turn::First => topped,
        Turn::Second(_) => upward,
        Turn::Later => false,
    }
}

/// The walk after one more supertype.
pub fn step(walk: Walk, facts: &Facts) -> Walk
    requires { walk.span + facts.now.span < 2 ^ 32 }
    ensures { result ≡ walk_on walk facts.now.topped facts.now.upward facts.now.span }
{
    let merged = merges(walk.turn, facts.upward);
    let topped = walk.topped || tops_there(walk.turn, facts.topped, facts.upward);
    let span = if merged {
        walk.span
    } else {
        walk.span + facts.span
    };
    Walk {
        turn: next(walk.turn, facts.topped),
        span,
        topped,
    }
}

fn gather(rows: &[TypeRow], number: usize, done: &[Facts]) -> Walk
    requires within { number < length rows.now }
    requires before { length done.now ≡ number }
    requires ordered { Ordered rows.now }
    requires done { Done rows.now done.now }
    requires few { Few rows.now }
    ensures { result ≡ walk_all (record { turn = First; span = 0; topped = false }) (above_of rows.now number) }
{
    let supers = rows[number].supers.as_slice();
    let mut walk = Walk {
        turn: Turn::First,
        span: 0,
        topped: false,
    };
    for s in supers {
        walk = step(walk, &done[*s as usize]);
    }
    walk
}

fn make_facts(marked: bool, bare: bool, walk: Walk) -> Facts
    ensures { result ≡ facts_from marked bare walk }
{
    let upward = marked && bare;
    Facts {
        span: if bare { 1 } else { walk.span },
        topped: upward || walk.topped,
        upward,
    }
}

fn facts_of(rows: &[TypeRow], number: usize, done: &[Facts]) -> Facts
    requires within { number < length rows.now }
    requires before { length done.now ≡ number }
    requires ordered { Ordered rows.now }
    requires done { Done rows.now done.now }
    requires few { Few rows.now }
    ensures { IsFacts result (tree_of rows.now number) }
{
    let walk = gather(rows, number, done);
    let row = &rows[number];
    make_facts(row.marked, row.supers.as_slice().is_empty(), walk)
}

/// The facts of all types, from the first on.
pub fn all_facts(alloc: Global, rows: &[TypeRow]) -> Result<Vec<Facts>, AllocError>
    requires ordered { Ordered rows.now }
    requires few { Few rows.now }
    ensures { IfOk result (λ facts. (length facts.items ≡ length rows.now) × Done rows.now facts.items) }
{
    let mut all = Vec::new(alloc);
    for number in 0..rows.len() {
        let facts = facts_of(rows, number, &all);
        all.push(facts)?;
    }
    Ok(all)
}

/// A sum that stops one above the greatest limit on header words.
pub fn capped(total: u32, more: u32) -> u32
    requires total { total ≤ 65 }
    requires more { more ≤ 65 }
    ensures { result ≡ min 65 (total + more) }
{
    if total + more < 65 { total + more } else { 65 }
}

fn sum_of(rows: &[TypeRow], number: usize, done: &[u32]) -> u32
    requires within { number < length rows.now }
    requires before { length done.now ≡ number }
    requires ordered { Ordered rows.now }
    requires done { Summed rows.now done.now }
    ensures { result ≡ min 65 (sum (tree_of rows.now number)) }
{
    let supers = rows[number].supers.as_slice();
    let mut total: u32 = 0;
    for s in supers {
        total = capped(total, done[*s as usize]);
    }
    if supers.is_empty() { 1 } else { total }
}

/// The sums of all types, each no more than one above the greatest limit.
pub fn all_sums(alloc: Global, rows: &[TypeRow]) -> Result<Vec<u32>, AllocError>
    requires ordered { Ordered rows.now }
    ensures { IfOk result (λ sums. (length sums.items ≡ length rows.now) × Summed rows.now sums.items) }
{
    let mut all = Vec::new(alloc);
    for number in 0..rows.len() {
        let sum = sum_of(rows, number, &all);
        all.push(sum)?;
    }
    Ok(all)
}
