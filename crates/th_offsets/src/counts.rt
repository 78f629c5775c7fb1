//! What the limits count: header words by the sum over supertypes, slots of one table, fields and where-words.
ghost use Rattle.std.specs.Prelude.{◌≡◌, ◌<◌, ◌≤◌, ◌+◌, ℕ, length, slice_get, IfOk, min, cond, nat_lt};
ghost use Rattle.std.specs.Option.{ForSome};
ghost use Rattle.th_offsets.specs.Counts.{at_first, least_above, lesser, paired, tally_on, IsTally};
ghost use Rattle.th_offsets.specs.Known.{Summed, Deep, Reaching, Tallied, IsSmall, Typed};
ghost use Rattle.th_views.specs.Rows.{tree_of, chain_of, inherited, Ordered, Inherited};
ghost use Rattle.th_views.specs.Sums.{plain_depth, greatest};

use std::alloc::{AllocError, Global};
use th_views::{ClassRow, TypeRow};

/// The counts of a class with those that it inherits. Each stops one above the greatest limit.
#[derive(Clone, Copy)]
pub struct Tally {
    pub sum_start: u32,
    pub sum: u32,
    pub down: u32,
    pub hidden: u32,
    pub filled: u32,
}

/// A sum that stops at a limit.
fn up_to(limit: u32, total: u32, more: u32) -> u32
    requires { total ≤ limit }
    ensures { result ≡ min limit (total + more) }
{
    if more < limit - total {
        total + more
    } else {
        limit
    }
}

/// A length that stops at a limit.
fn length_up_to(limit: u32, len: usize) -> u32
    ensures { result ≡ min limit len }
{
    if len < limit as usize {
        len as u32
    } else {
        limit
    }
}

/// What is known of the first declared supertype; 0 where there is none.
pub fn first_known(supers: &[u32], done: &[u32]) -> u32
    requires { (s : ℕ) → slice_get supers.now 0 ≡ Some s → s < length done.now }
    ensures { result ≡ at_first supers.now done.now }
{
    match supers.first() {
        Some(first) => done[*first as usize],
        None => 0,
    }
}

fn plain_of(rows: &[TypeRow], number: usize, done: &[u32]) -> u32
    requires within { number < length rows.now }
    requires before { length done.now ≡ number }
    requires ordered { Ordered rows.now }
    requires done { Deep rows.now done.now }
    ensures { result ≡ min 251 (plain_depth (tree_of rows.now number)) }
{
    let row = &rows[number];
    let base = first_known(row.supers.as_slice(), done);
    up_to(251, base, length_up_to(251, row.own.len()))
}

/// The slots downward of each type at its own view.
pub fn all_plain(alloc: Global, rows: &[TypeRow]) -> Result<Vec<u32>, AllocError>
    requires ordered { Ordered rows.now }
    ensures { IfOk result (λ plain. (length plain.items ≡ length rows.now) × Deep rows.now plain.items) }
{
    let mut all = Vec::new(alloc);
    for number in 0..rows.len() {
        let depth = plain_of(rows, number, &all);
        all.push(depth)?;
    }
    Ok(all)
}

fn greatest_of(rows: &[TypeRow], number: usize, plain: &[u32], done: &[u32]) -> u32
    requires within { number < length rows.now }
    requires all { length plain.now ≡ length rows.now }
    requires before { length done.now ≡ number }
    requires ordered { Ordered rows.now }
    requires plain { Deep rows.now plain.now }
    requires done { Reaching rows.now done.now }
    ensures { result ≡ min 251 (greatest (tree_of rows.now number)) }
{
    let mut most = plain[number];
    let supers = rows[number].supers.as_slice();
    for s in supers {
        most = most.max(done[*s as usize]);
    }
    most
}

/// The most slots downward of each type and those above it.
pub fn all_greatest(alloc: Global, rows: &[TypeRow], plain: &[u32]) -> Result<Vec<u32>, AllocError>
    requires all { length plain.now ≡ length rows.now }
    requires ordered { Ordered rows.now }
    requires plain { Deep rows.now plain.now }
    ensures { IfOk result (λ most. (length most.items ≡ length rows.now) × Reaching rows.now most.items) }
{
    let mut all = Vec::new(alloc);
    for number in 0..rows.len() {
        let most = greatest_of(rows, number, plain, &all);
        all.push(most)?;
    }
    Ok(all)
}

fn tally_of(class: &ClassRow, up: Tally, sum: u32, greatest: u32) -> Tally
    requires small { IsSmall up }
    requires sum { sum ≤ 65 }
    ensures { result ≡ tally_on class.now up sum greatest }
{
    let sum_start = if class.extends { up.sum_start } else { up.sum };
    let hidden = length_up_to(251, class.hidden.len());
    Tally {
        sum_start,
        sum: up_to(65, sum_start, sum),
        down: greatest.max(up.down),
        hidden: up_to(251, up.hidden, hidden),
        filled: up_to(401, up_to(401, up.filled, class.wheres), class.fields),
    }
}

/// The counts of the class that is inherited, if there is one.
fn inherited_tally(
    types: &[TypeRow],
    classes: &[ClassRow],
    inherits: Option<u32>,
    done: &[Tally],
) -> Tally
    requires done { Tallied (record { types = types.now; classes = classes.now }) done.now }
    requires before { ForSome inherits (λ d. d < length done.now) }
    ensures { IsTally result (inherited (chain_of (record { types = types.now; classes = classes.now })) inherits) }
{
    match inherits {
        Some(d) => done[d as usize],
        None => Tally {
            sum_start: 0,
            sum: 0,
            down: 0,
            hidden: 0,
            filled: 0,
        },
    }
}

fn tally_at(
    types: &[TypeRow],
    classes: &[ClassRow],
    number: usize,
    sums: &[u32],
    most: &[u32],
    done: &[Tally],
) -> Tally
    requires within { number < length classes.now }
    requires before { length done.now ≡ number }
    requires inherited { Inherited classes.now }
    requires typed { Typed (record { types = types.now; classes = classes.now }) }
    requires sums { (length sums.now ≡ length types.now) × Summed types.now sums.now }
    requires most { (length most.now ≡ length types.now) × Reaching types.now most.now }
    requires done { Tallied (record { types = types.now; classes = classes.now }) done.now }
    ensures { IsTally result (chain_of (record { types = types.now; classes = classes.now }) number) }
{
    let class = &classes[number];
    let up = inherited_tally(types, classes, class.inherits, done);
    tally_of(class, up, sums[class.of as usize], most[class.of as usize])
}

/// The counts of all classes, from the first on.
pub fn all_tallies(
    alloc: Global,
    types: &[TypeRow],
    classes: &[ClassRow],
    sums: &[u32],
    most: &[u32],
) -> Result<Vec<Tally>, AllocError>
    requires inherited { Inherited classes.now }
    requires typed { Typed (record { types = types.now; classes = classes.now }) }
    requires sums { (length sums.now ≡ length types.now) × Summed types.now sums.now }
    requires most { (length most.now ≡ length types.now) × Reaching types.now most.now }
    ensures { IfOk result (λ all. (length all.items ≡ length classes.now) × Tallied (record { types = types.now; classes = classes.now }) all.items) }
{
    let mut all = Vec::new(alloc);
    for number in 0..classes.len() {
        let tally = tally_at(types, classes, number, sums, most, &all);
        all.push(tally)?;
    }
    Ok(all)
}

/// The lesser of two numbers, where there are two.
pub fn lesser_of(a: Option<u32>, b: Option<u32>) -> Option<u32>
    ensures { result ≡ lesser a b }
{
    match (a, b) {
        (Some(a), Some(b)) => Some(a.min(b)),
        (None, b) => b,
        (a, None) => a,
    }
}

fn where_over(name: u32, count: u32, limit: u32) -> Option<u32>
    ensures { result ≡ cond (nat_lt limit count) (Some name) None }
{
    if count > limit { Some(name) } else { None }
}

/// The least number whose count is above the limit.
pub fn least_over(names: &[u32], counts: &[u32], limit: u32) -> Option<u32>
    requires { length counts.now ≡ length names.now }
    ensures { result ≡ least_above limit (paired names.now counts.now) }
{
    let mut least = None;
    for k in 0..names.len() {
        least = lesser_of(least, where_over(names[k], counts[k], limit));
    }
    least
}
