//! The limits of a layout, and which type or class is refused.
ghost use Rattle.std.specs.Prelude.{◌≡◌, ◌≤◌, ◌+◌, ◌<◌, ℕ, length, map, max, IfOk, MatchResult};
ghost use Rattle.th_offsets.specs.Known.{Deep, Summed, Tallied};
ghost use Rattle.th_layout.specs.Refusals.{Accepted, RefusedBy};
ghost use Rattle.th_offsets.specs.Counts.{field_counts, least_above, lesser, paired, slot_counts, word_counts};
ghost use Rattle.th_layout.specs.declared.limits.LayoutError.TheVariants.{Memory};
ghost use Rattle.th_views.specs.Lookups.{class_numbers, type_numbers};

use std::alloc::{AllocError, Global};
use th_offsets::{Tally, least_over, lesser_of};
use th_views::{ClassRow, TypeRow};
use thiserror::Error;

/// Why types and classes have no layout. The number is the least of a type or class whose count is
/// above the limit; the errors are judged in this order.
#[derive(Debug, Drop, Error)]
pub enum LayoutError {
    /// More header words than the limit, as the sum over supertypes counts them.
    #[error("too many header words: {0}")]
    TooManyWords(u32),
    /// More than 250 slots of one table, one way.
    #[error("too many slots: {0}")]
    TooManySlots(u32),
    /// More than 400 fields and where-words.
    #[error("too many fields: {0}")]
    TooManyFields(u32),
    /// There is not enough memory.
    #[error("out of memory")]
    Memory,
}

impl From<AllocError> for LayoutError {
    ghost from_gives = { λ _ e. e ≡ Memory };

    fn from(_error: AllocError) -> LayoutError {
        LayoutError::Memory
    }
}

/// The numbers of types, in order.
pub fn type_names(alloc: Global, rows: &[TypeRow]) -> Result<Vec<u32>, AllocError>
    ensures { IfOk result (λ names. names.items ≡ type_numbers rows.now) }
{
    let mut names = Vec::new(alloc);
    for row in rows {
        names.push(row.name)?;
    }
    Ok(names)
}

/// The numbers of classes, in order.
pub fn class_names(alloc: Global, rows: &[ClassRow]) -> Result<Vec<u32>, AllocError>
    ensures { IfOk result (λ names. names.items ≡ class_numbers rows.now) }
{
    let mut names = Vec::new(alloc);
    for row in rows {
        names.push(row.name)?;
    }
    Ok(names)
}

fn class_sums(alloc: Global, tallies: &[Tally]) -> Result<Vec<u32>, AllocError>
    ensures { IfOk result (λ v. v.items ≡ map (λ t. t.sum) tallies.now) }
{
    tallies.iter().map(|t| t.sum).collect(alloc)
}

fn class_slots(alloc: Global, tallies: &[Tally]) -> Result<Vec<u32>, AllocError>
    ensures { IfOk result (λ v. v.items ≡ map (λ t. max t.down t.hidden) tallies.now) }
{
    tallies.iter().map(|t| t.down.max(t.hidden)).collect(alloc)
}

fn class_fields(alloc: Global, tallies: &[Tally]) -> Result<Vec<u32>, AllocError>
    ensures { IfOk result (λ v. v.items ≡ map (λ t. t.filled) tallies.now) }
{
    tallies.iter().map(|t| t.filled).collect(alloc)
}

/// The least number of a type or class whose count is above a limit.
fn least_of_both(
    types: &[u32],
    type_counts: &[u32],
    classes: &[u32],
    class_counts: &[u32],
    limit: u32,
) -> Option<u32>
    requires types { length type_counts.now ≡ length types.now }
    requires classes { length class_counts.now ≡ length classes.now }
    ensures { result ≡ lesser (least_above limit (paired types.now type_counts.now)) (least_above limit (paired classes.now class_counts.now)) }
{
    lesser_of(
        least_over(types, type_counts, limit),
        least_over(classes, class_counts, limit),
    )
}

/// The least number of a type or class with more header words than the limit.
fn words_over(
    alloc: Global,
    types: &[TypeRow],
    classes: &[ClassRow],
    sums: &[u32],
    tallies: &[Tally],
    limit: u32,
) -> Result<Option<u32>, AllocError>
    requires limit { limit ≤ 64 }
    requires sums { (length sums.now ≡ length types.now) × Summed types.now sums.now }
    requires tallies { (length tallies.now ≡ length classes.now) × Tallied (record { types = types.now; classes = classes.now }) tallies.now }
    ensures { IfOk result (λ n. n ≡ least_above limit (word_counts (record { types = types.now; classes = classes.now }))) }
{
    let type_names = type_names(alloc, types)?;
    let class_names = class_names(alloc, classes)?;
    let class_sums = class_sums(alloc, tallies)?;
    Ok(least_of_both(&type_names, sums, &class_names, &class_sums, limit))
}

/// The least number of a type or class with more than 250 slots of one table, one way.
fn slots_over(
    alloc: Global,
    types: &[TypeRow],
    classes: &[ClassRow],
    plain: &[u32],
    tallies: &[Tally],
) -> Result<Option<u32>, AllocError>
    requires plain { (length plain.now ≡ length types.now) × Deep types.now plain.now }
    requires tallies { (length tallies.now ≡ length classes.now) × Tallied (record { types = types.now; classes = classes.now }) tallies.now }
    ensures { IfOk result (λ n. n ≡ least_above 250 (slot_counts (record { types = types.now; classes = classes.now }))) }
{
    let type_names = type_names(alloc, types)?;
    let class_names = class_names(alloc, classes)?;
    let class_slots = class_slots(alloc, tallies)?;
    Ok(least_of_both(&type_names, plain, &class_names, &class_slots, 250))
}

/// The least number of a class with more than 400 fields and where-words.
fn fields_over(
    alloc: Global,
    types: &[TypeRow],
    classes: &[ClassRow],
    tallies: &[Tally],
) -> Result<Option<u32>, AllocError>
    requires tallies { (length tallies.now ≡ length classes.now) × Tallied (record { types = types.now; classes = classes.now }) tallies.now }
    ensures { IfOk result (λ n. n ≡ least_above 400 (field_counts (record { types = types.now; classes = classes.now }))) }
{
    let class_names = class_names(alloc, classes)?;
    let class_fields = class_fields(alloc, tallies)?;
    Ok(least_over(&class_names, &class_fields, 400))
}

/// Judges the limits in their order.
pub fn judge(
    alloc: Global,
    types: &[TypeRow],
    classes: &[ClassRow],
    sums: &[u32],
    plain: &[u32],
    tallies: &[Tally],
    limit: u32,
) -> Result<(), LayoutError>
    requires limit { limit ≤ 64 }
    requires sums { (length sums.now ≡ length types.now) × Summed types.now sums.now }
    requires plain { (length plain.now ≡ length types.now) × Deep types.now plain.now }
    requires tallies { (length tallies.now ≡ length classes.now) × Tallied (record { types = types.now; classes = classes.now }) tallies.now }
    ensures { MatchResult result (λ _. Accepted limit (record { types = types.now; classes = classes.now }))
        (λ e. RefusedBy limit (record { types = types.now; classes = classes.now }) e) }
{
    if let Some(number) = words_over(alloc, types, classes, sums, tallies, limit)? {
        return Err(LayoutError::TooManyWords(number));
    }
    if let Some(number) = slots_over(alloc, types, classes, plain, tallies)? {
        return Err(LayoutError::TooManySlots(number));
    }
    if let Some(number) = fields_over(alloc, types, classes, tallies)? {
        return Err(LayoutError::TooManyFields(number));
    }
    Ok(())
}
