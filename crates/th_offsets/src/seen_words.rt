//! The types seen at each header word of a class's objects.
ghost use Rattle.std.specs.Prelude.{◌≡◌, ◌<◌, length, IfOk};
ghost use Rattle.th_offsets.specs.Known.{EachView, Formed, Viewed, Within, WordsViewed, number_at, numbers_at};
ghost use Rattle.th_views.specs.Lookups.{IsView};
ghost use Rattle.th_offsets.specs.Known.{Typed};
ghost use Rattle.th_views.specs.Rows.{Ordered};

use crate::objects::Object;
use crate::views::Spots;
use std::alloc::{AllocError, Global};
use th_type::NumberList;
use th_views::{ClassRow, Spot, TypeRow};

/// For each header word of a class's objects, from the anchor down, the numbers of the types seen there.
#[derive(Drop)]
pub struct WordTypes {
    pub at: Vec<NumberList>,
}

/// The number of the type at a place.
fn number_at(types: &[TypeRow], place: u32) -> u32
    requires { place < length types.now }
    ensures { result ≡ number_at types.now place }
{
    types[place as usize].name
}

/// The numbers of the types seen at a word, in the order in which they are seen.
fn numbers_at(
    alloc: Global,
    types: &[TypeRow],
    seen: &[Spot],
    word: u32,
) -> Result<Vec<u32>, AllocError>
    requires { Within (length types.now) seen.now }
    ensures { IfOk result (λ v. v.items ≡ numbers_at types.now seen.now word) }
{
    let mut numbers = Vec::new(alloc);
    for spot in seen {
        if spot.word == word {
            numbers.push(number_at(types, spot.name))?;
        }
    }
    Ok(numbers)
}

/// The types seen at a word, each once, by ascending numbers.
fn view_at(
    alloc: Global,
    types: &[TypeRow],
    seen: &[Spot],
    word: u32,
) -> Result<NumberList, AllocError>
    requires { Within (length types.now) seen.now }
    ensures { IfOk result (λ v. IsView types.now seen.now word v) }
{
    let mut numbers = numbers_at(alloc, types, seen, word)?;
    numbers.sort_unstable();
    numbers.dedup();
    Ok(NumberList::of(numbers))
}

fn views_of(
    alloc: Global,
    types: &[TypeRow],
    seen: &[Spot],
    words: u32,
) -> Result<Vec<NumberList>, AllocError>
    requires { Within (length types.now) seen.now }
    ensures { IfOk result (λ all. (length all.items ≡ words) × EachView types.now seen.now all.items) }
{
    let mut all = Vec::new(alloc);
    for word in 0..words {
        let view = view_at(alloc, types, seen, word)?;
        all.push(view)?;
    }
    Ok(all)
}

/// The types seen at each header word of all classes.
pub fn all_views(
    alloc: Global,
    types: &[TypeRow],
    classes: &[ClassRow],
    objects: &[Object],
    seen: &[Spots],
) -> Result<Vec<WordTypes>, AllocError>
    requires ordered { Ordered types.now }
    requires typed { Typed (record { types = types.now; classes = classes.now }) }
    requires objects { (length objects.now ≡ length classes.now) × Formed (record { types = types.now; classes = classes.now }) objects.now }
    requires seen { (length seen.now ≡ length classes.now) × Viewed (record { types = types.now; classes = classes.now }) seen.now }
    ensures { IfOk result (λ all. (length all.items ≡ length classes.now) × WordsViewed (record { types = types.now; classes = classes.now }) all.items) }
{
    let mut all = Vec::new(alloc);
    for number in 0..classes.len() {
        let at = views_of(alloc, types, &seen[number].list, objects[number].words)?;
        all.push(WordTypes { at })?;
    }
    Ok(all)
}
