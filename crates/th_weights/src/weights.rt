//! The weights of the objects of all classes.
ghost use Rattle.std.specs.Prelude.{◌≡◌, ◌+◌, ℕ, List, length, sum_by, Option, Some, slice_get, IfOk};
ghost use Rattle.th_meaning.specs.View.{program_of};
ghost use Rattle.th_meaning.specs.Program.{Program, classes_of};
ghost use Rattle.th_meaning.specs.Weights.{object_weight};
ghost use Rattle.th_classes.specs.Numbers.{class_number, chain_from};
ghost use Rattle.th_classes.specs.Rows.{IsClassTable};
ghost use Rattle.th_weights.specs.Sizes.{SizesAre, SizeAt, AreWeights, weight_from, words_on};

use crate::size::{Size, sizes_of};
use crate::table::TypeTable;
use std::alloc::{AllocError, Global};
use std::marker::Model;
use th_classes::ClassTable;
use th_meaning::CoreModule;

/// The room of an object of each class, by the classes' numbers. A contract sees the list.
#[derive(Drop)]
pub struct Weights {
    weights: Vec<u64>,
}

impl Model for Weights {
    ghost use Rattle.std.specs.Prelude.{ℕ, List};

    ghost Value = { List ℕ };

    ghost view = { λ w. w.weights.items };
}

impl Weights {
    /// The weights of the classes of modules.
    pub fn of<'a>(
        alloc: Global,
        modules: &'a [CoreModule],
        classes: &ClassTable<'a>,
    ) -> Result<Weights, AllocError>
        ensures { IfOk result (λ weights. IsClassTable classes.now (program_of modules.now) → AreWeights (program_of modules.now) weights) }
    {
        let types = TypeTable::of(alloc, modules)?;
        let sizes = sizes_of(alloc, &types, classes)?;
        let weights = weights_of(alloc, &sizes, classes)?;
        Ok(Weights { weights })
    }

    /// The room of an object of a class, by its number where there is one.
    #[tactic(auto, using(crate::proofs::Weighing::no_weight, crate::proofs::Weighing::weight_there, crate::proofs::Weighing::weight_gone))]
    pub fn get(&self, class: Option<u32>) -> u64
        ensures { (p : Program) (name : List ℕ) → AreWeights p self.now → class_number p name ≡ class → result ≡ object_weight p name }
    {
        match class {
            None => 0,
            Some(number) => match weight_at(&self.weights, number as usize) {
                None => 0,
                Some(weight) => weight,
            },
        }
    }
}

/// The weight at a place, where there is one.
fn weight_at(weights: &[u64], place: usize) -> Option<u64>
    ensures { result ≡ slice_get weights.now place }
{
    weights.get(place).copied()
}

/// The weights of all classes.
fn weights_of<'a>(
    alloc: Global,
    sizes: &[Size],
    classes: &ClassTable<'a>,
) -> Result<Vec<u64>, AllocError>
    ensures { IfOk result (λ weights. (p : Program) → IsClassTable classes.now p → SizesAre p sizes.now (classes_of p) → AreWeights p weights.items) }
{
    let count = classes.count();
    if count >= 1 << 32 {
        return Err(AllocError);
    }
    let mut weights = Vec::new(alloc);
    for number in 0..count {
        let weight = weight_of(alloc, sizes, classes, number as u32)?;
        weights.push(weight)?;
    }
    Ok(weights)
}

/// The weight of an object of a class.
#[tactic(auto, using(crate::proofs::Weighing::weight_is))]
fn weight_of<'a>(
    alloc: Global,
    sizes: &[Size],
    classes: &ClassTable<'a>,
    class: u32,
) -> Result<u64, AllocError>
    ensures { IfOk result (λ weight. (p : Program) → IsClassTable classes.now p → SizesAre p sizes.now (classes_of p) → weight ≡ weight_from p class) }
{
    let chain = chain_of(alloc, sizes, classes, class)?;
    let (words, own) = sums_of(chain)?;
    if words >= 1 << 60 || own >= 1 << 60 {
        return Err(AllocError);
    }
    Ok(4 * (words + own))
}

/// The sizes of the classes from a class up.
#[tactic(auto, using(crate::proofs::Weighing::chain_step))]
fn chain_of<'a>(
    alloc: Global,
    sizes: &[Size],
    classes: &ClassTable<'a>,
    class: u32,
) -> Result<Vec<Size>, AllocError>
    ensures { IfOk result (λ chain. (p : Program) → IsClassTable classes.now p → SizesAre p sizes.now (classes_of p) → SizesAre p chain.items (chain_from (length (classes_of p)) p (Some class))) }
{
    let mut chain = Vec::new(alloc);
    let mut at = class;
    for step in 0..classes.count() {
        match size_at(sizes, classes, at) {
            None => return Ok(chain),
            Some((size, above)) => {
                chain.push(size)?;
                match above {
                    None => return Ok(chain),
                    Some(above) => at = above,
                }
            }
        }
    }
    Ok(chain)
}

/// The size of the class of a number, with the number of the class that it inherits; None where there is no such class.
#[tactic(auto, using(crate::proofs::Weighing::at_none, crate::proofs::Weighing::at_some, crate::proofs::Weighing::no_row))]
fn size_at<'a>(sizes: &[Size], classes: &ClassTable<'a>, number: u32) -> Option<(Size, Option<u32>)>
    ensures { (p : Program) → IsClassTable classes.now p → SizesAre p sizes.now (classes_of p) → SizeAt p number result }
{
    match at_place(sizes, number as usize) {
        None => None,
        Some(size) => match classes.get(number) {
            None => None,
            Some(row) => Some((size, row.above)),
        },
    }
}

/// The size at a place, where there is one.
fn at_place(sizes: &[Size], place: usize) -> Option<Size>
    ensures { result ≡ slice_get sizes.now place }
{
    match sizes.get(place) {
        None => None,
        Some(size) => Some(*size),
    }
}

/// The header words, and the fields and where-words, over the sizes of the classes from a class up.
fn sums_of(chain: Vec<Size>) -> Result<(u64, u64), AllocError>
    ensures { IfOk result (λ sums. (sums.0 ≡ words_on 0 chain.items) × (sums.1 ≡ sum_by (λ s. s.own) chain.items)) }
{
    let mut left = chain;
    let mut words: u64 = 0;
    let mut own: u64 = 0;
    while let Some(size) = left.pop() {
        words = add(words.saturating_sub(size.less), size.words)?;
        own = add(own, size.own)?;
    }
    Ok((words, own))
}

/// A sum that fits.
fn add(a: u64, b: u64) -> Result<u64, AllocError>
    ensures { IfOk result (λ sum. sum ≡ a + b) }
{
    match a.checked_add(b) {
        None => Err(AllocError),
        Some(sum) => Ok(sum),
    }
}
