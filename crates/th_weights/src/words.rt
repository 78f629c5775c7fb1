//! The header words of types.
ghost use Rattle.std.specs.Prelude.{◌≡◌, ◌+◌, ℕ, List, map, sum, IfOk, OnOk};
ghost use Rattle.th_meaning.specs.View.{type_of};
ghost use Rattle.th_meaning.specs.Program.{Program};
ghost use Rattle.th_meaning.specs.Weights.{words_within, type_words};
ghost use Rattle.th_weights.specs.Types.{IsTypeTable};
ghost use Rattle.th_weights.specs.Open.{words_of};

use crate::table::TypeTable;
use std::alloc::{AllocError, Global};
use th_meaning::CoreType;
use th_subst::copy_of;

/// A type whose header words are still to be counted, over at most so many steps up.
#[derive(Drop)]
pub(crate) struct Open {
    steps: u64,
    of: CoreType,
}

impl<'a> TypeTable<'a> {
    /// The header words of a type. No type has 2^64 of them.
    #[tactic(auto, using(crate::proofs::Supertypes::words_begin, crate::proofs::Supertypes::words_turn, crate::proofs::Supertypes::words_end))]
    pub(crate) fn words(&self, alloc: Global, this: &CoreType) -> Result<u64, AllocError>
        ensures { IfOk result (λ words. (p : Program) → IsTypeTable self.now p → words ≡ type_words p (type_of this.now)) }
    {
        let mut left = Vec::new(alloc);
        let of = copy_of(this, alloc)?;
        let steps = self.count;
        left.push(Open { steps, of })?;
        let mut words: u64 = 0;
        for turn in 0..u64::MAX {
            match left.pop() {
                None => return Ok(words),
                Some(next) => words = self.count_type(alloc, &mut left, words, next)?,
            }
        }
        Err(AllocError)
    }

    /// Counts a type without supertypes, or opens its supertypes.
    #[tactic(auto, using(crate::proofs::Supertypes::count_zero, crate::proofs::Supertypes::count_leaf, crate::proofs::Supertypes::count_node))]
    fn count_type(
        &self,
        alloc: Global,
        left: &mut Vec<Open>,
        words: u64,
        next: Open,
    ) -> Result<u64, AllocError>
        ensures { IfOk result (λ more. (p : Program) → IsTypeTable self.now p → more + words_of p left.new.items ≡ words + (words_of p left.old.items + words_within next.steps p (type_of next.of))) }
    {
        if next.steps == 0 {
            let more = one_more(words)?;
            return Ok(more);
        }
        let above = self.supertypes(alloc, &next.of)?;
        if above.len() == 0 {
            let more = one_more(words)?;
            return Ok(more);
        }
        open_all(alloc, left, next.steps - 1, &above)?;
        Ok(words)
    }
}

/// One more than this.
fn one_more(words: u64) -> Result<u64, AllocError>
    ensures { IfOk result (λ more. more ≡ words + 1) }
{
    match words.checked_add(1) {
        None => Err(AllocError),
        Some(more) => Ok(more),
    }
}

/// Opens types.
fn open_all(
    alloc: Global,
    left: &mut Vec<Open>,
    steps: u64,
    types: &[CoreType],
) -> Result<(), AllocError>
    ensures { OnOk result ((p : Program) → words_of p left.new.items ≡ words_of p left.old.items + sum (map (words_within steps p) (map type_of types.now))) }
{
    for one in types {
        let of = copy_of(one, alloc)?;
        left.push(Open { steps, of })?;
    }
    Ok(())
}
