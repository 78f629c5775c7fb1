//! The methods that a type argument has.
ghost use Rattle.std.specs.Prelude.{◌≡◌, length, option_copied, slice_get};

use th_type::{Sig, Supply};

/// A method that a type argument has, and what stands for it.
#[derive(Drop)]
pub struct Candidate {
    pub sig: Sig,
    pub supply: Supply,
}

/// The methods that a type argument has.
#[derive(Drop)]
pub struct CandidateList {
    pub candidates: Vec<Candidate>,
}

impl CandidateList {
    /// The list of these items. It takes no memory.
    pub fn of(items: Vec<Candidate>) -> Self
        ensures { result.candidates.items ≡ items.items }
    {
        CandidateList { candidates: items }
    }

    /// How many items the list has.
    pub fn len(&self) -> usize
        ensures { result ≡ length self.now.candidates.items }
    {
        self.candidates.len()
    }

    /// The item at place `k`, from 0; None exactly where `k` is not below the length.
    pub fn get(&self, k: usize) -> Option<&Candidate>
        ensures { option_copied result ≡ slice_get self.now.candidates.items k }
    {
        self.candidates.get(k)
    }
}
