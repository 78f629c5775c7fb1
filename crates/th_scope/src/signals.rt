//! The exceptions that a unit lists.
ghost use Rattle.std.specs.Prelude.{◌≡◌, IfOk, []};
ghost use Rattle.th_type.specs.Lists.{is_in};

use std::alloc::{AllocError, Global};
use std::marker::Model;
use th_hier::Numbers;

/// The exceptions that a unit lists, by the numbers of their full names, with a set of them in which one is found. A contract
/// sees the list, as it is written.
#[derive(Drop)]
pub struct Signals {
    listed: Vec<u32>,
    set: Numbers,
}

impl Model for Signals {
    ghost use Rattle.std.specs.Prelude.{ℕ, List, ◌≡◌};
    ghost use Rattle.th_hier.specs.Naming.{different};

    ghost Value = { List ℕ };

    ghost view = { λ a. a.listed.items };

    ghost invariant = { λ a. a.set ≡ different a.listed.items };
}

impl Signals {
    /// No exception.
    pub fn new(alloc: Global) -> Self
        ensures { result ≡ [] }
    {
        Signals {
            listed: Vec::new(alloc),
            set: Numbers::new(alloc),
        }
    }

    /// These exceptions.
    pub fn of(alloc: Global, listed: &[u32]) -> Result<Self, AllocError>
        ensures { IfOk result (λ r. r ≡ listed.now) }
    {
        let mut copied = Vec::new(alloc);
        copied.extend_from_slice(listed)?;
        let set = Numbers::of(alloc, listed)?;
        Ok(Signals {
            listed: copied,
            set,
        })
    }

    /// Whether the exception is one of them.
    #[tactic(auto, using(crate::proofs::Different::has_different))]
    pub fn has(&self, number: u32) -> bool
        ensures { result ≡ is_in number self.now }
    {
        self.set.has(number)
    }
}
