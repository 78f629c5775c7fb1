//! The exceptions that are handled around a place or listed by the unit.
ghost use Rattle.std.specs.Prelude.{◌≡◌};
ghost use Rattle.th_type.specs.Lists.{is_in};
ghost use Rattle.th_scope.specs.View.{handled_of};

use crate::signals::Signals;
use th_hier::Numbers;

/// The exceptions, by the numbers of their full names, that are handled around a place or listed by the unit: those that the
/// unit lists, or those that a block handles and those around it.
#[derive(Clone, Copy)]
pub enum Handled<'a> {
    Listed(&'a Signals),
    Block(&'a Numbers, &'a Handled<'a>),
}

impl<'a> Handled<'a> {
    /// Whether the exception is handled or listed.
    #[tactic(auto, using(crate::proofs::Deciding::in_append))]
    pub fn has(&self, number: u32) -> bool
        ensures { result ≡ is_in number (handled_of self.now) }
    {
        let mut rest = self;
        loop {
            match rest {
                Handled::Listed(signals) => return signals.has(number),
                Handled::Block(numbers, others) => {
                    if numbers.has(number) {
                        return true;
                    }
                    rest = others;
                }
            }
        }
    }
}
