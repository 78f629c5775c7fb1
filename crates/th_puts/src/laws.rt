//! A law of programs that put bytes.
ghost use Rattle.th_puts.specs.Runs.{RunsAsPuts};

/// A law: a program that puts bytes enters its `main`, puts them in order and ends, whatever the input and the turns,
/// where there is room for the open call; with less room it does nothing. No put takes a turn.
#[tactic(auto, using(crate::proofs::PutsRun::runs_as_puts))]
pub fn puts_law()
    ensures { RunsAsPuts }
{}
