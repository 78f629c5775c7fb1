//! The laws of the machine's trace.
ghost use Rattle.th_traces.specs.Laws.{IsBeginning, StopsWithOutcome};

/// A law: what the machine did so far is a beginning of what the program's run does.
#[tactic(auto, using(crate::proofs::Running::part_of_run))]
pub fn beginning_law()
    ensures { IsBeginning }
{}

/// A law: where the machine stopped, it stopped with the outcome of the program's run.
#[tactic(auto, using(crate::proofs::Running::stops_with))]
pub fn outcome_law()
    ensures { StopsWithOutcome }
{}
