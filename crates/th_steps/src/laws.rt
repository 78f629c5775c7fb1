//! The law of the machine.
ghost use Rattle.th_steps.specs.Laws.{MachineStops};

/// A law: the machine that does a program step by step stops, with the outcome of the program's run.
#[tactic(auto, using(crate::proofs::Stops::machine_stops))]
pub fn steps_law()
    ensures { MachineStops }
{}
