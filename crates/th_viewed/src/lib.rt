//! Evaluation on words, and the law of the Flat code that units become. It holds of whatever checked units.
#![tactic(auto)]

ghost use Rattle.th_viewed.specs.Laws.{RunsAreThoseOnWords, ModulesAreLoweredFrom};

/// A law: the Flat run of lowered units comes to the end of the run on words, with its trace, where that run isn't stuck.
pub fn words_law()
    ensures { RunsAreThoseOnWords }
{}

/// A law: the units of lowered modules, and their stubs, are lowered units, so that the law above is one of lowered modules.
pub fn modules_law()
    ensures { ModulesAreLoweredFrom }
{}
