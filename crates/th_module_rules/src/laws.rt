//! Laws of refusals.
ghost use Rattle.th_module_rules.specs.Laws.{NoneIsNamed, OneIsNamed};

/// A law: at most one failure is named of the texts of a program, and none where every rule holds.
pub fn refusals_law()
    ensures one { OneIsNamed }
    ensures none { NoneIsNamed }
{}
