//! What the rows do at which activations are entered and end.
#![tactic(auto)]

ghost use Rattle.th_entries.specs.Laws.{BackLaw, CallLaw, EntryLaw, LeaveLaw, ReturnLaw};

/// The entry row of a routine, a method or an initializer leads to the unit's first operation, or the machine stops for room, which then is
/// used up (`EntryLaw`); the rows of returns lead to the end of the activation (`ReturnLaw`, `LeaveLaw`), and that of a call up to its linking
/// jump to the called unit before its entry (`CallLaw`), and behind it from the called unit's end to the caller (`BackLaw`). They hold of every program in which the rows stand at their places.
pub fn activation_laws()
    ensures entries { EntryLaw }
    ensures returns { ReturnLaw }
    ensures leaves { LeaveLaw }
    ensures calls { CallLaw }
    ensures backs { BackLaw }
{}
