//! Laws of what programs do.
ghost use Rattle.th_meaning.specs.Laws.{NeverDeep, MoreTurnsExtend, MoreTurnsKeep};

/// A law: the bounds of the definition of what programs do, on open calls and on the turns of loops, never run out. So
/// a run is as docs/LANGUAGE.md says it, and nothing else.
#[tactic(auto, using(crate::proofs::LawProofs::never_deep))]
pub fn boundless_law()
    ensures { NeverDeep }
{}

/// A law: with more turns a run does all that it did with fewer, and perhaps more; one that didn't use up its turns
/// stands as before.
#[tactic(auto, using(crate::proofs::LawProofs::more_turns_extend, crate::proofs::LawProofs::more_turns_keep))]
pub fn more_turns_law()
    ensures extend { MoreTurnsExtend }
    ensures keep { MoreTurnsKeep }
{}
