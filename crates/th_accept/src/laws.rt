//! Laws of answers.
ghost use Rattle.th_accept.specs.Laws.{HasOneAnswerWith, HaveOneAnswer, NeverRefused, NeverRefusedWith};

/// A law: accepted texts are not refused, except for want of memory, and all their acceptances have the same checked modules.
pub fn answers_law()
    ensures refused { NeverRefused }
    ensures refused_with { NeverRefusedWith }
    ensures answer { HaveOneAnswer }
    ensures answer_with { HasOneAnswerWith }
{}
