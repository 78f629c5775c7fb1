//! Laws of what is kept.
ghost use Rattle.th_limits.specs.Laws.{FirstIsKept, NoneIsKept};

/// A law: what is kept of counts is the first that is too large, and nothing is kept exactly where the limits are kept.
pub fn limits_law()
    ensures first { FirstIsKept }
    ensures none { NoneIsKept }
{}
