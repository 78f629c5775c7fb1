//! Laws of the rules of statements.
ghost use Rattle.th_stmt_rules.specs.Laws.{BodyWhereNothingFails, UnitWhereNothingFails};

/// A law: the failures in statements, and what their checked trees are, agree: there are trees exactly where nothing fails
/// but for exceptions that nothing handles; of the body of a unit there is one exactly where nothing fails.
#[tactic(auto, using(crate::proofs::NoFailure::body_law, crate::proofs::NoFailure::unit_law))]
pub fn failures_law()
    ensures bodies { BodyWhereNothingFails }
    ensures units { UnitWhereNothingFails }
{}
