//! Laws of the rules of expressions.
ghost use Rattle.th_rules.specs.Laws.{CalledWhereNothingFails, ClassWhereNothingFails, ResolvedWhereNothingFails, TestDecidesSubtypes, TypedWhereNothingFails};

/// A law: the failures in an expression, and what its type and its checked tree are, agree: there is a type exactly where
/// nothing fails. It says the same of calls that are there for what they do, or for a loop.
#[tactic(auto, using(crate::proofs::NoFailure::law, crate::proofs::NoFailure::call_law))]
pub fn failures_law()
    ensures exprs { TypedWhereNothingFails }
    ensures calls { CalledWhereNothingFails }
{}

/// A law: a type, or a class with its arguments, means something in a body exactly where nothing fails in it.
#[tactic(auto, using(crate::proofs::NoFailure::type_law, crate::proofs::NoFailure::class_law))]
pub fn types_law()
    ensures types { ResolvedWhereNothingFails }
    ensures classes { ClassWhereNothingFails }
{}

/// A law: where no way up is longer than there are declared types, the test by which expressions are judged is the subtype
/// relation.
#[tactic(auto, using(crate::proofs::Subtyping::test_decides))]
pub fn subtypes_law()
    ensures { TestDecidesSubtypes }
{}
