//! When a state of the machine stands for a configuration of Flat code, and what the rows of operations do from there.
#![tactic(auto)]

ghost use Rattle.std.specs.Prelude.{ℕ, ◌^◌, ◌<◌};
ghost use Rattle.th_flat.specs.declared.op.FlatOp.TheVariants.{OpWord, OpLocal, OpSet, OpDrop, OpArith, OpCompare, OpGo, OpUnless, OpTurn, OpPutbyte, OpGet};
ghost use Rattle.th_stands.specs.Laws.{RowLaw, PutIntLaw};

/// The rows of operations on local words and numbers do what the operations do: from a state that stands for a unit at the
/// operation their words lead to a state that stands for the configuration after it, trap-free, and they are at most as
/// many as the row has (`RowLaw`). It holds of every program in which the operation's row stands at its place.
pub fn number_laws()
    ensures words { (w : ℕ) → w < 2 ^ 32 → RowLaw (OpWord w) }
    ensures locals { (k : ℕ) → RowLaw (OpLocal k) }
    ensures sets { (k : ℕ) → RowLaw (OpSet k) }
    ensures drops { RowLaw OpDrop }
    ensures compares { (g : ℕ) → RowLaw (OpCompare g) }
    ensures sums { (l : ℕ) → RowLaw (OpArith 0 l) }
    ensures differences { (l : ℕ) → RowLaw (OpArith 1 l) }
    ensures products { (l : ℕ) → RowLaw (OpArith 2 l) }
    ensures quotients { (l : ℕ) → RowLaw (OpArith 3 l) }
    ensures remainders { (l : ℕ) → RowLaw (OpArith 4 l) }
    ensures opposites { (l : ℕ) → RowLaw (OpArith 5 l) }
{}

/// The same of the rows of ways and turns.
pub fn way_laws()
    ensures goes { (l : ℕ) → RowLaw (OpGo l) }
    ensures unlesses { (l : ℕ) → RowLaw (OpUnless l) }
    ensures turns { RowLaw OpTurn }
{}

/// The same of the rows that put a byte and take one, and the law of the row that puts a number (`PutIntLaw`).
pub fn outside_laws()
    ensures puts { (l : ℕ) → RowLaw (OpPutbyte l) }
    ensures gets { (l : ℕ) → RowLaw (OpGet l) }
    ensures numbers { PutIntLaw }
{}
