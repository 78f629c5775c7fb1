//! Whole runs: how a run stands, what it means that a machine's run agrees with the source of a program, and the
//! theorem that a machine which does a program operation by operation agrees with its source.
#![tactic(auto)]

ghost use Rattle.std.specs.Prelude.{ℕ, Option};
ghost use Rattle.th_runs.specs.Agreement.{Agreement};
ghost use Rattle.th_runs.specs.Runs.{Machine, Program};
ghost use Rattle.th_runs.specs.Simulation.{Simulation};
ghost use Rattle.th_runs.specs.Stand.{Stand};

/// A machine that does a program operation by operation, by ghost members alone. Each `impl` proves `simulation`,
/// which says of one operation at a time what is to be shown.
pub trait Simulates {
    /// The program's states, from operation to operation.
    ghost Operations: { Type 0 };

    /// The machine's states, from instruction to instruction.
    ghost Instructions: { Type 0 };

    /// The program, with its charges of turns and of bytes of room.
    ghost program: { Program Operations };

    /// The machine's steps.
    ghost steps: { Machine Instructions };

    /// The machine's state stands for the program's.
    ghost meets: { Operations → Instructions → Type 0 };

    /// At most so many instructions do an operation.
    ghost size: { Operations → ℕ };

    /// At most so many instructions do all operations that the given turns pay for.
    ghost potential: { ℕ → Operations → ℕ };

    /// The state in which the program begins.
    ghost first: { Operations };

    /// The state in which the machine begins.
    ghost start: { Instructions };

    /// How the source stands with a room in bytes (`None`: unlimited) and so many turns.
    ghost source: { Option ℕ → ℕ → Stand };

    /// How the machine stands after so many steps.
    ghost machine: { ℕ → Stand };

    /// The bytes of the machine's region.
    ghost region: { ℕ };

    /// The words of the machine's code.
    ghost words: { ℕ };

    /// The premises of the law.
    ghost simulation: { Simulation program steps meets size potential first start source machine region words };
}

/// A law, for every machine that does a program operation by operation: it agrees with the program's source (in
/// docs/DEFINITIONS.md: agreement). It never traps, ends and raises as the source, does nothing before the source,
/// stops for room only where the source is out of room, and keeps pace.
pub fn agreement_law<T: Simulates>()
    ensures agrees { Agreement T.source T.machine T.region T.words }
{}
