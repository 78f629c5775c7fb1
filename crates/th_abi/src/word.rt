//! Words of code patterns.
use arrayvec::ArrayVec;

/// What a relocation puts into a word, which stands in the object's code without it.
#[derive(Clone, Copy, PartialEq, Eq, Debug)]
pub enum RelocKind {
    /// The distance in bytes from the start of a table to the slot of a method, into the immediate.
    Slot,
    /// The distance in bytes from a reference that is seen at a type to the same one seen at another, into the immediate.
    Cast,
    /// The distance in bytes from an object's anchor to a field or where-word, into the immediate.
    Field,
    /// How many bytes an object has, into the immediate.
    Size,
    /// The address of a class's words, in place of the word.
    Table,
    /// The address of a unit, in place of the word.
    Unit,
    /// The address of an exception's entry, in place of the word.
    Word,
}

/// The exceptions that operations raise of themselves.
#[derive(Clone, Copy, PartialEq, Eq, Debug)]
pub enum Failure {
    Overflow,
    ZeroDivide,
    Bounds,
    EndOfInput,
}

/// The two parts of a label's distance.
#[derive(Clone, Copy, PartialEq, Eq, Debug)]
pub enum Part {
    /// The upper 20 bits of the distance plus 2048, into an AUIPC.
    High,
    /// The low 12 bits of the distance, into a JALR.
    Low,
}

/// A word of a pattern: the instruction with zeros for what is still open, and what is put there.
#[derive(Clone, Copy, PartialEq, Eq, Debug, Default)]
pub struct PatternWord {
    /// The word as it stands in the pattern.
    pub word: u32,
    /// What a relocation puts there, by the operation's operands.
    pub reloc: Option<RelocKind>,
    /// The exception whose entry a relocation of kind `Word` puts there, where it isn't the operation's operand.
    pub failure: Option<Failure>,
    /// The part of the distance to the operation's label that is put there.
    pub label: Option<Part>,
}

/// Where a word of the running unit's stack stands.
#[derive(Clone, Copy, PartialEq, Eq, Debug)]
pub enum Home {
    /// The register of this number.
    Register(u32),
    /// This place of the stack in the frame, in words from its bottom.
    Frame(u32),
}

/// The words of a row.
pub type Words = ArrayVec<PatternWord, 64>;
