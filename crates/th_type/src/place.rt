//! Places in texts, what is limited there, and failures of rules. docs/LANGUAGE.md, "Which failure is named", states the order.
ghost use Rattle.std.specs.Prelude.{◌≡◌};
ghost use Rattle.th_type.specs.Failures.{before, lowest, unless};

/// A byte of a text: the number of the text among the given ones, and the byte where something starts in it.
#[derive(Clone, Copy, Debug, PartialEq, Eq)]
pub struct Place {
    pub text: u32,
    pub at: u32,
}

/// What is limited and refused as too large. docs/LANGUAGE.md, "Limits", states each limit.
#[derive(Clone, Copy, Debug, PartialEq, Eq)]
pub enum What {
    /// The bytes of a name.
    Name,
    /// The type parameters of an item.
    Params,
    /// The formals of a signature.
    Formals,
    /// The where-methods of an item.
    Where,
    /// The nodes of a unit.
    Nodes,
    /// The locals and the depth of a unit together.
    Locals,
    /// The nodes of a module.
    Module,
    /// The bytes of a string literal's value.
    Literal,
    /// The nodes of the program.
    ProgramNodes,
    /// The words of all tables.
    Tables,
    /// The exceptions that are declared in the interfaces of the program.
    Exceptions,
    /// The code words of all units.
    Code,
    /// The bridges of the program.
    Bridges,
    /// The bytes of the program's string literals.
    Text,
}

/// A rule that fails, and where.
#[derive(Clone, Copy, Debug, PartialEq, Eq)]
pub struct Failure {
    pub place: Place,
    pub rule: u32,
}

/// Keeps the failure of `rule` at `place` where the rule does not hold and no failure that is kept stands before it or at it.
pub fn demand(found: &mut Option<Failure>, holds: bool, rule: u32, place: Place)
    ensures { found.new ≡ lowest found.old (unless holds rule place) }
{
    if holds {
        return;
    }
    let failure = Failure { place, rule };
    match found {
        Some(kept) => {
            if failure.is_before(kept) {
                *kept = failure;
            }
        }
        None => *found = Some(failure),
    }
}

impl Failure {
    /// Whether this failure stands before the other: by text, then byte, then rule.
    pub fn is_before(&self, other: &Failure) -> bool
        ensures { result ≡ before self.now other.now }
    {
        let (a, b) = (self.place, other.place);
        a.text < b.text
            || (a.text == b.text && (a.at < b.at || (a.at == b.at && self.rule < other.rule)))
    }
}
