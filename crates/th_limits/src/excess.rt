//! What is too large, and the first of it.
ghost use Rattle.std.specs.Prelude.{◌≡◌, ◌∷◌, []};
ghost use Rattle.th_module_rules.specs.Limits.{counted, limit_of, rank};
ghost use Rattle.th_limits.specs.Earliest.{earlier, earliest, stands_before};

use th_type::{Place, What};

/// What is too large: what was counted, how many there are, which stays at the greatest number of 64 bits, and where.
#[derive(Clone, Copy, Debug, PartialEq, Eq)]
pub struct Excess {
    pub what: What,
    pub count: u64,
    pub place: Place,
}

/// How many there may be at most in a text.
fn limit_of(what: What) -> u64
    ensures { result ≡ limit_of what }
{
    match what {
        What::Name => 64,
        What::Params => 8,
        What::Formals => 8,
        What::Where => 8,
        What::Nodes => 10_000,
        What::Locals => 400,
        What::Module => 40_000,
        What::Literal => 1_024,
        _ => 0,
    }
}

/// The place of a limit among those that are exceeded at one place.
fn rank(what: What) -> u32
    ensures { result ≡ rank what }
{
    match what {
        What::Name => 0,
        What::Params => 1,
        What::Formals => 2,
        What::Where => 3,
        What::Nodes => 4,
        What::Locals => 5,
        What::Module => 6,
        What::Literal => 7,
        _ => 8,
    }
}

impl Excess {
    /// Whether this stands before the other: by text, then byte, then limit.
    fn is_before(&self, other: &Excess) -> bool
        ensures { result ≡ stands_before self.now other.now }
    {
        let (a, b) = (self.place, other.place);
        let (mine, others) = (rank(self.what), rank(other.what));
        a.text < b.text || (a.text == b.text && (a.at < b.at || (a.at == b.at && mine < others)))
    }
}

/// Keeps what is too large where nothing that is kept stands before it or beside it.
fn keep(first: &mut Option<Excess>, excess: Excess)
    ensures { first.new ≡ earlier first.old excess }
{
    match first {
        Some(kept) => {
            if excess.is_before(kept) {
                *kept = excess;
            }
        }
        None => *first = Some(excess),
    }
}

/// Keeps what was counted at the place, where it is too large and nothing that is kept stands before it or beside it.
pub fn measure(first: &mut Option<Excess>, what: What, count: u64, place: Place)
    ensures { first.new ≡ earliest first.old (counted what count place ∷ []) }
{
    if limit_of(what) < count {
        keep(first, Excess { what, count, place });
    }
}
