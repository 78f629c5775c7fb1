//! Where the words of the stack stand.
ghost use Rattle.std.specs.Prelude.{◌≡◌, ℕ, ◌<◌};
ghost use Rattle.th_abi.specs.Sequences.{home};

use crate::word::Home;

/// Where the place of the stack stands, in words from its bottom: the six lowest in registers 18 to 23, the others in
/// the frame. It takes no memory.
pub fn home(place: u32) -> Home
    ensures is { result ≡ home place }
    ensures apart { (other : ℕ) → home other ≡ home place → other ≡ place }
{
    if place < 6 {
        Home::Register(18 + place)
    } else {
        Home::Frame(place)
    }
}
