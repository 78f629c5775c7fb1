//! Places in the text of a unit.
ghost use Rattle.std.specs.Prelude.{◌≡◌};
ghost use Rattle.th_type.specs.Failures.{place};

use th_scope::Env;
use th_type::Place;

/// The byte of the text.
pub fn place_at(env: &Env<'_>, at: u32) -> Place
    ensures { result ≡ place env.now.text at }
{
    Place { text: env.text, at }
}
