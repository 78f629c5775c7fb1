//! The least of failures, and failures at the texts of interfaces.
ghost use Rattle.std.specs.Prelude.{◌≡◌, option_map, slice_get, unwrap_or};
ghost use Rattle.th_type.specs.Failures.{lowest};
ghost use Rattle.th_outlines.specs.Placing.{of_option, placed_in};

use th_type::{Failure, Place, demand};

/// Keeps the failure that was found where no failure that is kept stands before it or at it.
pub fn keep(least: &mut Option<Failure>, found: Option<Failure>)
    ensures { least.new ≡ lowest least.old (of_option found) }
{
    match found {
        None => {}
        Some(failure) => demand(least, false, failure.rule, failure.place),
    }
}

/// The number of the text of the interface at this place; the place, where no interface is there.
fn text_at(texts: &[u32], place: u32) -> u32
    ensures { result ≡ unwrap_or (slice_get texts.now place) place }
{
    match texts.get(place as usize) {
        None => place,
        Some(text) => *text,
    }
}

/// A failure by its place among interfaces, at the text of its interface.
pub fn placed_in(texts: &[u32], failure: Failure) -> Failure
    ensures { result ≡ placed_in texts.now failure }
{
    let place = failure.place;
    Failure {
        place: Place {
            text: text_at(texts, place.text),
            at: place.at,
        },
        rule: failure.rule,
    }
}

/// The failure that was found, at the text of its interface.
pub fn placed_found(texts: &[u32], found: Option<Failure>) -> Option<Failure>
    ensures { result ≡ option_map (placed_in texts.now) found }
{
    match found {
        None => None,
        Some(failure) => Some(placed_in(texts, failure)),
    }
}
