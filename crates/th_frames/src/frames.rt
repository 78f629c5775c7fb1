//! Units that are entered, and loop bodies that yields run.
ghost use Rattle.std.specs.Prelude.{◌≡◌, [], ◌∷◌, List, Option, Some, set, IfOk, OnOk};
ghost use Rattle.th_meaning.specs.Trees.{BodyTree};
ghost use Rattle.th_meaning.specs.World.{World};
ghost use Rattle.th_meaning.specs.Meaning.{Value};
ghost use Rattle.th_steps.specs.Machine.{now_body, visit as is_visit};
ghost use Rattle.th_control.specs.declared.control.Rest.TheVariants.{Close, Back, For, Again, Resume};
ghost use Rattle.th_control.specs.Config.{purpose_of, machine_at, state_of};
ghost use Rattle.th_control.specs.Acts.{the_loop, the_rest};
ghost use Rattle.th_frames.specs.Opened.{opened, visited};

use std::alloc::{AllocError, Global};
use std::mem;
use th_control::{Control, Frame, Home, Purpose, Rest, RunValue, Stack, Usage};
use th_meaning::{CoreBody, CoreExpr};

/// Goes on in the frame of a unit that is entered for a purpose, whose open call has so much room. Its statements come
/// next.
#[tactic(auto, using(crate::proofs::Opening::opened_plain, crate::proofs::Opening::opened_for))]
pub fn enter_frame<'a>(
    control: &mut Control<'a>,
    alloc: Global,
    frame: Frame<'a>,
    purpose: Purpose<'a>,
    weight: u64,
) -> Result<(), AllocError>
    ensures { OnOk result ((body : BodyTree) (w : World Value) → machine_at (now_body body) control.new w ≡ opened (purpose_of purpose.entry) frame.entry weight body (the_loop control.old) (the_rest control.old) (state_of control.old w)) }
{
    match purpose {
        Purpose::Plain(usage) => enter_plain(control, alloc, frame, usage, weight),
        Purpose::For(local, body) => enter_for(control, frame, local, body, weight),
    }
}

/// The same for a call that isn't a `for`.
fn enter_plain<'a>(
    control: &mut Control<'a>,
    alloc: Global,
    frame: Frame<'a>,
    usage: Usage,
    weight: u64,
) -> Result<(), AllocError>
    ensures { OnOk result (control.new ≡ record { rest = Close weight ∷ Back usage control.old.frame control.old.homes ∷ control.old.rest; frame = frame.entry; homes = [] }) }
{
    let caller = mem::replace(&mut control.frame, frame);
    let homes = mem::replace(&mut control.homes, Stack::new(alloc));
    control.rest.push(Rest::Back(usage, caller, homes))?;
    control.rest.push(Rest::Close(weight))
}

/// The same for a `for`.
fn enter_for<'a>(
    control: &mut Control<'a>,
    frame: Frame<'a>,
    local: u32,
    body: &'a CoreBody,
    weight: u64,
) -> Result<(), AllocError>
    ensures { OnOk result (control.new ≡ record { rest = Close weight ∷ For ∷ control.old.rest; frame = frame.entry; homes = record { frame = control.old.frame; local = local; body = body.entry } ∷ control.old.homes }) }
{
    let caller = mem::replace(&mut control.frame, frame);
    control.homes.push(Home {
        frame: caller,
        local,
        body,
    })?;
    control.rest.push(Rest::For)?;
    control.rest.push(Rest::Close(weight))
}

/// Goes on in the frame of a unit that no unit called, whose room is given back as it ends.
pub fn enter_alone<'a>(
    control: &mut Control<'a>,
    frame: Frame<'a>,
    weight: u64,
) -> Result<(), AllocError>
    ensures { OnOk result (control.new ≡ record { rest = Close weight ∷ control.old.rest; frame = frame.entry; homes = control.old.homes }) }
{
    let _ = mem::replace(&mut control.frame, frame);
    control.rest.push(Rest::Close(weight))
}

/// Goes on in the frame of the nearest home, with the loop's variable bound to what was yielded, and gives the loop's
/// statements; None where no loop is open.
pub fn visit<'a>(
    control: &mut Control<'a>,
    value: RunValue<'a>,
) -> Result<Option<&'a CoreBody>, AllocError>
    ensures { IfOk result (λ body. (w : World Value) → is_visit (the_loop control.old) value.entry (the_loop control.old) (the_rest control.old) (state_of control.old w) ≡ visited body control.new w) }
{
    match control.homes.pop() {
        None => Ok(None),
        Some(home) => {
            let body = visit_home(control, home, value)?;
            Ok(Some(body))
        }
    }
}

/// The same in a home that was taken from the open ones.
fn visit_home<'a>(
    control: &mut Control<'a>,
    home: Home<'a>,
    value: RunValue<'a>,
) -> Result<&'a CoreBody, AllocError>
    ensures body { IfOk result (λ body. body ≡ home.entry.body) }
    ensures homes { OnOk result (control.new.homes ≡ control.old.homes) }
    ensures frame { OnOk result (control.new.frame ≡ record { receiver = home.entry.frame.receiver; locals = set home.entry.frame.locals home.entry.local (Some value.entry) }) }
    ensures rest { OnOk result (control.new.rest ≡ Resume control.old.frame home.entry.local home.entry.body ∷ control.old.rest) }
{
    let body = home.body;
    let local = home.local;
    let iterator = mem::replace(&mut control.frame, home.frame);
    control.frame.bind(local, value);
    control.rest.push(Rest::Resume(iterator, local, body))?;
    Ok(body)
}

/// Waits for the end of the body of a `while` whose test held.
pub fn wait_again<'a>(
    control: &mut Control<'a>,
    test: &'a CoreExpr,
    body: &'a CoreBody,
) -> Result<(), AllocError>
    ensures { OnOk result (control.new ≡ record control.old { rest = Again test.entry body.entry ∷ control.old.rest }) }
{
    control.rest.push(Rest::Again(test, body))
}
