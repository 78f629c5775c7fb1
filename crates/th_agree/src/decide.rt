//! Whether modules agree.
ghost use Rattle.std.specs.Prelude.{◌≡◌, IfOk};
ghost use Rattle.th_meaning.specs.Program.{Program};
ghost use Rattle.th_meaning.specs.View.{program_of};
ghost use Rattle.th_agree.specs.Names.{IsLeastName, IsNoName};
ghost use Rattle.th_agree.specs.Agree.{Differs, Twice, Missing, IsAgreeAnswer};
ghost use Rattle.th_agree.specs.Noted.{Found, MainIs};

use crate::error::AgreeError;
use crate::lacking::lacking;
use crate::least::lesser_of;
use crate::marks::{Kind, marks_of, place_of};
use crate::texts::differing;
use std::alloc::{AllocError, Global};
use th_meaning::CoreModule;
use th_tree::Name;

/// What was found of each condition: the least name of which it fails, and whether there is a `main`.
#[derive(Clone, Copy)]
pub(crate) struct Findings<'a> {
    pub(crate) differs: Option<&'a [u8]>,
    pub(crate) twice: Option<&'a [u8]>,
    pub(crate) missing: Option<&'a [u8]>,
    pub(crate) main: bool,
}

/// What is found of modules.
fn find(alloc: Global, modules: &[CoreModule]) -> Result<Findings<'_>, AllocError>
    ensures { IfOk result (λ found. Found (program_of modules.now) found) }
{
    let differs = differing(alloc, modules)?;
    let own = marks_of(alloc, modules, Kind::Own)?;
    let defined = marks_of(alloc, modules, Kind::Defined)?;
    let mains = marks_of(alloc, modules, Kind::Main)?;
    let pair = lesser_of(own.least, defined.least);
    let twice = lesser_of(pair, mains.least);
    let missing = lacking(&defined.places, modules);
    let place = place_of(&mains.places, b"main".as_slice());
    let main = place.is_some();
    Ok(Findings {
        differs,
        twice,
        missing,
        main,
    })
}

/// A copy of a name.
fn copy(alloc: Global, name: &[u8]) -> Result<Name, AllocError>
    ensures { IfOk result (λ copy. copy ≡ name.now) }
{
    Ok(Name::of(Vec::from_slice(alloc, name)?))
}

/// The answer where the texts of an interface of this name differ.
fn differs(alloc: Global, name: &[u8]) -> Result<(), AgreeError>
    ensures { (p : Program) → IsLeastName (Differs p) name.now → IsAgreeAnswer p result }
{
    match copy(alloc, name) {
        Ok(name) => Err(AgreeError::Differs(name)),
        Err(_) => Err(AgreeError::Memory),
    }
}

/// The answer where this name is twice.
fn twice(alloc: Global, name: &[u8]) -> Result<(), AgreeError>
    ensures { (p : Program) → IsNoName (Differs p) → IsLeastName (Twice p) name.now → IsAgreeAnswer p result }
{
    match copy(alloc, name) {
        Ok(name) => Err(AgreeError::Twice(name)),
        Err(_) => Err(AgreeError::Memory),
    }
}

/// The answer where this exported name is missing.
fn missing(alloc: Global, name: &[u8]) -> Result<(), AgreeError>
    ensures { (p : Program) → IsNoName (Differs p) → IsNoName (Twice p) → IsLeastName (Missing p) name.now → IsAgreeAnswer p result }
{
    match copy(alloc, name) {
        Ok(name) => Err(AgreeError::Missing(name)),
        Err(_) => Err(AgreeError::Memory),
    }
}

/// The answer where only `main` may be missing.
fn has_main(main: bool) -> Result<(), AgreeError>
    ensures { (p : Program) → IsNoName (Differs p) → IsNoName (Twice p) → IsNoName (Missing p) → MainIs p main → IsAgreeAnswer p result }
{
    if main {
        Ok(())
    } else {
        Err(AgreeError::NoMain)
    }
}

/// The answer where only names may be missing.
fn answer_missing(alloc: Global, found: Findings<'_>) -> Result<(), AgreeError>
    ensures { (p : Program) → IsNoName (Differs p) → IsNoName (Twice p) → Found p found.entry → IsAgreeAnswer p result }
{
    match found.missing {
        Some(name) => missing(alloc, name),
        None => has_main(found.main),
    }
}

/// The answer where no texts differ.
fn answer_twice(alloc: Global, found: Findings<'_>) -> Result<(), AgreeError>
    ensures { (p : Program) → IsNoName (Differs p) → Found p found.entry → IsAgreeAnswer p result }
{
    match found.twice {
        Some(name) => twice(alloc, name),
        None => answer_missing(alloc, found),
    }
}

/// The answer to what was found.
fn answer(alloc: Global, found: Findings<'_>) -> Result<(), AgreeError>
    ensures { (p : Program) → Found p found.entry → IsAgreeAnswer p result }
{
    match found.differs {
        Some(name) => differs(alloc, name),
        None => answer_twice(alloc, found),
    }
}

/// Whether modules agree, so that they can be linked: no two keep different texts of an interface; no two have one name, define one
/// exported class or routine, or each define `main`; each exported class and routine of an interface that a module keeps is defined; and
/// there is a `main`. The error is the first of these that fails, with the bytewise least name of which it does.
pub fn agree(alloc: Global, modules: &[CoreModule]) -> Result<(), AgreeError>
    ensures { IsAgreeAnswer (program_of modules.now) result }
{
    match find(alloc, modules) {
        Ok(found) => answer(alloc, found),
        Err(_) => Err(AgreeError::Memory),
    }
}
