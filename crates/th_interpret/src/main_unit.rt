//! The program's `main`.
ghost use Rattle.std.specs.Prelude.{◌≡◌, ◌++◌, ◌∷◌, Option, Some, None, option_map, IfOk, map, filter, slice_get, bytes_eq, codes};
ghost use Rattle.th_meaning.specs.View.{unit_of, program_of};
ghost use Rattle.th_meaning.specs.Program.{main_of, full_name};

use std::alloc::{AllocError, Global};
use th_meaning::{CoreModule, CoreUnit};

/// The first unit that is `main` of its module, where there is one.
pub(crate) fn main_unit<'a>(
    alloc: Global,
    modules: &'a [CoreModule],
) -> Result<Option<&'a CoreUnit>, AllocError>
    ensures { IfOk result (λ unit. option_map (λ u. unit_of u.now) unit ≡ main_of (program_of modules.now)) }
{
    for module in modules {
        let name = name_of_main(alloc, module.name.as_bytes())?;
        match unit_called(&module.units, &name) {
            Some(unit) => return Ok(Some(unit)),
            None => {}
        }
    }
    Ok(None)
}

/// The full name of a module's `main`.
fn name_of_main(alloc: Global, module: &[u8]) -> Result<Vec<u8>, AllocError>
    ensures { IfOk result (λ name. name.items ≡ full_name module.now (codes "main")) }
{
    let mut name = Vec::from_slice(alloc, module)?;
    name.extend_from_slice(b"/main")?;
    Ok(name)
}

/// The first unit of a name, where there is one.
fn unit_called<'a>(units: &'a [CoreUnit], name: &[u8]) -> Option<&'a CoreUnit>
    ensures { option_map (λ u. unit_of u.now) result ≡ slice_get (filter (λ u. bytes_eq u.name name.now) (map unit_of units.now)) 0 }
{
    for unit in units {
        if is_named(unit, name) {
            return Some(unit);
        }
    }
    None
}

/// Whether a unit has a name.
fn is_named(unit: &CoreUnit, name: &[u8]) -> bool
    ensures { result ≡ bytes_eq (unit_of unit.now).name name.now }
{
    unit.name.as_bytes() == name
}
