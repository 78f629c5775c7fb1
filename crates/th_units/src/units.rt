//! The units of a program by their numbers and names.
ghost use Rattle.std.specs.Prelude.{◌≡◌, ◌++◌, [], ◌∷◌, List, map, Option, IfOk, OnOk, slice_get};
ghost use Rattle.th_meaning.specs.View.{unit_of, program_of};
ghost use Rattle.th_meaning.specs.Program.{ProgramUnit, Program, units_of};
ghost use Rattle.th_units.specs.Units.{IsRow, RowIs, Holds, Named, IsTable, FindsUnit, unit_number};

use std::alloc::{AllocError, Global};
use std::collections::HashMap;
use th_meaning::{CoreModule, CoreUnit, depth, locals};

/// A unit: itself, its number among the program's units in the order of the modules, how many locals it has, and the room
/// of an open call, in bytes.
#[derive(Clone, Copy)]
pub struct UnitRow<'a> {
    pub unit: &'a CoreUnit,
    pub number: u32,
    pub locals: u64,
    pub weight: u64,
}

/// The units of a program by their numbers, and the number of each full name: that of the first unit where two have one
/// name.
#[derive(Drop)]
pub struct UnitTable<'a> {
    rows: Vec<UnitRow<'a>>,
    numbers: HashMap<&'a [u8], u32>,
}

impl<'a> UnitTable<'a> {
    /// The table of the units of modules. There is no memory for 2^32 units.
    pub fn of(alloc: Global, modules: &'a [CoreModule]) -> Result<UnitTable<'a>, AllocError>
        ensures { IfOk result (λ table. IsTable table (program_of modules.now)) }
    {
        let mut rows = Vec::new(alloc);
        let mut numbers = HashMap::new(alloc);
        for module in modules {
            add_units(&mut rows, &mut numbers, &module.units)?;
        }
        Ok(UnitTable { rows, numbers })
    }

    /// The number of the unit of a full name, where there is one.
    pub fn number(&self, name: &[u8]) -> Option<u32>
        ensures { (p : Program) → IsTable self.now p → result ≡ unit_number p name.now }
    {
        self.numbers.get(name).copied()
    }

    /// The unit of a number, where there is one.
    pub fn get(&self, number: u32) -> Option<UnitRow<'a>>
        ensures { (p : Program) → IsTable self.now p → RowIs number result (slice_get (units_of p) number) }
    {
        at_place(&self.rows, number as usize)
    }

    /// The unit of a full name, where there is one.
    #[tactic(auto, using(crate::proofs::Adding::none_unit, crate::proofs::Adding::finds_unit))]
    pub fn named(&self, name: &[u8]) -> Option<UnitRow<'a>>
        ensures { (p : Program) → IsTable self.now p → FindsUnit p name.now result }
    {
        match self.number(name) {
            None => None,
            Some(number) => self.get(number),
        }
    }
}

/// The row at a place, where there is one.
fn at_place<'a>(rows: &[UnitRow<'a>], place: usize) -> Option<UnitRow<'a>>
    ensures { result ≡ slice_get rows.now place }
{
    match rows.get(place) {
        None => None,
        Some(row) => Some(*row),
    }
}

/// Adds units.
fn add_units<'a>(
    rows: &mut Vec<UnitRow<'a>>,
    numbers: &mut HashMap<&'a [u8], u32>,
    units: &'a [CoreUnit],
) -> Result<(), AllocError>
    ensures { OnOk result ((done : List ProgramUnit) → Holds rows.old.items numbers.old done → Holds rows.new.items numbers.new (done ++ map unit_of units.now)) }
{
    for unit in units {
        add_unit(rows, numbers, unit)?;
    }
    Ok(())
}

/// Adds a unit, and the number of its name, unless the name is there.
fn add_unit<'a>(
    rows: &mut Vec<UnitRow<'a>>,
    numbers: &mut HashMap<&'a [u8], u32>,
    unit: &'a CoreUnit,
) -> Result<(), AllocError>
    ensures { OnOk result ((done : List ProgramUnit) → Holds rows.old.items numbers.old done → Holds rows.new.items numbers.new (done ++ unit_of unit.now ∷ [])) }
{
    let row = row_of(rows.len(), unit)?;
    rows.push(row)?;
    name_unit(numbers, unit.name.as_bytes(), row.number)?;
    Ok(())
}

/// Gives a name its number, unless the name is there.
#[tactic(auto, using(crate::proofs::Adding::gets_name, crate::proofs::Adding::keeps_name))]
fn name_unit<'a>(
    numbers: &mut HashMap<&'a [u8], u32>,
    name: &'a [u8],
    number: u32,
) -> Result<(), AllocError>
    ensures { OnOk result (Named name.now number numbers.old numbers.new) }
{
    match numbers.get(name) {
        Some(_) => Ok(()),
        None => match numbers.insert(name, number) {
            Ok(_) => Ok(()),
            Err(_) => Err(AllocError),
        },
    }
}

/// The row of the unit of a number. There is no memory for 2^32 units, nor for 2^60 locals.
fn row_of<'a>(number: usize, unit: &'a CoreUnit) -> Result<UnitRow<'a>, AllocError>
    ensures { IfOk result (λ row. IsRow number row (unit_of unit.now)) }
{
    let locals = locals(unit);
    let depth = depth(unit);
    if number >= 1 << 32 || locals >= 1 << 60 || depth >= 1 << 60 {
        return Err(AllocError);
    }
    let weight = 256 + 4 * (locals + depth);
    Ok(UnitRow {
        unit,
        number: number as u32,
        locals,
        weight,
    })
}
