//! The classes of a program by their numbers and names.
ghost use Rattle.std.specs.Prelude.{◌≡◌, ℕ, suc, List, ◌∷◌, map, length, Option, Some, None, IfOk, option_map, option_copied, slice_get, bytes_eq};
ghost use Rattle.std.specs.HashMap.{get_by};
ghost use Rattle.th_meaning.specs.View.{class_of, program_of};
ghost use Rattle.th_meaning.specs.Program.{ProgramClass, Program, classes_of, walk};
ghost use Rattle.th_units.specs.Units.{IsTable, unit_number};
ghost use Rattle.th_classes.specs.Numbers.{class_number, above_number, chain_from};
ghost use Rattle.th_classes.specs.Rows.{IsClassRow, IsClassTable, FindsRow, RowsAre, body_in};
ghost use Rattle.th_classes.specs.Found.{found_body};

use crate::list::ClassList;
use crate::row::{ClassRow, row_of};
use std::alloc::{AllocError, Global};
use std::collections::HashMap;
use th_meaning::{CoreClass, CoreModule};
use th_units::UnitTable;

/// The classes of a program by their numbers, and the number of each full name: that of the first class where two have one
/// name.
#[derive(Drop)]
pub struct ClassTable<'a> {
    rows: Vec<ClassRow<'a>>,
    numbers: HashMap<&'a [u8], u32>,
}

impl<'a> ClassTable<'a> {
    /// The table of the classes of modules, whose units are these.
    pub fn of(
        alloc: Global,
        modules: &'a [CoreModule],
        units: &UnitTable<'a>,
    ) -> Result<ClassTable<'a>, AllocError>
        ensures { IfOk result (λ table. IsTable units.now (program_of modules.now) → IsClassTable table (program_of modules.now)) }
    {
        let list = ClassList::of(alloc, modules)?;
        let rows = rows_of(alloc, units, &list.numbers, &list.classes)?;
        Ok(ClassTable {
            rows,
            numbers: list.numbers,
        })
    }

    /// How many classes there are.
    pub fn count(&self) -> usize
        ensures { (p : Program) → IsClassTable self.now p → result ≡ length (classes_of p) }
    {
        self.rows.len()
    }

    /// The number of the class of a full name, where there is one.
    pub fn number(&self, name: &[u8]) -> Option<u32>
        ensures { (p : Program) → IsClassTable self.now p → result ≡ class_number p name.now }
    {
        self.numbers.get(name).copied()
    }

    /// The class of a number, where there is one.
    pub fn get(&self, number: u32) -> Option<&ClassRow<'a>>
        ensures { (p : Program) → IsClassTable self.now p → FindsRow p result (slice_get (classes_of p) number) }
    {
        at_place(&self.rows, number as usize)
    }

    /// The number of the unit of the body of a method that the walk finds from the class of a number up: None where it
    /// finds no body, Some(None) where the body has no unit.
    pub fn method_from(&self, class: u32, method: &[u8]) -> Option<Option<u32>>
        ensures { (p : Program) → IsClassTable self.now p → result ≡ body_in p method.now (chain_from (length (classes_of p)) p (Some class)) }
    {
        let mut at = class;
        for step in 0..self.rows.len() {
            match self.found_at(at, method) {
                Found::Body(unit) => return Some(unit),
                Found::Above(above) => at = above,
                Found::Nothing => return None,
            }
        }
        None
    }

    /// What the walk finds at the class of a number.
    #[tactic(auto, using(crate::proofs::Walking::found_row, crate::proofs::Walking::walk_ends))]
    fn found_at(&self, class: u32, method: &[u8]) -> Found
        ensures { (p : Program) (n : ℕ) → IsClassTable self.now p → body_in p method.now (chain_from (suc n) p (Some class)) ≡ found_body p method.now n result }
    {
        match self.get(class) {
            None => Found::Nothing,
            Some(row) => found_in(row, method),
        }
    }

    /// The same from the class of a full name up.
    #[tactic(auto, using(crate::proofs::Walking::no_walk, crate::proofs::Walking::walk_from))]
    pub fn method(&self, class: &[u8], method: &[u8]) -> Option<Option<u32>>
        ensures { (p : Program) → IsClassTable self.now p → result ≡ option_map (unit_number p) (walk p class.now method.now) }
    {
        match self.number(class) {
            None => None,
            Some(number) => self.method_from(number, method),
        }
    }
}

/// What the walk finds at a class: the number of the unit of its body, where it has a unit; the number of the class to go
/// on with; or nothing.
#[derive(Clone, Copy)]
enum Found {
    Body(Option<u32>),
    Above(u32),
    Nothing,
}

/// What the walk finds at a class.
#[tactic(auto, using(crate::proofs::Walking::body_here, crate::proofs::Walking::body_above, crate::proofs::Walking::body_nowhere))]
fn found_in<'a>(row: &ClassRow<'a>, method: &[u8]) -> Found
    ensures { (p : Program) (c : ProgramClass) (n : ℕ) → IsClassRow p row.now c → body_in p method.now (c ∷ chain_from n p (above_number p c)) ≡ found_body p method.now n result }
{
    match row.methods.get(method) {
        Some(unit) => Found::Body(*unit),
        None => match row.above {
            None => Found::Nothing,
            Some(above) => Found::Above(above),
        },
    }
}

/// The row at a place, where there is one.
fn at_place<'r, 'a>(rows: &'r [ClassRow<'a>], place: usize) -> Option<&'r ClassRow<'a>>
    ensures { option_copied result ≡ slice_get rows.now place }
{
    rows.get(place)
}

/// The rows of classes.
fn rows_of<'a>(
    alloc: Global,
    units: &UnitTable<'a>,
    numbers: &HashMap<&'a [u8], u32>,
    classes: &[&'a CoreClass],
) -> Result<Vec<ClassRow<'a>>, AllocError>
    ensures { IfOk result (λ rows. (p : Program) → IsTable units.now p → ((name : List ℕ) → get_by (λ k. bytes_eq name k.now) numbers.now ≡ class_number p name) → RowsAre p rows.items (map (λ c. class_of c.now) classes.now)) }
{
    let mut rows = Vec::new(alloc);
    for class in classes {
        let row = row_of(alloc, units, numbers, *class)?;
        rows.push(row)?;
    }
    Ok(rows)
}
