//! The classes of a program in order, and the number of each name.
ghost use Rattle.std.specs.Prelude.{◌≡◌, ◌++◌, [], ◌∷◌, List, map, IfOk, OnOk};
ghost use Rattle.th_meaning.specs.View.{class_of, program_of};
ghost use Rattle.th_meaning.specs.Program.{ProgramClass, classes_of};
ghost use Rattle.th_units.specs.Units.{Named};
ghost use Rattle.th_classes.specs.Lists.{Lists};

use std::alloc::{AllocError, Global};
use std::collections::HashMap;
use th_meaning::{CoreClass, CoreModule};

/// Classes in order, and the number of each full name: that of the first class where two have one name.
#[derive(Drop)]
pub(crate) struct ClassList<'a> {
    pub(crate) classes: Vec<&'a CoreClass>,
    pub(crate) numbers: HashMap<&'a [u8], u32>,
}

impl<'a> ClassList<'a> {
    /// The classes of modules. There is no memory for 2^32 classes.
    pub(crate) fn of(alloc: Global, modules: &'a [CoreModule]) -> Result<ClassList<'a>, AllocError>
        ensures { IfOk result (λ list. Lists list (classes_of (program_of modules.now))) }
    {
        let mut list = ClassList {
            classes: Vec::new(alloc),
            numbers: HashMap::new(alloc),
        };
        for module in modules {
            add_classes(&mut list, &module.classes)?;
        }
        Ok(list)
    }
}

/// Adds classes.
fn add_classes<'a>(list: &mut ClassList<'a>, classes: &'a [CoreClass]) -> Result<(), AllocError>
    ensures { OnOk result ((done : List ProgramClass) → Lists list.old done → Lists list.new (done ++ map class_of classes.now)) }
{
    for class in classes {
        add_class(list, class)?;
    }
    Ok(())
}

/// Adds a class, and the number of its name, unless the name is there.
fn add_class<'a>(list: &mut ClassList<'a>, class: &'a CoreClass) -> Result<(), AllocError>
    ensures { OnOk result ((done : List ProgramClass) → Lists list.old done → Lists list.new (done ++ class_of class.now ∷ [])) }
{
    let number = list.classes.len();
    if number >= 1 << 32 {
        return Err(AllocError);
    }
    list.classes.push(class)?;
    name_class(&mut list.numbers, class.head.name.as_bytes(), number as u32)?;
    Ok(())
}

/// Gives a name its number, unless the name is there.
#[tactic(auto, using(th_units::proofs::Adding::gets_name, th_units::proofs::Adding::keeps_name))]
fn name_class<'a>(
    numbers: &mut HashMap<&'a [u8], u32>,
    name: &'a [u8],
    number: u32,
) -> Result<(), AllocError>
    ensures { OnOk result (Named name.now number numbers.old numbers.new) }
{
    match numbers.get(name) {
        Some(_) => Ok(()),
        None => match numbers.insert(name, number) {
            Ok(_) => Ok(()),
            Err(_) => Err(AllocError),
        },
    }
}
