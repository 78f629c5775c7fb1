//! What an object of a class takes beside what one of the inherited class takes.
ghost use Rattle.std.specs.Prelude.{◌≡◌, ℕ, List, Option, Some, None, option_map, IfOk, if◌then◌else◌};
ghost use Rattle.th_meaning.specs.View.{class_of, type_of, types_of};
ghost use Rattle.th_meaning.specs.Program.{ProgramClass, Program, classes_of};
ghost use Rattle.th_meaning.specs.Weights.{own_words, substituted, type_list, first_reaches, steps_up, type_words};
ghost use Rattle.th_classes.specs.Rows.{IsClassRow, IsClassTable};
ghost use Rattle.th_weights.specs.Types.{IsTypeTable};
ghost use Rattle.th_weights.specs.Sizes.{IsSize, SizesAre, ArgumentsAre, class_at, less_of};

use crate::table::TypeTable;
use std::alloc::{AllocError, Global};
use th_classes::{ClassRow, ClassTable};
use th_meaning::{CoreClass, CoreType, CoreTypeList};
use th_subst::with_args;

/// The header words of a class's type, how many of the inherited class these take the place of, and the fields and
/// where-words of the class's own.
#[derive(Clone, Copy)]
pub(crate) struct Size {
    pub(crate) words: u64,
    pub(crate) less: u64,
    pub(crate) own: u64,
}

/// The sizes of all classes. There is no memory for 2^32 of them.
#[tactic(auto, using(crate::proofs::Weighing::sizes_all))]
pub(crate) fn sizes_of<'a>(
    alloc: Global,
    types: &TypeTable<'a>,
    classes: &ClassTable<'a>,
) -> Result<Vec<Size>, AllocError>
    ensures { IfOk result (λ sizes. (p : Program) → IsTypeTable types.now p → IsClassTable classes.now p → SizesAre p sizes.items (classes_of p)) }
{
    let count = classes.count();
    if count >= 1 << 32 {
        return Err(AllocError);
    }
    let mut sizes = Vec::new(alloc);
    for number in 0..count {
        match classes.get(number as u32) {
            None => return Err(AllocError),
            Some(row) => {
                let size = size_of(alloc, types, classes, row)?;
                sizes.push(size)?;
            }
        }
    }
    Ok(sizes)
}

/// The size of a class.
fn size_of<'a>(
    alloc: Global,
    types: &TypeTable<'a>,
    classes: &ClassTable<'a>,
    row: &ClassRow<'a>,
) -> Result<Size, AllocError>
    ensures { IfOk result (λ size. (p : Program) (c : ProgramClass) → IsTypeTable types.now p → IsClassTable classes.now p → IsClassRow p row.now c → IsSize p size c) }
{
    let words = types.words(alloc, &row.class.head.of)?;
    let less = less_words(alloc, types, classes, row)?;
    let own = own_of(row.class)?;
    Ok(Size { words, less, own })
}

/// How many fields and where-words of its own a class has.
#[tactic(auto, using(crate::proofs::Weighing::own_is))]
fn own_of(class: &CoreClass) -> Result<u64, AllocError>
    ensures { IfOk result (λ own. own ≡ own_words (class_of class.now)) }
{
    let fields = class.fields.len() as u64;
    let clauses = class.head.clauses.len() as u64;
    match fields.checked_add(clauses) {
        None => Err(AllocError),
        Some(own) => Ok(own),
    }
}

/// The arguments of the class that a class inherits; None where it names none.
fn arguments_of<'a>(class: &'a CoreClass) -> Option<&'a CoreTypeList>
    ensures { ArgumentsAre result (class_of class.now) }
{
    match &class.head.inherits {
        None => None,
        Some(CoreType::Int) => None,
        Some(CoreType::Bool) => None,
        Some(CoreType::Text) => None,
        Some(CoreType::Array(_)) => None,
        Some(CoreType::Named(_, args)) => Some(args),
        Some(CoreType::Param(_)) => None,
    }
}

/// How many header words of the class that it inherits those of a class take the place of.
#[tactic(auto, using(crate::proofs::Weighing::less_none, crate::proofs::Weighing::less_gone, crate::proofs::Weighing::less_there))]
fn less_words<'a>(
    alloc: Global,
    types: &TypeTable<'a>,
    classes: &ClassTable<'a>,
    row: &ClassRow<'a>,
) -> Result<u64, AllocError>
    ensures { IfOk result (λ less. (p : Program) (c : ProgramClass) → IsTypeTable types.now p → IsClassTable classes.now p → IsClassRow p row.now c → less ≡ less_of p c) }
{
    match arguments_of(row.class) {
        None => Ok(0),
        Some(args) => match above_of(classes, row.above) {
            None => Ok(0),
            Some(above) => {
                let less = less_over(alloc, types, args, above, row.class)?;
                Ok(less)
            }
        },
    }
}

/// The class of a number that there may be.
fn above_of<'a>(classes: &ClassTable<'a>, number: Option<u32>) -> Option<&'a CoreClass>
    ensures { (p : Program) → IsClassTable classes.now p → option_map (λ c. class_of c.now) result ≡ class_at p number }
{
    match number {
        None => None,
        Some(number) => match classes.get(number) {
            None => None,
            Some(row) => Some(row.class),
        },
    }
}

/// How many header words of the class above, with these arguments, those of a class take the place of.
fn less_over<'a>(
    alloc: Global,
    types: &TypeTable<'a>,
    args: &CoreTypeList,
    above: &CoreClass,
    class: &CoreClass,
) -> Result<u64, AllocError>
    ensures { IfOk result (λ less. (p : Program) → IsTypeTable types.now p → less ≡ (if first_reaches (steps_up p) p (substituted (type_list (types_of args.now)) (type_of above.now.head.of)) (type_of class.now.head.of) then type_words p (type_of above.now.head.of) else 0)) }
{
    let inherited = with_args(&above.head.of, alloc, args)?;
    let reaches = types.reaches(alloc, &class.head.of, &inherited)?;
    if reaches {
        let words = types.words(alloc, &above.head.of)?;
        Ok(words)
    } else {
        Ok(0)
    }
}
