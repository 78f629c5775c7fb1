//! The row of a class.
ghost use Rattle.std.specs.Prelude.{◌≡◌, ◌++◌, [], ◌∷◌, ℕ, List, Option, Some, None, IfOk, OnOk, IfSome, IfNone, bytes_eq};
ghost use Rattle.std.specs.HashMap.{get_by};
ghost use Rattle.th_meaning.specs.View.{class_of};
ghost use Rattle.th_meaning.specs.Program.{Program, inherited_name, method_name, init_name};
ghost use Rattle.th_units.specs.Units.{IsTable, FindsUnit};
ghost use Rattle.th_classes.specs.Numbers.{class_number, above_number};
ghost use Rattle.th_classes.specs.Rows.{Bodies, IsClassRow};

use std::alloc::{AllocError, Global};
use std::collections::HashMap;
use th_meaning::{CoreClass, CoreType};
use th_tree::Name;
use th_units::{UnitRow, UnitTable};

/// A class: itself, the number of the class that it inherits, where that is there, and of each method of which it has a
/// body the number of the unit, where there is one.
#[derive(Drop)]
pub struct ClassRow<'a> {
    pub class: &'a CoreClass,
    pub above: Option<u32>,
    pub methods: HashMap<&'a [u8], Option<u32>>,
}

/// The row of a class.
pub(crate) fn row_of<'a>(
    alloc: Global,
    units: &UnitTable<'a>,
    numbers: &HashMap<&'a [u8], u32>,
    class: &'a CoreClass,
) -> Result<ClassRow<'a>, AllocError>
    ensures { IfOk result (λ row. (p : Program) → IsTable units.now p → ((name : List ℕ) → get_by (λ k. bytes_eq name k.now) numbers.now ≡ class_number p name) → IsClassRow p row (class_of class.now)) }
{
    let methods = methods_of(alloc, units, class.head.name.as_bytes(), &class.methods)?;
    Ok(ClassRow {
        class,
        above: above_of(numbers, class),
        methods,
    })
}

/// The number of the class that a class inherits, where it is there.
fn above_of<'a>(numbers: &HashMap<&'a [u8], u32>, class: &'a CoreClass) -> Option<u32>
    ensures { (p : Program) → ((name : List ℕ) → get_by (λ k. bytes_eq name k.now) numbers.now ≡ class_number p name) → result ≡ above_number p (class_of class.now) }
{
    match inherited(class) {
        None => None,
        Some(name) => numbers.get(name).copied(),
    }
}

/// The name of the class that a class inherits, where there is one.
fn inherited<'a>(class: &'a CoreClass) -> Option<&'a [u8]>
    ensures some { IfSome result (λ name. inherited_name (class_of class.now).head.inherits ≡ Some name.now) }
    ensures none { IfNone result (inherited_name (class_of class.now).head.inherits ≡ None) }
{
    match &class.head.inherits {
        None => None,
        Some(CoreType::Int) => None,
        Some(CoreType::Bool) => None,
        Some(CoreType::Text) => None,
        Some(CoreType::Array(_)) => None,
        Some(CoreType::Named(name, _)) => Some(name.as_bytes()),
        Some(CoreType::Param(_)) => None,
    }
}

/// Of each of these methods of a class the number of the unit of its body.
fn methods_of<'a>(
    alloc: Global,
    units: &UnitTable<'a>,
    class: &[u8],
    methods: &'a [Name],
) -> Result<HashMap<&'a [u8], Option<u32>>, AllocError>
    ensures { IfOk result (λ bodies. (p : Program) → IsTable units.now p → Bodies p class.now methods.now bodies) }
{
    let mut bodies = HashMap::new(alloc);
    for method in methods {
        add_body(alloc, &mut bodies, units, class, method.as_bytes())?;
    }
    Ok(bodies)
}

/// Adds the number of the unit of a method's body.
fn add_body<'a>(
    alloc: Global,
    bodies: &mut HashMap<&'a [u8], Option<u32>>,
    units: &UnitTable<'a>,
    class: &[u8],
    method: &'a [u8],
) -> Result<(), AllocError>
    ensures { OnOk result ((p : Program) (done : List (List ℕ)) → IsTable units.now p → Bodies p class.now done bodies.old → Bodies p class.now (done ++ method.now ∷ []) bodies.new) }
{
    let name = member_name(alloc, class, method)?;
    let unit = units.number(&name);
    match bodies.insert(method, unit) {
        Ok(_) => Ok(()),
        Err(_) => Err(AllocError),
    }
}

/// The unit of the initializer of a class, where there is one.
pub fn init_unit<'a>(
    alloc: Global,
    units: &UnitTable<'a>,
    class: &[u8],
) -> Result<Option<UnitRow<'a>>, AllocError>
    ensures { IfOk result (λ row. (p : Program) → IsTable units.now p → FindsUnit p (init_name class.now) row) }
{
    let name = member_name(alloc, class, b"init")?;
    Ok(units.named(&name))
}

/// The full name of a member of a class.
fn member_name(alloc: Global, class: &[u8], member: &[u8]) -> Result<Vec<u8>, AllocError>
    ensures { IfOk result (λ name. name.items ≡ method_name class.now member.now) }
{
    let mut name = Vec::from_slice(alloc, class)?;
    name.push(b'.')?;
    name.extend_from_slice(member)?;
    Ok(name)
}
