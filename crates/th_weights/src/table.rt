//! The declared types of a program by their names.
ghost use Rattle.std.specs.Prelude.{◌≡◌, ◌++◌, [], ◌∷◌, List, map, flat_map, Option, IfOk, OnOk, option_map};
ghost use Rattle.th_meaning.specs.View.{type_decl_of, interface_of, program_of};
ghost use Rattle.th_meaning.specs.Program.{TypeDecl, Program, type_named, types_of_program};
ghost use Rattle.th_units.specs.Units.{Named};
ghost use Rattle.th_weights.specs.Types.{HoldsTypes, IsTypeTable};

use std::alloc::{AllocError, Global};
use std::collections::HashMap;
use th_meaning::{CoreInterface, CoreModule, CoreTypeDecl};

/// The declared types by their full names, the first where two have one name, and how many there are.
#[derive(Drop)]
pub(crate) struct TypeTable<'a> {
    pub(crate) types: HashMap<&'a [u8], &'a CoreTypeDecl>,
    pub(crate) count: u64,
}

impl<'a> TypeTable<'a> {
    /// The table of the types that the interfaces of modules declare.
    pub(crate) fn of(alloc: Global, modules: &'a [CoreModule]) -> Result<TypeTable<'a>, AllocError>
        ensures { IfOk result (λ table. IsTypeTable table (program_of modules.now)) }
    {
        let mut table = TypeTable {
            types: HashMap::new(alloc),
            count: 0,
        };
        for module in modules {
            add_interfaces(&mut table, &module.interfaces)?;
        }
        Ok(table)
    }

    /// The declaration of a type of a full name, where there is one.
    pub(crate) fn named(&self, name: &[u8]) -> Option<&'a CoreTypeDecl>
        ensures { (p : Program) → IsTypeTable self.now p → option_map (λ d. type_decl_of d.now) result ≡ type_named p name.now }
    {
        self.types.get(name).copied()
    }
}

/// Adds the types of interfaces.
fn add_interfaces<'a>(
    table: &mut TypeTable<'a>,
    interfaces: &'a [CoreInterface],
) -> Result<(), AllocError>
    ensures { OnOk result ((done : List TypeDecl) → HoldsTypes table.old done → HoldsTypes table.new (done ++ flat_map (λ i. i.types) (map interface_of interfaces.now))) }
{
    for interface in interfaces {
        add_types(table, &interface.types)?;
    }
    Ok(())
}

/// Adds types.
fn add_types<'a>(table: &mut TypeTable<'a>, types: &'a [CoreTypeDecl]) -> Result<(), AllocError>
    ensures { OnOk result ((done : List TypeDecl) → HoldsTypes table.old done → HoldsTypes table.new (done ++ map type_decl_of types.now)) }
{
    for of in types {
        add_type(table, of)?;
    }
    Ok(())
}

/// Adds a type, unless its name is there.
fn add_type<'a>(table: &mut TypeTable<'a>, of: &'a CoreTypeDecl) -> Result<(), AllocError>
    ensures { OnOk result ((done : List TypeDecl) → HoldsTypes table.old done → HoldsTypes table.new (done ++ type_decl_of of.now ∷ [])) }
{
    if table.count == u64::MAX {
        return Err(AllocError);
    }
    name_type(&mut table.types, of.name.as_bytes(), of)?;
    table.count += 1;
    Ok(())
}

/// Gives a name its type, unless the name is there.
#[tactic(auto, using(th_units::proofs::Adding::gets_name, th_units::proofs::Adding::keeps_name))]
fn name_type<'a>(
    types: &mut HashMap<&'a [u8], &'a CoreTypeDecl>,
    name: &'a [u8],
    of: &'a CoreTypeDecl,
) -> Result<(), AllocError>
    ensures { OnOk result (Named name.now of.entry types.old types.new) }
{
    match types.get(name) {
        Some(_) => Ok(()),
        None => match types.insert(name, of) {
            Ok(_) => Ok(()),
            Err(_) => Err(AllocError),
        },
    }
}
