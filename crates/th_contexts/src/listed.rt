//! What is asked of the classes of interfaces.
ghost use Rattle.std.specs.Prelude.{◌≡◌, ◌++◌, map, IfOk, OnOk};
ghost use Rattle.th_type.specs.Signatures.{sig_of};
ghost use Rattle.th_hier.specs.Naming.{different};
ghost use Rattle.th_module_rules.specs.Contexts.{base, head_base, item_bases};
ghost use Rattle.th_scope.specs.ItemView.{class_of, item_head_of, item_of};
ghost use Rattle.th_contexts.specs.BaseView.{base_of};

use crate::base::number_of;
use crate::base_row::Base;
use std::alloc::{AllocError, Global};
use th_hier::Numbers;
use th_scope::{ClassItem, Head, Item};
use th_type::Sig;

/// The numbers of the methods' names.
fn listed(alloc: Global, sigs: &[Sig]) -> Result<Vec<u32>, AllocError>
    ensures { IfOk result (λ r. r.items ≡ map (λ s. s.method) sigs.now) }
{
    sigs.iter().map(|sig| sig.method).collect(alloc)
}

/// The numbers of the methods' names, each once.
#[tactic(auto, using(crate::proofs::Methods::sigs_mapped))]
fn methods_of(alloc: Global, sigs: &[Sig]) -> Result<Numbers, AllocError>
    ensures { IfOk result (λ r. r ≡ different (map (λ s. s.method) (map sig_of sigs.now))) }
{
    let names = listed(alloc, sigs)?;
    Numbers::of(alloc, &names)
}

/// What is asked of a class, whose full name has this number.
fn class_base(alloc: Global, full: u32, class: &ClassItem) -> Result<Base, AllocError>
    ensures { IfOk result (λ b. base_of b ≡ base full (class_of class.now) (map (λ s. s.method) (class_of class.now).hidden)) }
{
    let methods = methods_of(alloc, &class.hidden)?;
    Ok(Base {
        full,
        of: class.of.try_clone(alloc)?,
        inherits: number_of(&class.inherits),
        methods,
    })
}

/// Puts what is asked of an item last, where it is a class.
fn push_base(alloc: Global, item: &Item, done: &mut Vec<Base>) -> Result<(), AllocError>
    ensures { OnOk result (map base_of done.new.items ≡ map base_of done.old.items ++ head_base item.now.full (item_head_of item.now.head)) }
{
    match &item.head {
        Head::Class(class) => {
            let base = class_base(alloc, item.full, class)?;
            done.push(base)?;
            Ok(())
        }
        Head::Exception(_) => Ok(()),
        Head::Declared(_) => Ok(()),
        Head::Routine(_) => Ok(()),
    }
}

/// Puts what is asked of the classes among items last.
pub(crate) fn push_bases(
    alloc: Global,
    items: &[Item],
    done: &mut Vec<Base>,
) -> Result<(), AllocError>
    ensures { OnOk result (map base_of done.new.items ≡ map base_of done.old.items ++ item_bases (map item_of items.now)) }
{
    for item in items {
        push_base(alloc, item, done)?;
    }
    Ok(())
}
