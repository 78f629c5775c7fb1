//! The texts of interfaces that modules keep.
ghost use Rattle.std.specs.Prelude.{◌≡◌, ◌++◌, [], ◌∷◌, ℕ, List, map, OnOk, IfOk, bytes_eq};
ghost use Rattle.std.specs.HashMap.{get_by};
ghost use Rattle.th_meaning.specs.View.{interface_of, program_of};
ghost use Rattle.th_units.specs.Units.{Named};
ghost use Rattle.th_agree.specs.Names.{IsLeastOf, kept};
ghost use Rattle.th_agree.specs.Agree.{Differs};
ghost use Rattle.th_agree.specs.Noted.{Entry, entry, Noted, clashing, text_seen, with_texts};

use crate::least::lesser;
use std::alloc::{AllocError, Global};
use std::collections::HashMap;
use th_meaning::{CoreInterface, CoreModule};

/// The text that is noted of a name.
fn text_of<'a>(texts: &HashMap<&'a [u8], &'a [u8]>, name: &[u8]) -> Option<&'a [u8]>
    ensures { result ≡ get_by (λ k. bytes_eq name.now k.now) texts.now }
{
    texts.get(name).copied()
}

/// Gives a name its text, unless the name is there.
#[tactic(auto, using(th_units::proofs::Adding::gets_name, th_units::proofs::Adding::keeps_name))]
fn add_text<'a>(
    texts: &mut HashMap<&'a [u8], &'a [u8]>,
    name: &'a [u8],
    text: &'a [u8],
) -> Result<(), AllocError>
    ensures { OnOk result (Named name.now text.entry texts.old texts.new) }
{
    match texts.get(name) {
        Some(_) => Ok(()),
        None => match texts.insert(name, text) {
            Ok(_) => Ok(()),
            Err(_) => Err(AllocError),
        },
    }
}

/// Whether two texts are the same.
fn is_same(one: &[u8], other: &[u8]) -> bool
    ensures { result ≡ bytes_eq one.now other.now }
{
    one == other
}

/// What is kept after a name with a text, where this text of the name was noted before.
fn clash_texts<'a>(
    noted: Option<&'a [u8]>,
    text: &'a [u8],
    least: Option<&'a [u8]>,
    name: &'a [u8],
) -> Option<&'a [u8]>
    ensures { kept result ≡ clashing bytes_eq (kept noted.entry) text.now (kept least.entry) name.now }
{
    match noted {
        None => least,
        Some(old) => {
            if is_same(old, text) {
                least
            } else {
                lesser(least, name)
            }
        }
    }
}

/// Notes a name with a text.
fn note_text<'a>(
    texts: &mut HashMap<&'a [u8], &'a [u8]>,
    name: &'a [u8],
    text: &'a [u8],
    least: &mut Option<&'a [u8]>,
) -> Result<(), AllocError>
    ensures { OnOk result ((done : List (Entry (List ℕ))) → Noted text_seen done texts.old (kept least.old) → Noted text_seen (done ++ entry name.now text.now ∷ []) texts.new (kept least.new)) }
{
    let noted = text_of(texts, name);
    add_text(texts, name, text)?;
    *least = clash_texts(noted, text, *least, name);
    Ok(())
}

/// Notes interfaces.
fn note_all<'a>(
    texts: &mut HashMap<&'a [u8], &'a [u8]>,
    interfaces: &'a [CoreInterface],
    least: &mut Option<&'a [u8]>,
) -> Result<(), AllocError>
    ensures { OnOk result ((done : List (Entry (List ℕ))) → Noted text_seen done texts.old (kept least.old) → Noted text_seen (done ++ with_texts (map interface_of interfaces.now)) texts.new (kept least.new)) }
{
    for interface in interfaces {
        note_text(
            texts,
            interface.name.as_bytes(),
            interface.canonical.as_slice(),
            least,
        )?;
    }
    Ok(())
}

/// The least name of an interface of which modules keep different texts.
pub(crate) fn differing(alloc: Global, modules: &[CoreModule]) -> Result<Option<&[u8]>, AllocError>
    ensures { IfOk result (λ least. IsLeastOf (Differs (program_of modules.now)) (kept least)) }
{
    let mut texts = HashMap::new(alloc);
    let mut least = None;
    for module in modules {
        note_all(&mut texts, &module.interfaces, &mut least)?;
    }
    Ok(least)
}
