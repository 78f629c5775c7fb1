//! Whether a program puts bytes, and which.
ghost use Rattle.std.specs.Prelude.{◌≡◌, ◌≢◌, ◌↔◌, ◌∷◌, ◌++◌, ◌<◌, [], ℕ, List, IsTrue, IfNone, IfOk, IfSome, MatchOption, codes, map};
ghost use Rattle.th_meaning.specs.Program.{ProgramUnit, full_name, of_routine};
ghost use Rattle.th_meaning.specs.Trees.{BodyTree};
ghost use Rattle.th_meaning.specs.View.{body_of, module_of, sig_of, stmt_of, unit_of};
ghost use Rattle.th_puts.specs.Form.{AreBytes, IsPuts, PutsBytes, lone_module, main_unit, plain_signature, put_stmt, puts_body};

use std::alloc::{AllocError, Global};
use th_meaning::{CoreBody, CoreExpr, CoreModule, CoreSig, CoreStmt, CoreUnit, UnitKind};
use th_tree::Name;

/// The most bytes that a program of this form puts.
const LIMIT: usize = 4999;

/// A program that puts bytes: the name of its one module, and the bytes in the order in which it puts them.
#[derive(Drop)]
pub struct Puts {
    pub name: Name,
    pub bytes: Vec<u8>,
}

/// The byte that a statement puts, where it does nothing else.
fn byte_of(stmt: &CoreStmt) -> Option<u8>
    ensures some { IfSome result (λ b. stmt_of stmt.now ≡ put_stmt b) }
    ensures small { IfSome result (λ b. b < 256) }
    ensures none { IfNone result ((b : ℕ) → b < 256 → stmt_of stmt.now ≡ put_stmt b → ⊥) }
{
    match stmt {
        CoreStmt::PutByte(CoreExpr::Number(n)) if *n < 256 => Some(*n as u8),
        _ => None,
    }
}

/// The bytes that statements put, where they do nothing else.
fn bytes_of(alloc: Global, body: &CoreBody) -> Result<Option<Vec<u8>>, AllocError>
    ensures some { IfOk result (λ r. IfSome r (λ bytes. (body_of body.now ≡ puts_body bytes.items) × AreBytes bytes.items)) }
    ensures none { IfOk result (λ r. IfNone r ((bytes : List ℕ) → AreBytes bytes → body_of body.now ≡ puts_body bytes → ⊥)) }
{
    let mut bytes = Vec::new(alloc);
    let mut rest = body;
    loop {
        match rest {
            CoreBody::NoStmt => return Ok(Some(bytes)),
            CoreBody::MoreStmt(first, others) => {
                match byte_of(first) {
                    Some(byte) => bytes.push(byte)?,
                    None => return Ok(None),
                }
                rest = others;
            }
        }
    }
}

/// Whether a signature is that of a routine that takes nothing, gives nothing and signals nothing.
fn is_plain(sig: &CoreSig) -> bool
    ensures { IsTrue result ↔ (sig_of sig.now ≡ plain_signature) }
{
    !sig.iterator && sig.formals.is_empty() && sig.gives.is_none() && sig.signals.is_empty()
}

/// The bytes after the prefix; None exactly where they do not begin with it.
fn bytes_after<'a>(prefix: &[u8], bytes: &'a [u8]) -> Option<&'a [u8]>
    ensures { MatchOption result ((rest : List ℕ) → bytes.now ≢ prefix.now ++ rest) (λ rest. bytes.now ≡ prefix.now ++ rest.now) }
{
    bytes.strip_prefix(prefix)
}

/// Whether the name is the full name of the item `main` of the module.
fn is_main_name(module_name: &[u8], name: &[u8]) -> bool
    ensures { IsTrue result ↔ (name.now ≡ full_name module_name.now (codes "main")) }
{
    match bytes_after(module_name, name) {
        None => false,
        Some(rest) => rest == b"/main".as_slice(),
    }
}

/// Whether a unit is a routine without type parameters.
fn is_routine(unit: &CoreUnit) -> bool
    ensures { IsTrue result ↔ ((unit_of unit.now).sort ≡ of_routine) × ((unit_of unit.now).params ≡ 0) × ((unit_of unit.now).clauses ≡ []) }
{
    matches!(unit.kind, UnitKind::Routine) && unit.params == 0 && unit.clauses.is_empty()
}

/// Whether a unit is the routine `main` of the module, and takes, gives and signals nothing.
fn is_main(module_name: &Name, unit: &CoreUnit) -> bool
    ensures { IsTrue result ↔ (unit_of unit.now ≡ main_unit module_name.now (body_of unit.now.body)) }
{
    is_main_name(module_name.as_bytes(), unit.name.as_bytes())
        && is_routine(unit)
        && is_plain(&unit.sig)
}

/// The unit of a module that declares nothing else.
fn only_unit(program: &CoreModule) -> Option<&CoreUnit>
    ensures some { IfSome result (λ unit. module_of program.now ≡ lone_module program.now.name (unit_of unit.now)) }
    ensures none { IfNone result ((unit : ProgramUnit) → module_of program.now ≡ lone_module program.now.name unit → ⊥) }
{
    if program.interfaces.is_empty() && program.classes.is_empty() && program.units.len() == 1 {
        Some(&program.units[0])
    } else {
        None
    }
}

/// The routine `main` of a module that declares nothing else.
#[tactic(auto, using(crate::proofs::Forms::not_main))]
fn only_main(program: &CoreModule) -> Option<&CoreUnit>
    ensures some { IfSome result (λ unit. module_of program.now ≡ lone_module program.now.name (main_unit program.now.name (body_of unit.now.body))) }
    ensures none { IfNone result ((body : BodyTree) → module_of program.now ≡ lone_module program.now.name (main_unit program.now.name body) → ⊥) }
{
    let unit = match only_unit(program) {
        Some(unit) => unit,
        None => return None,
    };
    if is_main(&program.name, unit) {
        Some(unit)
    } else {
        None
    }
}

/// What a module puts, where it puts bytes.
#[tactic(auto, using(crate::proofs::Forms::no_main, crate::proofs::Forms::no_puts, crate::proofs::Forms::too_many))]
fn puts_in(alloc: Global, program: &CoreModule) -> Result<Option<Puts>, AllocError>
    ensures some { IfOk result (λ r. IfSome r (λ puts. PutsBytes (module_of program.now ∷ []) puts.name puts.bytes.items)) }
    ensures none { IfOk result (λ r. IfNone r (IsPuts (module_of program.now ∷ []) → ⊥)) }
{
    let unit = match only_main(program) {
        Some(unit) => unit,
        None => return Ok(None),
    };
    let bytes = match bytes_of(alloc, &unit.body)? {
        Some(bytes) => bytes,
        None => return Ok(None),
    };
    if bytes.len() > LIMIT {
        return Ok(None);
    }
    let name = program.name.try_clone(alloc)?;
    Ok(Some(Puts { name, bytes }))
}

/// What a program puts, where it is one module that declares nothing but its routine `main`, which puts at most 4,999
/// bytes and does nothing else. The only error is want of memory.
pub fn puts_of(alloc: Global, modules: &[CoreModule]) -> Result<Option<Puts>, AllocError>
    ensures some { IfOk result (λ r. IfSome r (λ puts. PutsBytes (map module_of modules.now) puts.name puts.bytes.items)) }
    ensures none { IfOk result (λ r. IfNone r (IsPuts (map module_of modules.now) → ⊥)) }
{
    if modules.len() == 1 {
        puts_in(alloc, &modules[0])
    } else {
        Ok(None)
    }
}
