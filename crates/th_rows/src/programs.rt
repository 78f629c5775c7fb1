//! Programs that put bytes, their counts and their images, against docs/LANGUAGE.md and docs/FORMATS.md, by hand.
use std::alloc::{AllocError, Global};
use std::test::Fail;
use th_elf::Image;
use th_link::link;
use th_meaning::{
    CoreBody, CoreExpr, CoreModule, CoreSig, CoreStmt, CoreType, CoreUnit, UnitKind, depth, locals,
    nodes,
};
use th_puts::puts_of;
use th_tree::Name;

/// A name of these letters.
fn name(alloc: Global, letters: &str) -> Result<Name, AllocError> {
    Ok(Name::of(letters.as_bytes().to_vec(alloc)?))
}

/// The statements and one more before them.
fn before(alloc: Global, stmt: CoreStmt, rest: CoreBody) -> Result<CoreBody, AllocError> {
    Ok(CoreBody::MoreStmt(Box::new(alloc, stmt)?, Box::new(alloc, rest)?))
}

/// Statements that put these numbers.
fn puts(alloc: Global, numbers: &[u32]) -> Result<CoreBody, AllocError> {
    let mut body = CoreBody::NoStmt;
    for &number in numbers {
        body = before(alloc, CoreStmt::PutByte(CoreExpr::Number(number)), body)?;
    }
    Ok(body.turned(CoreBody::NoStmt))
}

/// A routine that takes nothing, gives nothing and signals nothing.
fn routine(alloc: Global, unit: &str, body: CoreBody) -> Result<CoreUnit, AllocError> {
    Ok(CoreUnit {
        name: name(alloc, unit)?,
        kind: UnitKind::Routine,
        params: 0,
        clauses: Vec::new(alloc),
        sig: CoreSig {
            iterator: false,
            formals: Vec::new(alloc),
            gives: None,
            signals: Vec::new(alloc),
        },
        body,
    })
}

/// A module that declares nothing but this unit.
fn module(alloc: Global, letters: &str, unit: CoreUnit) -> Result<CoreModule, AllocError> {
    Ok(CoreModule {
        name: name(alloc, letters)?,
        interfaces: Vec::new(alloc),
        classes: Vec::new(alloc),
        units: vec![in alloc; unit]?,
    })
}

/// The bytes that a program of one module puts, where it is of the form that is built.
fn bytes(alloc: Global, program: CoreModule) -> Result<Option<Vec<u8>>, AllocError> {
    let modules = vec![in alloc; program]?;
    match puts_of(alloc, &modules)? {
        Some(puts) => Ok(Some(puts.bytes.as_slice().to_vec(alloc)?)),
        None => Ok(None),
    }
}

/// The module's name, the unit's, the numbers that it puts, and the bytes where the form is one that is built.
const FORMS: [(&str, &str, &[u32], Option<&[u8]>); 8] = [
    ("hello", "hello/main", &[72, 105], Some(b"Hi")),
    ("hello", "hello/main", &[], Some(b"")),
    ("a", "a/main", &[0, 255], Some(b"\x00\xff")),
    ("a", "a/main", &[0, 256], None),
    ("hello", "hello/f", &[72], None),
    ("hello", "main", &[72], None),
    ("hello", "other/main", &[72], None),
    ("hello", "hello/main/main", &[72], None),
];

#[test]
fn forms(rt: HostRuntime) -> Result<(), Fail> {
    let alloc = rt.alloc();
    for &(letters, unit, numbers, found) in &FORMS {
        let unit = routine(alloc, unit, puts(alloc, numbers)?)?;
        let bytes = bytes(alloc, module(alloc, letters, unit)?)?;
        assert_eq!(rt; bytes.as_deref(), found, "{letters}: {numbers:?}");
    }
    Ok(())
}

#[test]
fn other_statements(rt: HostRuntime) -> Result<(), Fail> {
    let alloc = rt.alloc();
    let statements = vec![in alloc;
        CoreStmt::PutInt(CoreExpr::Number(72)),
        CoreStmt::PutByte(CoreExpr::Truth(true)),
        CoreStmt::PutByte(CoreExpr::GetByte),
        CoreStmt::Return,
    ]?;
    for stmt in statements {
        let body = before(alloc, stmt, puts(alloc, &[72])?)?;
        let unit = routine(alloc, "a/main", body)?;
        assert!(rt; bytes(alloc, module(alloc, "a", unit)?)?.is_none());
    }
    Ok(())
}

/// The routine `main` of the module `a`, which puts one byte.
fn main_of_a(alloc: Global) -> Result<CoreUnit, AllocError> {
    routine(alloc, "a/main", puts(alloc, &[72])?)
}

/// Whether the module `a` of this unit alone is of the form that is built.
fn is_built(alloc: Global, unit: CoreUnit) -> Result<bool, AllocError> {
    Ok(bytes(alloc, module(alloc, "a", unit)?)?.is_some())
}

#[test]
fn main_that_is_an_iterator(rt: HostRuntime) -> Result<(), Fail> {
    let mut unit = main_of_a(rt.alloc())?;
    unit.sig.iterator = true;
    assert!(rt; !is_built(rt.alloc(), unit)?);
    Ok(())
}

#[test]
fn main_that_takes(rt: HostRuntime) -> Result<(), Fail> {
    let mut unit = main_of_a(rt.alloc())?;
    unit.sig.formals.push(CoreType::Int)?;
    assert!(rt; !is_built(rt.alloc(), unit)?);
    Ok(())
}

#[test]
fn main_that_gives(rt: HostRuntime) -> Result<(), Fail> {
    let mut unit = main_of_a(rt.alloc())?;
    unit.sig.gives = Some(CoreType::Int);
    assert!(rt; !is_built(rt.alloc(), unit)?);
    Ok(())
}

#[test]
fn main_that_signals(rt: HostRuntime) -> Result<(), Fail> {
    let signal = name(rt.alloc(), "e/x")?;
    let mut unit = main_of_a(rt.alloc())?;
    unit.sig.signals.push(signal)?;
    assert!(rt; !is_built(rt.alloc(), unit)?);
    Ok(())
}

#[test]
fn generic_main(rt: HostRuntime) -> Result<(), Fail> {
    let mut unit = main_of_a(rt.alloc())?;
    unit.params = 1;
    assert!(rt; !is_built(rt.alloc(), unit)?);
    Ok(())
}

#[test]
fn an_initializer(rt: HostRuntime) -> Result<(), Fail> {
    let class = name(rt.alloc(), "a/c")?;
    let mut unit = main_of_a(rt.alloc())?;
    unit.kind = UnitKind::Init(class);
    assert!(rt; !is_built(rt.alloc(), unit)?);
    Ok(())
}

#[test]
fn no_module(rt: HostRuntime) -> Result<(), Fail> {
    let modules = Vec::new(rt.alloc());
    assert!(rt; puts_of(rt.alloc(), &modules)?.is_none());
    Ok(())
}

/// The module `a` of one routine `main`.
fn module_a(alloc: Global) -> Result<CoreModule, AllocError> {
    module(alloc, "a", main_of_a(alloc)?)
}

#[test]
fn two_modules(rt: HostRuntime) -> Result<(), Fail> {
    let first = module_a(rt.alloc())?;
    let second = module_a(rt.alloc())?;
    let modules = vec![in rt.alloc(); first, second]?;
    assert!(rt; puts_of(rt.alloc(), &modules)?.is_none());
    Ok(())
}

#[test]
fn two_units(rt: HostRuntime) -> Result<(), Fail> {
    let second = main_of_a(rt.alloc())?;
    let mut program = module_a(rt.alloc())?;
    program.units.push(second)?;
    assert!(rt; bytes(rt.alloc(), program)?.is_none());
    Ok(())
}

#[test]
fn most_bytes(rt: HostRuntime) -> Result<(), Fail> {
    let alloc = rt.alloc();
    for &(count, is_built) in &[(4999, true), (5000, false)] {
        let mut body = CoreBody::NoStmt;
        for _ in 0..count {
            body = before(alloc, CoreStmt::PutByte(CoreExpr::Number(72)), body)?;
        }
        let unit = routine(alloc, "a/main", body)?;
        let found = bytes(alloc, module(alloc, "a", unit)?)?;
        assert_eq!(rt; found.is_some(), is_built, "{count}");
    }
    Ok(())
}

#[test]
fn counts(rt: HostRuntime) -> Result<(), Fail> {
    let unit = main_of_a(rt.alloc())?;
    assert_eq!(rt; [nodes(&unit), locals(&unit), depth(&unit)], [3, 0, 1]);
    Ok(())
}

/// The image of a program of one module, where it is of the form that is built.
fn image(alloc: Global, program: CoreModule) -> Result<Option<Image>, AllocError> {
    let modules = vec![in alloc; program]?;
    match puts_of(alloc, &modules)? {
        Some(puts) => Ok(Some(link(alloc, &puts)?)),
        None => Ok(None),
    }
}

/// The words that put `H` and end the run.
const WORDS: [u32; 5] = [
    0x0480_0513,
    0x0010_0893,
    0x0000_0073,
    0x0030_0893,
    0x0000_0073,
];

#[test]
fn images(rt: HostRuntime) -> Result<(), Fail> {
    let alloc = rt.alloc();
    let image = image(alloc, module(alloc, "a", main_of_a(alloc)?)?)?.expect(&rt, "an image");
    assert_eq!(rt; image.code.as_slice(), WORDS.as_slice());
    assert_eq!(rt; image.tables.len(), 0);
    assert_eq!(rt; image.entry, 0x0001_0000);
    let maps = image.map.as_slice();
    assert_eq!(rt; maps.len(), 1);
    assert_eq!(rt; maps[0].at, 0x0001_0000);
    assert_eq!(rt; maps[0].unit.as_slice(), b"a/main".as_slice());
    Ok(())
}
