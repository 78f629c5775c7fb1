//! The image of a program.
ghost use Rattle.std.specs.Prelude.{◌≡◌, ◌≤◌, ◌∷◌, [], IfOk, codes, length};
ghost use Rattle.th_meaning.specs.Program.{full_name};
ghost use Rattle.th_puts.specs.Form.{AreBytes, puts_program};
ghost use Rattle.th_link.specs.Agrees.{Agrees};
ghost use Rattle.th_link.specs.Ends.{EndsInTime};
ghost use Rattle.th_link.specs.Puts.{IsLawful, puts_image};

use crate::code::code_of;
use std::alloc::{AllocError, Global};
use th_elf::{ByteList, Image, Map, MapList, NumberList};
use th_puts::Puts;

/// The address at which an image is loaded: that of its first code word.
const BASE: u32 = 0x0001_0000;

/// The full name of the item `main` of a module.
fn main_of(alloc: Global, module_name: &[u8]) -> Result<Vec<u8>, AllocError>
    ensures { IfOk result (λ name. name.items ≡ full_name module_name.now (codes "main")) }
{
    let mut bytes = Vec::from_slice(alloc, module_name)?;
    bytes.extend_from_slice(b"/main")?;
    Ok(bytes)
}

/// The map that has the unit `main` of a module, at the image's first address.
fn map_of(alloc: Global, module_name: &[u8]) -> Result<MapList, AllocError>
    ensures { IfOk result (λ map. map ≡ record { at = BASE; unit = full_name module_name.now (codes "main") } ∷ []) }
{
    let name = main_of(alloc, module_name)?;
    let mut maps = Vec::new(alloc);
    maps.push(Map {
        at: BASE,
        unit: ByteList::of(name),
    })?;
    Ok(MapList::of(maps))
}

/// The image of a program that puts at most 4,999 bytes. It agrees with the program (docs/DEFINITIONS.md: agreement), can be
/// written as a file, and its run ends after as many instructions as it has code words, at most 14,999, whatever the input.
/// Equal programs have equal images. The only error is want of memory.
pub fn link(alloc: Global, program: &Puts) -> Result<Image, AllocError>
    requires bytes { AreBytes program.now.bytes.items }
    requires few { length program.now.bytes.items ≤ 4999 }
    ensures agrees { IfOk result (λ image. Agrees image (puts_program program.now.name program.now.bytes.items)) }
    ensures lawful { IfOk result (λ image. IsLawful image) }
    ensures ends { IfOk result (λ image. EndsInTime image) }
    ensures few_words { IfOk result (λ image. length image.code ≤ 14999) }
    ensures made { IfOk result (λ image. image ≡ puts_image (full_name program.now.name (codes "main")) program.now.bytes.items) }
{
    let code = NumberList::of(code_of(alloc, &program.bytes)?);
    let map = map_of(alloc, program.name.as_bytes())?;
    let tables = ByteList::of(Vec::new(alloc));
    Ok(Image {
        code,
        tables,
        entry: BASE,
        map,
    })
}
