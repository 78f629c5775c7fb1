//! The bytes of files.
ghost use Rattle.std.specs.Prelude.{◌≡◌, ◌≤◌, ◌∷◌, ◌++◌, [], length, map, string_bytes, IfOk, IfErr, OnOk};
ghost use Rattle.th_files.specs.Reading.{AreThere, Holds, IsReadError, MayBeUnread, error_at};

use std::alloc::Global;
use th_world::{FileError, Files};

/// Why files are not read: the file at this place among them can't be read, or there is no memory.
#[derive(Clone, Copy, Debug, PartialEq, Eq)]
pub enum ReadError {
    File(usize),
    Memory,
}

/// Why one file is not read.
#[derive(Clone, Copy)]
enum OneError {
    Unread,
    Memory,
}

/// The bytes of a file, at most `limit` of them.
fn read_one<F: Files>(
    alloc: Global,
    name: &str,
    limit: u32,
    files: &mut F,
) -> Result<Vec<u8>, OneError>
    ensures holds { IfOk result (λ bytes. Holds (F.map files.old) name.now bytes.items) }
    ensures within { IfOk result (λ bytes. length bytes.items ≤ limit) }
    ensures no_fault { OnOk result (F.faults files.new ≡ F.faults files.old) }
    ensures unread { IfErr result (λ e. MayBeUnread e limit (F.map files.old) name.now (F.faults files.old) (F.faults files.new)) }
    ensures same_files { F.map files.new ≡ F.map files.old }
    ensures same_written { F.written files.new ≡ F.written files.old }
{
    match files.read(alloc, name, limit) {
        Ok(bytes) => Ok(bytes),
        Err(FileError::Absent) => Err(OneError::Unread),
        Err(FileError::TooLarge) => Err(OneError::Unread),
        Err(FileError::Failed) => Err(OneError::Unread),
        Err(FileError::Memory) => Err(OneError::Memory),
    }
}

/// Why files are not read, where that at place k is the first that isn't.
fn error_at(k: usize, error: OneError) -> ReadError
    ensures { result ≡ error_at k error }
{
    match error {
        OneError::Unread => ReadError::File(k),
        OneError::Memory => ReadError::Memory,
    }
}

/// Keeps the bytes of a file behind those of others.
fn keep(done: &mut Vec<Vec<u8>>, bytes: Vec<u8>) -> Result<(), ReadError>
    ensures kept { OnOk result (done.new.items ≡ done.old.items ++ bytes ∷ []) }
    ensures memory { IfErr result (λ e. e ≡ ReadError.Memory) }
{
    match done.push(bytes) {
        Ok(()) => Ok(()),
        Err(_) => Err(ReadError::Memory),
    }
}

/// The bytes of files, in order, at most `limit` of each; or the place of the first that can't be read. No file is written.
pub fn read_files<F: Files>(
    alloc: Global,
    names: &[String],
    limit: u32,
    files: &mut F,
) -> Result<Vec<Vec<u8>>, ReadError>
    ensures there { IfOk result (λ texts. AreThere limit (F.map files.old) (map string_bytes names.now) (map (λ t. t.items) texts.items)) }
    ensures no_fault { OnOk result (F.faults files.new ≡ F.faults files.old) }
    ensures unread { IfErr result (λ e. IsReadError e limit (F.map files.old) (map string_bytes names.now) (F.faults files.old) (F.faults files.new)) }
    ensures same_files { F.map files.new ≡ F.map files.old }
    ensures same_written { F.written files.new ≡ F.written files.old }
{
    let mut done = Vec::new(alloc);
    for k in 0..names.len() {
        match read_one(alloc, names[k].as_str(), limit, files) {
            Ok(bytes) => keep(&mut done, bytes)?,
            Err(error) => return Err(error_at(k, error)),
        }
    }
    Ok(done)
}
