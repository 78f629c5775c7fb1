//! The files of the system. They tell nothing of their content.

ghost use Rattle.std.specs.Prelude.{◌≡◌, ◌≤◌, ℕ, None, IfOk, length};

use std::alloc::{AllocError, Global};
use std::io::Read;
use std::{fs, rt};
use th_world::{Failed, FileError, Files};

/// How many bytes a file is read by at most at once.
const CHUNK: usize = 4096;

/// The files of the system, through its runtime.
#[derive(Drop)]
pub struct RealFiles<'a, R> {
    runtime: &'a R,
    faults: u64,
}

impl<'a, R> RealFiles<'a, R> {
    /// The files of the system, without a fault so far.
    pub fn new(runtime: &'a R) -> Self {
        RealFiles { runtime, faults: 0 }
    }
}

/// Reads a file to its end, in turns of at least one byte, so that the limit ends it.
fn read_within<F: Read + Drop>(alloc: Global, mut file: F, limit: u32) -> Result<Vec<u8>, FileError>
    ensures { IfOk result (λ bytes. length bytes.items ≤ limit) }
{
    let mut bytes = Vec::new(alloc);
    let mut chunk = [0; CHUNK];
    for _turn in 0..u64::from(limit) + 1 {
        match file.read(&mut chunk) {
            Ok(0) => return Ok(bytes),
            Ok(count) if count > limit as usize - bytes.len() => return Err(FileError::TooLarge),
            Ok(count) => {
                if bytes.extend_from_slice(&chunk[..count]).is_err() {
                    return Err(FileError::Memory);
                }
            }
            Err(_) => return Err(FileError::Failed),
        }
    }
    Err(FileError::TooLarge)
}

impl<'a, R: rt::Files> Files for RealFiles<'a, R> {
    ghost map = { λ _. None };

    ghost written = { λ _. None };

    ghost faults = { λ s. s.faults };

    /// A file that can't be opened is absent.
    fn read(&mut self, alloc: Global, name: &str, limit: u32) -> Result<Vec<u8>, FileError> {
        let read = match fs::open(self.runtime, name) {
            Ok(file) => read_within(alloc, file, limit),
            Err(_) => Err(FileError::Absent),
        };
        match read {
            Ok(_) | Err(FileError::Memory) => {}
            Err(_) => self.faults = self.faults.saturating_add(1),
        }
        read
    }

    fn write(&mut self, name: String, bytes: Vec<u8>) -> Result<(), Failed> {
        match fs::write(self.runtime, name.as_str(), bytes.as_slice()) {
            Ok(()) => Ok(()),
            Err(_) => {
                self.faults = self.faults.saturating_add(1);
                Err(Failed)
            }
        }
    }
}
