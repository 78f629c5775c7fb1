//! ELF executables: the file that an image is written as, and the segments of files of any maker.
#![tactic(auto)]

mod error;
mod file;
mod header;
mod image;
mod judge;
mod lists;
mod read;
mod segments;
mod write;

pub use error::{ElfError, Field};
pub use image::{Image, Map, MapList};
pub use lists::{ByteList, NumberList};
pub use read::read_elf;
pub use segments::{Segment, SegmentList, Segments};
pub use write::write_elf;
