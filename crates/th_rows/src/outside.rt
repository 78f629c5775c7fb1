//! The source, the sink and the files in memory, against answers by hand.

use std::alloc::{AllocError, Global};
use std::test::Fail;
use th_world::{Failed, FileError, Files, MemFiles, MemSink, MemSource, Sink, Source};

#[test]
fn source(rt: HostRuntime) -> Result<(), Fail> {
    let bytes = [7, 8].to_vec(rt.alloc())?;
    let mut source = MemSource::new(bytes, [3, 1].to_vec(rt.alloc())?);
    for &answer in &[Ok(Some(7)), Err(Failed), Ok(Some(8)), Err(Failed), Ok(None)] {
        assert_eq!(rt; source.next(), answer);
    }
    Ok(())
}

#[test]
fn sink(rt: HostRuntime) -> Result<(), Fail> {
    let mut sink = MemSink::new(rt.alloc(), 2, [0].to_vec(rt.alloc())?)?;
    for &(byte, answer) in &[(1, Err(Failed)), (2, Ok(())), (3, Ok(())), (4, Err(Failed))] {
        assert_eq!(rt; sink.put(byte), answer, "at {byte}");
    }
    assert_eq!(rt; sink.bytes(), [2, 3].as_slice());
    Ok(())
}

/// A name and bytes.
fn entry(alloc: Global, name: &str, bytes: &[u8]) -> Result<(String, Vec<u8>), AllocError> {
    Ok((name.to_string(alloc)?, bytes.to_vec(alloc)?))
}

#[test]
fn files(rt: HostRuntime) -> Result<(), Fail> {
    let alloc = rt.alloc();
    let contents = vec![in alloc; entry(alloc, "a", &[1])?, entry(alloc, "a", &[2, 2])?]?;
    let mut files = MemFiles::new(alloc, contents, 1, [2].to_vec(alloc)?)?;
    let found = files.read(alloc, "a", 2)?;
    assert_eq!(rt; found.as_slice(), [2, 2].as_slice());
    for &(name, limit, error) in &[
        ("a", 1, FileError::TooLarge),
        ("zz", 9, FileError::Failed),
        ("zz", 9, FileError::Absent),
    ] {
        assert_eq!(rt; files.read(alloc, name, limit).err(), Some(error));
    }
    for &(name, byte, answer) in &[("a", 5, Ok(())), ("b", 6, Err(Failed))] {
        let (name, bytes) = entry(alloc, name, &[byte])?;
        assert_eq!(rt; files.write(name, bytes), answer);
    }
    assert_eq!(rt; files.get("a"), Some([5].as_slice()));
    assert_eq!(rt; (files.get("b").is_some(), files.written()), (false, 1));
    Ok(())
}

#[test]
fn texts(rt: HostRuntime) -> Result<(), Fail> {
    let failed = format!(in rt.alloc(); "{Failed}")?;
    assert_eq!(rt; failed.as_str(), "the call failed");
    for &(error, text) in &[
        (FileError::Absent, "no file has this name"),
        (
            FileError::TooLarge,
            "the file has more bytes than the limit",
        ),
        (FileError::Failed, "the file could not be read"),
        (FileError::Memory, "no memory for the bytes of the file"),
    ] {
        let shown = format!(in rt.alloc(); "{error}")?;
        assert_eq!(rt; shown.as_str(), text);
    }
    Ok(())
}
