//! The adapters over real files and streams.
use crate::tests::outside::files::reads;
use orc_ids::Bytes;
use orc_io::{
    FILE_LIMIT, FileError, FolderFiles, ReadError, Source, StdSink, StdSource, read_source,
    write_all,
};
use std::alloc::{AllocError, Global};
use std::fs;
use std::test::Fail;

/// How many bytes a real file gives as a source, by the limit of a file.
fn source_length(rt: &HostRuntime, name: &str) -> Result<usize, Fail> {
    let mut source = StdSource::new(fs::open(rt, name)?);
    match read_source(rt.alloc(), &mut source, FILE_LIMIT) {
        Ok(bytes) => Ok(bytes.len()),
        Err(_) => Err(Fail::from("not read")),
    }
}

/// So many times the byte 5.
fn fives(alloc: Global, count: usize) -> Result<Bytes, AllocError> {
    let mut text = Vec::new(alloc);
    text.resize(count, 5)?;
    Ok(Bytes::from_vec(text))
}

/// Writes as many bytes as a file may have, and then one more, and removes the file. Whether they are
/// written, read back whole from the folder, and as a source; whether the longer file is written, and
/// refused; whether the removed file is missing; and whether a folder is no file.
fn limit_is_read(rt: &HostRuntime, name: &str) -> Result<[bool; 7], Fail> {
    let alloc = rt.alloc();
    let text = fives(alloc, FILE_LIMIT)?;
    let mut files = FolderFiles::new(rt);
    let mut sink = StdSink::new(fs::create(rt, name)?);
    let written = write_all(&mut sink, text.as_slice()) == Ok(());
    let read = reads(alloc, &mut files, name, Ok(text.as_slice()));
    let source = source_length(rt, name)? == FILE_LIMIT;
    let more = write_all(&mut sink, b"x") == Ok(());
    let long = reads(alloc, &mut files, name, Err(FileError::TooLong));
    fs::remove_file(rt, name)?;
    let gone = reads(alloc, &mut files, name, Err(FileError::Failed));
    let folder = reads(alloc, &mut files, ".", Err(FileError::Failed));
    Ok([written, read, source, more, long, gone, folder])
}

#[test]
fn a_real_file_is_read_up_to_its_limit(rt: HostRuntime) -> Result<(), Fail> {
    let name = "orc_io_real_files_and_streams.bin";
    assert_eq!(rt; limit_is_read(&rt, name)?, [true; 7]);
    Ok(())
}

// Reading no bytes and writing none doesn't wait on a terminal.
#[test]
fn standard_streams_are_read_and_written(rt: HostRuntime) {
    assert!(rt; StdSource::new(rt.stdin()).read(&mut []) == Ok(0));
    assert!(rt; write_all(&mut StdSink::new(rt.stdout()), b"").is_ok());
    let error = write_all(&mut StdSink::new(rt.stderr()), b"to standard error\n");
    assert!(rt; error.is_ok());
}
