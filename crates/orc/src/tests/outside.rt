//! The outside of a call, in memory.

use super::calls::Call;
use super::contents::{Files, Shelf, put_files};
use orc_ids::Bytes;
use orc_io::{MemFiles, MemSink, MemSource, SureFiles, SureSink, SureSource};
use std::alloc::{AllocError, Global};
use std::test::Fail;

/// Devices that fail where they are told to.
#[derive(Drop)]
pub struct Outside {
    pub source: MemSource,
    pub files: MemFiles,
    pub out: MemSink,
    pub log: MemSink,
}

/// Devices that never fail.
#[derive(Drop)]
pub struct SureOutside {
    pub source: SureSource,
    pub files: SureFiles,
    pub out: SureSink,
    pub log: SureSink,
}

impl Outside {
    /// The devices of a call.
    pub fn new(alloc: Global, call: &Call) -> Result<Outside, Fail> {
        let faults = call.faults;
        Ok(Outside {
            source: source_of(alloc, call.source, faults.source)?,
            files: files_of(alloc, call.files, faults.files)?,
            out: sink_of(alloc, faults.out, faults.out_room)?,
            log: sink_of(alloc, faults.log, faults.log_room)?,
        })
    }
}

impl SureOutside {
    /// The devices of a call in which nothing fails.
    pub fn new(alloc: Global, call: &Call) -> Result<SureOutside, Fail> {
        let mut files = SureFiles::new(alloc);
        put_files(alloc, &mut files, call.files)?;
        let text = Bytes::copy_of(alloc, call.source.as_bytes())?;
        Ok(SureOutside {
            source: SureSource::new(text),
            files,
            out: SureSink::new(alloc),
            log: SureSink::new(alloc),
        })
    }
}

impl Shelf for MemFiles {
    fn place(&mut self, alloc: Global, name: &str, bytes: Bytes) -> Result<(), AllocError> {
        self.put(alloc, name, bytes)
    }
}

impl Shelf for SureFiles {
    fn place(&mut self, alloc: Global, name: &str, bytes: Bytes) -> Result<(), AllocError> {
        self.put(alloc, name, bytes)
    }
}

/// A source of this text, of which one read may fail.
fn source_of(alloc: Global, text: &str, failing: Option<u64>) -> Result<MemSource, Fail> {
    let failing = listed(alloc, failing)?;
    let text = Bytes::copy_of(alloc, text.as_bytes())?;
    Ok(MemSource::new(text, failing))
}

/// Files, of which one read may fail.
fn files_of(alloc: Global, files: Files, failing: Option<u64>) -> Result<MemFiles, Fail> {
    let mut shelf = MemFiles::new(alloc, listed(alloc, failing)?);
    put_files(alloc, &mut shelf, files)?;
    Ok(shelf)
}

/// A sink with so much room, of which one write may fail.
fn sink_of(alloc: Global, failing: Option<u64>, room: usize) -> Result<MemSink, Fail> {
    let failing = listed(alloc, failing)?;
    Ok(MemSink::new(alloc, failing, room)?)
}

/// A list of one number, or of none.
fn listed(alloc: Global, number: Option<u64>) -> Result<Vec<u64>, AllocError> {
    Vec::from_slice(alloc, number.as_slice())
}
