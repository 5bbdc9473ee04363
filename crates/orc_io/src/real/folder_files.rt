ghost use Rattle.std.specs.Prelude.{◌≡◌, ◌≤◌, [], None, IfOk, length};

use crate::errors::{FileError, ReadError, is_fault};
use crate::files::Files;
use crate::limits::FILE_LIMIT;
use crate::loops::read_expected;
use crate::reads::Reads;
use crate::real::std_source::StdSource;
use orc_ids::Bytes;
use std::alloc::Global;
use std::fs;
use std::fs::OpenFile;

/// The files of a runtime by their names, which are paths from the current folder. It tells nothing of
/// what they hold. A file that can't be opened is a fault, and so is each error of reading one.
#[derive(Drop)]
pub struct FolderFiles<R: fs::Files> {
    runtime: R,
    faults: u64,
    reads: Reads,
}

impl<R: fs::Files> FolderFiles<R> {
    pub fn new(runtime: R) -> FolderFiles<R>
        ensures holds { ⟦<FolderFiles<R> as Files>⟧.holds result ≡ None }
        ensures faults { ⟦<FolderFiles<R> as Files>⟧.faults result ≡ 0 }
        ensures read { ⟦<FolderFiles<R> as Files>⟧.reads result ≡ [] }
    {
        FolderFiles {
            runtime,
            faults: 0,
            reads: Reads::new(),
        }
    }
}

impl<R: fs::Files> Files for FolderFiles<R> {
    ghost holds = { λ _. None };

    ghost faults = { λ f. f.faults };

    ghost reads = { λ f. f.reads.list };

    fn read_file(&mut self, alloc: Global, name: &str) -> Result<Bytes, FileError> {
        let answer = read_by_name(alloc, &self.runtime, name);
        let failed = is_fault(&answer);
        if failed {
            self.faults = self.faults.saturating_add(1);
        }
        self.reads = self.reads.and(name, failed);
        answer
    }
}

/// A file's bytes, read into one buffer of its size and one byte more, which is where its end shows.
fn read_by_name<R: fs::Files>(alloc: Global, runtime: &R, name: &str) -> Result<Bytes, FileError>
    ensures { IfOk result (λ bytes. length bytes ≤ FILE_LIMIT) }
{
    let file = match fs::open(runtime, name) {
        Ok(file) => file,
        Err(_) => return Err(FileError::Failed),
    };
    let size = match file.metadata() {
        Ok(metadata) => metadata.len() as usize,
        Err(_) => return Err(FileError::Failed),
    };
    match read_expected(alloc, &mut StdSource::new(file), FILE_LIMIT, size) {
        Ok(bytes) => Ok(bytes),
        Err(ReadError::TooLong(_)) => Err(FileError::TooLong),
        Err(ReadError::Failed) => Err(FileError::Failed),
        Err(ReadError::NoMemory) => Err(FileError::NoMemory),
    }
}
