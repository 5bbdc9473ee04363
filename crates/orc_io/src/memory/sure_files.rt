ghost use Rattle.std.specs.Prelude.{◌≡◌, [], Some, OnOk, OnErr, IfSome, List, ℕ, unwrap_or};
ghost use Rattle.std.specs.HashMap.{get_by_text};
ghost use Rattle.orc_io.specs.Contents.{HasContent, KeepsOtherFiles};

use crate::errors::FileError;
use crate::files::Files;
use crate::memory::file_table::{FileTable, copy_within_limit, put_file};
use crate::reads::Reads;
use orc_ids::Bytes;
use std::alloc::{AllocError, Global};
use std::collections::HashMap;

/// Files in memory that never fail: a name that was never given is an empty file. They tell what they
/// hold.
#[derive(Drop)]
pub struct SureFiles {
    contents: FileTable,
    reads: Reads,
}

impl SureFiles {
    /// Files that are all empty.
    pub fn new(alloc: Global) -> SureFiles
        ensures empty { IfSome (⟦<SureFiles as Files>⟧.holds result) (λ contents.
            (name : List ℕ) → contents name ≡ Some []) }
        ensures read { ⟦<SureFiles as Files>⟧.reads result ≡ [] }
    {
        SureFiles {
            contents: HashMap::new(alloc),
            reads: Reads::new(),
        }
    }

    /// Puts a file under a name, in place of what the name had.
    pub fn put(&mut self, alloc: Global, name: &str, bytes: Bytes) -> Result<(), AllocError>
        ensures there { OnOk result (HasContent (⟦<SureFiles as Files>⟧.holds self.new) name.now bytes) }
        ensures others { OnOk result (KeepsOtherFiles (⟦<SureFiles as Files>⟧.holds self.old)
            (⟦<SureFiles as Files>⟧.holds self.new) name.now) }
        ensures err { OnErr result (⟦<SureFiles as Files>⟧.holds self.new ≡ ⟦<SureFiles as Files>⟧.holds self.old) }
        ensures read { ⟦<SureFiles as Files>⟧.reads self.new ≡ ⟦<SureFiles as Files>⟧.reads self.old }
    {
        put_file(alloc, &mut self.contents, name, bytes)
    }
}

impl Files for SureFiles {
    ghost holds = { λ f. Some (λ name. Some (unwrap_or (get_by_text f.contents name) [])) };

    ghost faults = { λ _. 0 };

    ghost reads = { λ f. f.reads.list };

    fn read_file(&mut self, alloc: Global, name: &str) -> Result<Bytes, FileError> {
        self.reads = self.reads.and(name, false);
        match self.contents.get(name) {
            None => Ok(Bytes::new(alloc)),
            Some(bytes) => copy_within_limit(alloc, bytes),
        }
    }
}
