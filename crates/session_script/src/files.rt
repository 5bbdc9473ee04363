ghost use Rattle.std.specs.Prelude.{◌≡◌, ◌<◌, [], length, true, Some, OnOk, IfOk, slice_get};
ghost use Rattle.session_script.specs.Texts.{has, number_of, mentioned};
ghost use Rattle.session_script.specs.Words.{is_file};

use crate::table::TextTable;
use orc_names::NameHasher;
use std::alloc::{AllocError, Global};
use std::marker::Model;

/// The names of files, each once, in the order in which they were first mentioned.
#[derive(Drop)]
pub struct FileTable {
    names: TextTable,
}

impl Model for FileTable {
    ghost use Rattle.std.specs.Prelude.{List, ℕ, ◌≡◌, true};
    ghost use Rattle.session_script.specs.Words.{are_files};

    ghost Value = { List (List ℕ) };

    ghost view = { λ t. t.names };

    ghost invariant = { λ t. are_files t.names ≡ true };
}

impl FileTable {
    /// No files; takes no memory.
    pub fn with_hasher(alloc: Global, hasher: NameHasher) -> FileTable
        ensures { result ≡ [] }
    {
        FileTable {
            names: TextTable::with_hasher(alloc, hasher),
        }
    }

    pub fn len(&self) -> usize
        ensures { result ≡ length self.now }
    {
        self.names.len()
    }

    /// Whether the file was mentioned.
    pub fn has(&self, file: &[u8]) -> bool
        ensures { result ≡ has file.now self.now }
    {
        self.names.has(file)
    }

    /// The number of a file, which is put at the end where it is new.
    pub fn mention(&mut self, file: &[u8]) -> Result<u32, AllocError>
        requires { is_file file.now ≡ true }
        ensures files { OnOk result (self.new ≡ mentioned file.now self.old) }
        ensures number { IfOk result (λ number. number ≡ number_of file.now self.new) }
    {
        let number = self.names.mention(file)?;
        Ok(number)
    }

    /// The name of the file of this number.
    pub fn name(&self, number: u32) -> &str
        requires { number < length self.now }
        ensures { slice_get self.now number ≡ Some result.now }
    {
        match std::str::from_utf8(self.names.text(number)) {
            Ok(name) => name,
            Err(_) => "",
        }
    }
}
