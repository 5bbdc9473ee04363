ghost use Rattle.std.specs.Prelude.{◌≡◌, ◌≢◌, ◌<◌, ◌↔◌, ◌≤◌, List, ℕ, Some, length, IfOk, OnOk, OnErr, IsErrOf};
ghost use Rattle.std.specs.HashMap.{get_by_text, IsUnchanged};

use crate::errors::FileError;
use crate::limits::FILE_LIMIT;
use orc_ids::Bytes;
use std::alloc::{AllocError, Global};
use std::collections::HashMap;

/// Contents by name.
pub type FileTable = HashMap<String, Bytes>;

#[tactic(auto, using(std::proofs::lemmas::Map::Text::text_keys))]
/// Puts contents under a name, in place of what the name had.
pub fn put_file(
    alloc: Global,
    table: &mut FileTable,
    name: &str,
    bytes: Bytes,
) -> Result<(), AllocError>
    ensures there { OnOk result (get_by_text table.new name.now ≡ Some bytes) }
    ensures others { OnOk result ((other : List ℕ) → other ≢ name.now →
        get_by_text table.new other ≡ get_by_text table.old other) }
    ensures err { OnErr result (IsUnchanged table.old table.new) }
{
    let key = String::from_str(alloc, name)?;
    table.insert(key, bytes)?;
    Ok(())
}

/// A copy of contents of at most `FILE_LIMIT` bytes.
pub fn copy_within_limit(alloc: Global, bytes: &Bytes) -> Result<Bytes, FileError>
    ensures copy { IfOk result (λ copy. copy ≡ bytes.now) }
    ensures within { OnOk result (length bytes.now ≤ FILE_LIMIT) }
    ensures too_long { IsErrOf result FileError.TooLong → FILE_LIMIT < length bytes.now }
    ensures no_fault { IsErrOf result FileError.Failed → ⊥ }
{
    if bytes.len() > FILE_LIMIT {
        return Err(FileError::TooLong);
    }
    Ok(Bytes::copy_of(alloc, bytes.as_slice())?)
}
